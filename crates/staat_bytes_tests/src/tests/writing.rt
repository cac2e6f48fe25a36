// What out and err hold when one of them fails, at each byte. The whole answers stand in the transcripts of tests/.

use crate::tests::comparing::{same_count, same_text};
use crate::tests::replies::{VALID, reply, shelf, sink};
use crate::tests::shelves::NEVER;
use std::alloc::Global;
use std::process::Abort;

const FREE: &str = "pair a.off b.off --along=0,0,1 --wall=1,0,0";

// Words, how many bytes the answer has, and whether a call of out fails, or its room ends.
const ANSWERS: [(&str, usize, bool); 9] = [
    (FREE, 5, true),
    (FREE, 5, false),
    ("plan a.off b.off", 39, true),
    ("plan a.off b.off", 39, false),
    ("graph --along=-2,0,0 a.off b.off", 37, true),
    ("cells a.off b.off", 441, true),
    ("check c a.off b.off", 11, true),
    ("plan --cert a.off b.off", 69, true),
    ("plan --manifest=closed --cert", 165, true),
];

// The reply where out has so much room, of out and of err one call fails, and both take so many bytes at a time.
fn held(
    rt: &impl Abort,
    alloc: Global,
    line: &str,
    room: usize,
    calls: [u64; 2],
    chunk: usize,
) -> String {
    let [of_out, of_err] = calls;
    let out = sink(rt, alloc, room, chunk, of_out);
    let err = sink(rt, alloc, 64, chunk, of_err);
    reply(
        rt,
        alloc,
        line,
        shelf(rt, alloc, VALID, 4096, NEVER),
        out,
        err,
    )
}

// The reply where out takes so many bytes and no more: one at a time until a call fails, or all that it has room for.
fn cut(rt: &impl Abort, alloc: Global, line: &str, taken: usize, is_call: bool) -> String {
    if is_call {
        held(rt, alloc, line, 1024, [taken as u64, NEVER], 1)
    } else {
        held(rt, alloc, line, taken, [NEVER, NEVER], 64)
    }
}

// The reply where out takes so many bytes of a whole reply, of which the first two are the status.
fn front(rt: &impl Abort, alloc: Global, whole: &str, taken: usize) -> String {
    let text = whole.get(2..).unwrap_or("");
    let front = text.get(..taken).unwrap_or("");
    format!(in alloc; "6|{front}|staat: write fault\n").expect(rt, "memory")
}

// An answer of so many bytes, of which out takes each smaller number.
fn cut_answer(rt: &impl Abort, alloc: Global, line: &str, length: usize, is_call: bool) {
    let whole = cut(rt, alloc, line, length, is_call);
    same_count(rt, whole.len(), length.saturating_add(3), line);
    for taken in 0..length {
        let want = front(rt, alloc, whole.as_str(), taken);
        let got = cut(rt, alloc, line, taken, is_call);
        same_text(rt, got.as_str(), want.as_str(), line);
    }
}

#[test]
fn out_keeps_the_bytes_that_it_took(rt: HostRuntime) {
    for row in &ANSWERS {
        cut_answer(&rt, rt.alloc(), row.0, row.1, row.2);
    }
}

// Words, the calls of out and err that fail, how many bytes both take at a time, and the reply.
const BOTH: [(&str, u64, u64, usize, &str); 9] = [
    (FREE, 1, NEVER, 2, "6|fr|staat: write fault\n"),
    (FREE, NEVER, 0, 1, "0|free\n|"),
    (FREE, 0, 0, 1, "6||"),
    (FREE, 0, 3, 1, "6||sta"),
    (FREE, 0, 18, 1, "6||staat: write fault"),
    (
        "plan a.off b.off",
        1,
        NEVER,
        8,
        "6|move 0 a|staat: write fault\n",
    ),
    ("plan a.off b.off", 0, 0, 64, "6||"),
    ("", NEVER, 0, 64, "6||"),
    ("pair", 0, 13, 1, "2||staat: usage\n"),
];

fn holds(rt: &impl Abort, alloc: Global, line: &str, calls: [u64; 2], chunk: usize, want: &str) {
    let got = held(rt, alloc, line, 64, calls, chunk);
    same_text(rt, got.as_str(), want, line);
}

#[test]
fn what_both_sinks_hold_when_they_fail(rt: HostRuntime) {
    for row in &BOTH {
        holds(&rt, rt.alloc(), row.0, [row.1, row.2], row.3, row.4);
    }
}

// Err fails at this call of a usage fault.
fn cut_usage(rt: &impl Abort, alloc: Global, call: usize) {
    let front = "staat: usage\n".get(..call).unwrap_or("");
    let want = format!(in alloc; "6||{front}").expect(rt, "memory");
    holds(rt, alloc, "pair", [0, call as u64], 1, want.as_str());
}

#[test]
fn a_failing_err_keeps_the_front_of_a_line(rt: HostRuntime) {
    for call in 0..13 {
        cut_usage(&rt, rt.alloc(), call);
    }
}
