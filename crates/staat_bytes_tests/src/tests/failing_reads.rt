// Files that fail in mid-stream. What a call says for words and files stands in the transcripts of tests/.

use crate::tests::comparing::{same_count, same_text};
use crate::tests::inputs::words;
use crate::tests::replies::{VALID, said, says};
use std::alloc::Global;
use std::process::Abort;

// Each command, and the files that it reads, in their order, each of them once for each time that it is named: a pipe
// that was read is empty. A file takes three calls of the shelf: one that opens it, one that reads its bytes and one
// that finds its end. The call that fails is told by its file, and there are no calls but these.
const READS: &str = "\
check c a.off b.off>a.off b.off c
plan b.off a.off>b.off a.off
plan --cert b.off a.off>b.off a.off
cells b.off a.off>b.off a.off
linear b.off a.off>b.off a.off
local b.off a.off>b.off a.off
pair a.off b.off --along=0,0,1 --wall=1,0,0>a.off b.off
look b.off a.off>b.off a.off
explode --off --manifest=m.json>m.json a.off b.off b.off
look --manifest=m.json>m.json a.off b.off b.off
graph --along=0,0,1 --manifest=dovetail>dovetail tail base right left";

// The three calls of a file, of which each fails in turn.
fn fail_file(rt: &impl Abort, alloc: Global, line: &str, name: &str, file: usize) {
    let want = format!(in alloc; "5||staat: cannot read {name}\n").expect(rt, "memory");
    let first = (file as u64).saturating_mul(3);
    for call in 0..3 {
        says(
            rt,
            alloc,
            line,
            VALID,
            4096,
            first.saturating_add(call),
            want.as_str(),
        );
    }
}

// How many calls a command for these files takes, of which each fails in turn, and none behind them.
fn fail_files(rt: &impl Abort, alloc: Global, line: &str, names: &[String]) -> usize {
    for (file, name) in names.iter().enumerate() {
        fail_file(rt, alloc, line, name.as_str(), file);
    }
    let calls = names.len().saturating_mul(3);
    let got = said(rt, alloc, line, VALID, 4096, calls as u64);
    same_text(rt, got.as_str().get(..2).unwrap_or(""), "0|", line);
    calls
}

// The same for a row.
fn fail_row(rt: &impl Abort, alloc: Global, row: &str) -> usize {
    let (line, files) = row.split_once('>').expect(rt, "an arrow");
    let names = words(rt, alloc, files);
    fail_files(rt, alloc, line, names.as_slice())
}

#[test]
fn each_command_reads_a_file_as_often_as_it_is_named(rt: HostRuntime) {
    let mut count = 0usize;
    for row in READS.lines() {
        count = count.saturating_add(fail_row(&rt, rt.alloc(), row));
    }
    same_count(&rt, count, 90, "calls");
}
