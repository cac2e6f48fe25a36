// Texts and numbers that no command reaches.

use crate::tests::comparing::{same_bytes, same_count, same_truth};
use crate::tests::inputs::name;
use staat_fault::laws::{memory_line, usage_line, write_line};
use staat_fault::{Fault, fault_line, status_of};
use staat_graph::Graph;
use staat_model::{Reason, Verdict};
use staat_number::natural_of;
use staat_text::{graph_text, verdict_text};
use staat_vec::V3;
use std::alloc::Global;
use std::process::Abort;

const FAR: V3 = V3 {
    x: -2417851639229258349412352,
    y: 0,
    z: -1,
};

// Between the parts 0 and 2 both ways, and between 1 and a fourth part, which is none of the three.
#[test]
fn arcs_of_other_parts_are_left_out(rt: HostRuntime) {
    let mut rows = [0u32; 32];
    rows[0] = 0b100;
    rows[1] = 0b1000;
    rows[2] = 0b1;
    rows[3] = 0b10;
    let text = graph_text(rt.alloc(), 3, FAR, &Graph { rows }).expect(&rt, "memory");
    let want = b"along -2417851639229258349412352 0 -1\narc 0 2\narc 2 0\ngroup 0 2\ngroup 1\n";
    same_bytes(&rt, text.as_slice(), want, "a graph");
}

const VERDICTS: [(Verdict, &str); 11] = [
    (Verdict::ValidPlan, "valid plan\n"),
    (Verdict::ValidRefusal, "valid refusal\n"),
    (
        Verdict::Not(Reason::WrongParts(3)),
        "not valid: wrong parts 3\n",
    ),
    (
        Verdict::Not(Reason::BadLeaves(4)),
        "not valid: bad leaves at node 4\n",
    ),
    (
        Verdict::Not(Reason::ZeroDirection(0)),
        "not valid: zero direction at node 0\n",
    ),
    (
        Verdict::Not(Reason::BadSeparator(5)),
        "not valid: bad separator on line 5\n",
    ),
    (
        Verdict::Not(Reason::MissingSeparator(0, 1, 2, 3)),
        "not valid: missing separator 0 1 2 3\n",
    ),
    (
        Verdict::Not(Reason::BadStuckSet),
        "not valid: bad stuck set\n",
    ),
    (
        Verdict::Not(Reason::BadArc(22)),
        "not valid: bad arc on line 22\n",
    ),
    (
        Verdict::Not(Reason::BadTree(2)),
        "not valid: bad tree in witness 2\n",
    ),
    (
        Verdict::Not(Reason::MissingDirection(V3 { x: 1, y: -20, z: 0 })),
        "not valid: missing direction 1 -20 0\n",
    ),
];

fn tells(rt: &impl Abort, alloc: Global, verdict: &Verdict, want: &str) {
    let line = verdict_text(alloc, verdict).expect(rt, "memory");
    same_bytes(rt, line.as_slice(), want.as_bytes(), want);
}

#[test]
fn a_line_for_each_verdict(rt: HostRuntime) {
    for row in &VERDICTS {
        tells(&rt, rt.alloc(), &row.0, row.1);
    }
}

fn faults(rt: &impl Abort, alloc: Global, fault: Fault, status: usize, want: &str) {
    let line = fault_line(alloc, &fault).expect(rt, "memory");
    same_bytes(rt, line.as_slice(), want.as_bytes(), want);
    same_count(rt, status_of(&fault) as usize, status, want);
}

#[test]
fn faults_have_lines_and_statuses(rt: HostRuntime) {
    let alloc = rt.alloc();
    let number = Fault::BadNumber(name(&rt, alloc, "a.off"), u64::MAX);
    faults(
        &rt,
        alloc,
        number,
        3,
        "staat: a.off: bad number at 18446744073709551615\n",
    );
    let length = Fault::TextTooLong(134217729);
    faults(&rt, alloc, length, 4, "staat: text too long (134217729)\n");
}

#[test]
fn three_lines_take_no_memory(rt: HostRuntime) {
    same_bytes(&rt, usage_line(), b"staat: usage\n", "usage");
    same_bytes(&rt, write_line(), b"staat: write fault\n", "a write fault");
    same_bytes(
        &rt,
        memory_line(),
        b"staat: out of memory\n",
        "want of memory",
    );
}

const MOST: &str = "340282366920938463463374607431768211455";

#[test]
fn a_natural_number_is_at_most_the_greatest(rt: HostRuntime) {
    let most = natural_of(MOST, u128::MAX);
    same_truth(&rt, most == Some(u128::MAX), true, "the limit");
    let none = natural_of(MOST, u128::MAX - 1);
    same_truth(&rt, none.is_none(), true, "one past the limit");
}
