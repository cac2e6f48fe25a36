// What `check` says of certificates that come in small pieces. What it says of whole ones stands in tests/check.txt.

use crate::tests::replies::{VALID, says};
use crate::tests::shelves::NEVER;
use std::alloc::Global;
use std::process::Abort;

const BOX: &str =
    "STAAT 2\nparts 2\nstuck 0 1\nwitness 0\nout 0 0 1 4\nin 1 5 0 0\nwitness 1\nout 0 0 1 2\n\
    in 1 3 0 0\nwitness 2\nout 0 0 1 0\nin 1 1 0 0\ndir 0 0 1 0\ndir 0 1 0 1\ndir 1 0 0 2\nend\n";

const WITHOUT_A_WALL: &str = "STAAT 1\nparts 2\nplan\nsplit 0 0 1\nleaf 0\nleaf 1\nend\n";

const BAD_LINE: &str =
    "STAAT 1\nparts 2\nplan\nsplit 0  0 1\nsep 0 0 1 0 1 0 0\nleaf 0\nleaf 1\nend\n";

const WITHOUT_AN_END: &str =
    "STAAT 1\nparts 2\nplan\nsplit 0 0 1\nsep 0 0 1 0 1 0 0\nleaf 0\nleaf 1\n";

const CUBES: &str = "check c a.off b.off";

// Words, a certificate, and the reply.
const CASES: [(&str, &str, &str); 5] = [
    (CUBES, VALID, "0|valid plan\n|"),
    ("check c --manifest=closed", BOX, "0|valid refusal\n|"),
    (
        CUBES,
        WITHOUT_A_WALL,
        "1|not valid: missing separator 0 0 1 0\n|",
    ),
    (CUBES, BAD_LINE, "3||staat: c: bad line 4\n"),
    (
        CUBES,
        WITHOUT_AN_END,
        "3||staat: c: certificate too short\n",
    ),
];

// A case, with the certificate in pieces of several sizes.
fn judge(rt: &impl Abort, alloc: Global, line: &str, certificate: &str, want: &str) {
    for chunk in [1, 7, 1000] {
        says(rt, alloc, line, certificate, chunk, NEVER, want);
    }
}

#[test]
fn a_certificate_is_judged_in_whatever_pieces_it_comes(rt: HostRuntime) {
    for row in &CASES {
        judge(&rt, rt.alloc(), row.0, row.1, row.2);
    }
}

// In pieces of 16 bytes each of the two files of parts takes ten calls, and three reads give the bad line whole.
#[test]
fn a_fault_of_a_later_read_comes_before_a_bad_line(rt: HostRuntime) {
    let alloc = rt.alloc();
    says(
        &rt,
        alloc,
        CUBES,
        BAD_LINE,
        16,
        24,
        "5||staat: cannot read c\n",
    );
    says(
        &rt,
        alloc,
        CUBES,
        BAD_LINE,
        16,
        NEVER,
        "3||staat: c: bad line 4\n",
    );
}
