// The texts of short certificates: those that are read and written again, and those that are refused.

use crate::tests::comparing::{same_answer, same_count, same_text, shows, text_of};
use staat_cert::CertRefusal;
use staat_short::{ShortAnswer, ShortCertificate, ShortReader, read_short, short_text};
use std::alloc::Global;
use std::process::Abort;

// The example of docs/FORMATS.md.
const GROUP: &str = "STAAT SHORT 1\nparts 5\nrest\nsplit 0 0 1\nleaf 4\nsplit 1 0 0\ngroup\nhold\n\
    part 0\npart 3\npair 0 0 3 0\npair 0 2 3 0\nhold\npart 0\npart 1\npair 0 1 1 0\npair 1 0 3 0\nleaf 2\nend\n";

const PLAN: &str = "STAAT SHORT 1\nparts 2\nplan\nsplit 0 -1 0\nleaf 1\nleaf 0\nend\n";

const STUCK: &str = "STAAT SHORT 1\nparts 11\nstuck\nhold\npart 0\npart 3\npair 0 0 3 0\n\
    pair 0 2 3 0\nend\n";

const TWO_GROUPS: &str =
    "STAAT SHORT 1\nparts 9\nrest\nsplit 0 0 1\ngroup\nhold\ngroup\nhold\nhold\nend\n";

// The greatest numbers of each kind.
const GREATEST: &str = "STAAT SHORT 1\nparts 1024\nrest\n\
    split -2417851639229258349412352 2417851639229258349412352 0\nleaf 1023\ngroup\nhold\npart 1023\n\
    pair 1022 16383 1023 16383\nend\n";

const TOO_SHORT: &str = "certificate too short";

// Texts, with what is written of what is read, or why nothing is.
const TEXTS: [(&str, &str); 30] = [
    (GROUP, GROUP),
    (PLAN, PLAN),
    (STUCK, STUCK),
    (TWO_GROUPS, TWO_GROUPS),
    (GREATEST, GREATEST),
    ("", TOO_SHORT),
    ("STAAT SHORT 1\nparts 1\nplan\nleaf 0\nen", TOO_SHORT),
    ("STAAT 1\n", "bad line 1"),
    ("STAAT SHORT 2\n", "bad line 1"),
    ("STAAT SHORT 01\n", "bad line 1"),
    ("STAAT SHORT\n", "bad line 1"),
    ("STAAT SHORT 1\r\n", "bad line 1"),
    ("STAAT SHORT 1\nparts 0\n", "bad line 2"),
    ("STAAT SHORT 1\nparts 1025\n", "bad line 2"),
    ("STAAT SHORT 1\nparts 02\n", "bad line 2"),
    ("STAAT SHORT 1\nparts 2\nplan 0\n", "bad line 3"),
    ("STAAT SHORT 1\nparts 2\nplan\ngroup\n", "bad line 4"),
    ("STAAT SHORT 1\nparts 2\nplan\nleaf 1024\n", "bad line 4"),
    ("STAAT SHORT 1\nparts 1\nplan\nsplit 0 0 1\n", "bad line 4"),
    (
        "STAAT SHORT 1\nparts 1\nplan\nleaf 0\nleaf 0\n",
        "bad line 5",
    ),
    ("STAAT SHORT 1\nparts 2\nstuck\nend\n", "bad line 4"),
    ("STAAT SHORT 1\nparts 2\nrest\nhold\n", "bad line 4"),
    ("STAAT SHORT 1\nparts 2\nrest\ngroup\nend\n", "bad line 5"),
    (
        "STAAT SHORT 1\nparts 2\nstuck\nhold\npart 1\npart 1\n",
        "bad line 6",
    ),
    (
        "STAAT SHORT 1\nparts 2\nstuck\nhold\npair 0 0 1 0\npart 1\n",
        "bad line 6",
    ),
    (
        "STAAT SHORT 1\nparts 2\nstuck\nhold\npair 1 0 1 0\n",
        "bad line 5",
    ),
    (
        "STAAT SHORT 1\nparts 2\nstuck\nhold\npair 0 0 1 16384\n",
        "bad line 5",
    ),
    (
        "STAAT SHORT 1\nparts 2\nstuck\nhold\npair 0 1 1 0\npair 0 0 1 0\n",
        "bad line 6",
    ),
    ("STAAT SHORT 1\nparts 2\nstuck\nhold\nend\n\n", "bad line 6"),
    (
        "STAAT SHORT 1\nparts 2\nstuck\nhold\nleaf 0\n",
        "bad line 5",
    ),
];

// What is written of what is read, or why nothing is.
fn told(rt: &impl Abort, alloc: Global, bytes: &[u8]) -> String {
    match read_short(alloc, bytes) {
        Ok(certificate) => {
            let text = short_text(alloc, &certificate).expect(rt, "a text");
            String::from_utf8(text.into_vec()).expect(rt, "a text")
        }
        Err(refusal) => text_of(rt, alloc, &refusal),
    }
}

fn tells(rt: &impl Abort, alloc: Global, text: &str, want: &str) {
    let got = told(rt, alloc, text.as_bytes());
    same_text(rt, got.as_str(), want, text);
}

#[test]
fn short_texts_come_back_or_are_refused(rt: HostRuntime) {
    for row in &TEXTS {
        tells(&rt, rt.alloc(), row.0, row.1);
    }
}

fn feed(rt: &impl Abort, reader: &mut ShortReader, piece: &[u8], want: Result<(), CertRefusal>) {
    same_answer(rt, reader.feed(piece), want);
}

fn count_of_nodes(certificate: &ShortCertificate) -> usize {
    match &certificate.answer {
        ShortAnswer::Plan(nodes) => nodes.as_slice().len(),
        ShortAnswer::Stuck(_) => 0,
        ShortAnswer::Rest(nodes) => nodes.as_slice().len(),
    }
}

// The group, in pieces of this size.
fn feed_group(rt: &impl Abort, alloc: Global, size: usize) {
    let mut reader = ShortReader::new(alloc).expect(rt, "memory");
    for piece in GROUP.as_bytes().chunks(size.max(1)) {
        feed(rt, &mut reader, piece, Ok(()));
    }
    let certificate = reader.finish().expect(rt, "a certificate");
    same_count(rt, count_of_nodes(&certificate), 5, GROUP);
}

#[test]
fn a_short_text_is_fed_in_pieces(rt: HostRuntime) {
    for size in 0..GROUP.len() {
        feed_group(&rt, rt.alloc(), size);
    }
}

#[test]
fn a_short_text_ends_at_its_end(rt: HostRuntime) {
    let mut reader = ShortReader::new(rt.alloc()).expect(&rt, "memory");
    feed(&rt, &mut reader, PLAN.as_bytes(), Ok(()));
    feed(&rt, &mut reader, b"x", Err(CertRefusal::BadLine(8)));
    let refusal = reader.finish().err().expect(&rt, "a refusal");
    shows(&rt, rt.alloc(), &refusal, "bad line 8");
}
