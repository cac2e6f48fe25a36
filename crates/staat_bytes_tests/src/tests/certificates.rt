// Certificates that are read and written again, and a reader that was fed too much. Which texts are refused, and with
// what line, stands in tests/texts-of-certificates.txt.

use crate::tests::comparing::{same_answer, same_bytes, shows};
use staat_cert::{CertReader, CertRefusal, cert_text, read_cert};
use std::alloc::Global;
use std::process::Abort;

// Two cubes that touch, in both versions, a dovetail, a cube in a closed box, and the greatest numbers of each kind.
const TEXTS: [&str; 6] = [
    "STAAT 1\nparts 2\nplan\nsplit 0 0 1\nsep 0 0 1 0 1 0 0\nleaf 0\nleaf 1\nend\n",
    "STAAT 2\nparts 2\nplan\nsplit 0 0 1\nsep 0 0 1 0 1 0 0\nleaf 0\nleaf 1\nend\n",
    "STAAT 1\nparts 2\nplan\nsplit 0 -1 0\nsep 0 0 1 0 0 0 -1\nsep 0 0 1 1 2 0 1\nsep 0 0 1 2 -2 0 1\nleaf 0\n\
    leaf 1\nend\n",
    "STAAT 2\nparts 2\nstuck 0 1\nwitness 0\nout 0 0 1 4\nin 1 5 0 0\nwitness 1\nout 0 0 1 2\nin 1 3 0 0\n\
    witness 2\nout 0 0 1 0\nin 1 1 0 0\ndir 0 0 1 0\ndir 0 1 0 1\ndir 1 0 0 2\nend\n",
    "STAAT 1\nparts 32\nstuck 0 1 5 31\nwitness 0\nout 31 63 31 63\nwitness 1\n\
    dir -2417851639229258349412352 2417851639229258349412352 0 1\ndir 0 0 0 1\n\
    dir 2417851639229258349412352 0 0 0\nend\n",
    "STAAT 2\nparts 2\nplan\nsplit 2417851639229258349412352 0 0\n\
    sep 31 63 31 63 549755813888 -549755813888 549755813888\nleaf 0\nleaf 31\nend\n",
];

fn comes_back(rt: &impl Abort, alloc: Global, text: &str) {
    let certificate = read_cert(alloc, text.as_bytes()).expect(rt, text);
    let written = cert_text(alloc, &certificate).expect(rt, text);
    same_bytes(rt, written.as_slice(), text.as_bytes(), text);
}

#[test]
fn texts_come_back(rt: HostRuntime) {
    for text in &TEXTS {
        comes_back(&rt, rt.alloc(), text);
    }
}

// Feeds a piece, and behind it one without bytes, which is answered in the same way.
fn feed(rt: &impl Abort, reader: &mut CertReader, piece: &[u8], want: Result<(), CertRefusal>) {
    same_answer(rt, reader.feed(piece), want);
    same_answer(rt, reader.feed(b""), want);
}

#[test]
fn a_certificate_ends_at_its_end(rt: HostRuntime) {
    let alloc = rt.alloc();
    let mut reader = CertReader::new(alloc).expect(&rt, "memory");
    feed(&rt, &mut reader, TEXTS[0].as_bytes(), Ok(()));
    feed(&rt, &mut reader, b"x", Err(CertRefusal::BadLine(9)));
    let refusal = reader.finish().err().expect(&rt, "a refusal");
    shows(&rt, alloc, &refusal, "bad line 9");
}
