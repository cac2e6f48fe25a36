// The call `staat` over files and sinks in memory.

use crate::tests::comparing::same_text;
use crate::tests::inputs::{bytes, name, words};
use crate::tests::shelves::{NEVER, calls};
use staat_edge::{Files, MemoryShelf, MemorySink};
use staat_top::staat;
use staat_vec::{Bytes, Name};
use std::alloc::Global;
use std::process::Abort;

/// The certificate of a plan for a cube and the one beside it.
pub const VALID: &str =
    "STAAT 1\nparts 2\nplan\nsplit 0 0 1\nsep 0 0 1 0 1 0 0\nleaf 0\nleaf 1\nend\n";

// A row for each file: its name, and a part list or the corners of a body: four below, and four above in their order.
// A cube and one beside it, the walls of a box about the cube, and a dovetail.
const FILES: &str = r#"a.off 0 0 0 2 0 0 2 2 0 0 2 0 0 0 2 2 0 2 2 2 2 0 2 2
b.off 2 0 0 4 0 0 4 2 0 2 2 0 2 0 2 4 0 2 4 2 2 2 2 2
east 2 -1 -1 3 -1 -1 3 3 -1 2 3 -1 2 -1 3 3 -1 3 3 3 3 2 3 3
west -1 -1 -1 0 -1 -1 0 3 -1 -1 3 -1 -1 -1 3 0 -1 3 0 3 3 -1 3 3
north -1 2 -1 3 2 -1 3 3 -1 -1 3 -1 -1 2 3 3 2 3 3 3 3 -1 3 3
south -1 -1 -1 3 -1 -1 3 0 -1 -1 0 -1 -1 -1 3 3 -1 3 3 0 3 -1 0 3
top -1 -1 2 3 -1 2 3 3 2 -1 3 2 -1 -1 3 3 -1 3 3 3 3 -1 3 3
floor -1 -1 -1 3 -1 -1 3 3 -1 -1 3 -1 -1 -1 0 3 -1 0 3 3 0 -1 3 0
tail -2 0 0 2 0 0 2 4 0 -2 4 0 -1 0 2 1 0 2 1 4 2 -1 4 2
base -4 0 -1 4 0 -1 4 4 -1 -4 4 -1 -4 0 0 4 0 0 4 4 0 -4 4 0
right 2 0 0 4 0 0 4 4 0 2 4 0 1 0 2 4 0 2 4 4 2 1 4 2
left -4 0 0 -2 0 0 -2 4 0 -4 4 0 -4 0 2 -1 0 2 -1 4 2 -4 4 2
m.json {"parts":[{"name":"left","pieces":["a.off"]},{"name":"both","pieces":["b.off","b.off"]}]}
closed {"parts":[{"name":"c","pieces":["a.off"]},{"name":"b","pieces":["east","west","north","south","top","floor"]}]}
dovetail {"parts":[{"name":"tail","pieces":["tail"]},{"name":"socket","pieces":["base","right","left"]}]}"#;

const FACES: &str = "4 0 3 2 1\n4 4 5 6 7\n4 0 1 5 4\n4 1 2 6 5\n4 2 3 7 6\n4 3 0 4 7\n";

// The file of a row.
fn content(rt: &impl Abort, alloc: Global, row: &str) -> Bytes {
    if row.starts_with('{') {
        return bytes(rt, alloc, row);
    }
    let text = format!(in alloc; "OFF 8 6 0 {row}\n{FACES}").expect(rt, "memory");
    bytes(rt, alloc, text.as_str())
}

fn file(rt: &impl Abort, alloc: Global, row: &str) -> (Name, Bytes) {
    let (file, text) = row.split_once(' ').expect(rt, "a space");
    (name(rt, alloc, file), content(rt, alloc, text))
}

/// A shelf with all files, of which c is this text. It gives so many bytes at a time, one or more, and one call fails.
pub fn shelf(
    rt: &impl Abort,
    alloc: Global,
    certificate: &str,
    chunk: usize,
    failing: u64,
) -> MemoryShelf {
    let mut files = Vec::new(alloc);
    for row in FILES.lines() {
        files.push(file(rt, alloc, row)).expect(rt, "memory");
    }
    files
        .push((name(rt, alloc, "c"), bytes(rt, alloc, certificate)))
        .expect(rt, "memory");
    let failing = calls(rt, alloc, failing);
    MemoryShelf::new(alloc, Files::from_vec(files), failing, chunk.max(1)).expect(rt, "memory")
}

/// A sink with this room, which takes so many bytes at a time, at least one, and of which one call fails.
pub fn sink(rt: &impl Abort, alloc: Global, room: usize, chunk: usize, failing: u64) -> MemorySink {
    let failing = calls(rt, alloc, failing);
    MemorySink::new(alloc, room, failing, chunk.max(1)).expect(rt, "memory")
}

// What a sink took, as a text.
fn taken(rt: &impl Abort, alloc: Global, sink: &MemorySink) -> String {
    String::from_utf8_lossy(alloc, sink.taken())
        .expect(rt, "memory")
        .as_str()
        .to_string(alloc)
        .expect(rt, "memory")
}

/// The status of a call, what out takes and what err takes, parted by `|`.
pub fn reply(
    rt: &impl Abort,
    alloc: Global,
    line: &str,
    mut shelf: MemoryShelf,
    mut out: MemorySink,
    mut err: MemorySink,
) -> String {
    let words = words(rt, alloc, line);
    let status = staat(alloc, &words, &mut shelf, &mut out, &mut err);
    let out = taken(rt, alloc, &out);
    let err = taken(rt, alloc, &err);
    format!(in alloc; "{status}|{out}|{err}").expect(rt, "memory")
}

/// The reply where both sinks have room, and the shelf gives so many bytes at a time and fails at this call.
pub fn said(
    rt: &impl Abort,
    alloc: Global,
    line: &str,
    certificate: &str,
    chunk: usize,
    failing: u64,
) -> String {
    let shelf = shelf(rt, alloc, certificate, chunk, failing);
    let out = sink(rt, alloc, 4096, 64, NEVER);
    let err = sink(rt, alloc, 64, 64, NEVER);
    reply(rt, alloc, line, shelf, out, err)
}

/// Ends the test where this is not the reply.
pub fn says(
    rt: &impl Abort,
    alloc: Global,
    line: &str,
    certificate: &str,
    chunk: usize,
    failing: u64,
    want: &str,
) {
    let got = said(rt, alloc, line, certificate, chunk, failing);
    same_text(rt, got.as_str(), want, line);
}
