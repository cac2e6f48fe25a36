// The line that says a fault.
ghost use Rattle.std.specs.Prelude.{◌≡◌, ◌++◌, IfOk, codes, decimal, string_bytes};
ghost use Rattle.staat_fault.specs.Faults.{line_of, of_file, whole};

use crate::fault::Fault;
use staat_vec::{Bytes, Name, OutOfMemory};
use std::alloc::{AllocError, Global};

/// The line of a usage fault, which takes no memory.
pub const USAGE_LINE: &[u8] = b"staat: usage\n";

/// The line of a write fault, which takes no memory.
pub const WRITE_LINE: &[u8] = b"staat: write fault\n";

/// The line of want of memory, which takes none.
pub const MEMORY_LINE: &[u8] = b"staat: out of memory\n";

fn plain(alloc: Global, body: &str) -> Result<String, AllocError>
    ensures { IfOk result (λ s. string_bytes s ≡ whole body.now) }
{
    format!(in alloc; "staat: {body}\n")
}

// A fault that says the name of a file within its words.
fn around(alloc: Global, before: &str, after: &str) -> Result<String, AllocError>
    ensures { IfOk result (λ s. string_bytes s ≡ whole (before.now ++ after.now)) }
{
    format!(in alloc; "staat: {before}{after}\n")
}

fn about(alloc: Global, name: &Name, what: &str) -> Result<String, AllocError>
    ensures { IfOk result (λ s. string_bytes s ≡ whole (of_file name.now what.now)) }
{
    let name = name.as_str();
    format!(in alloc; "staat: {name}: {what}\n")
}

// A fault at a byte of a file, or of a numbered face, part or line.
fn about_at(alloc: Global, name: &Name, what: &str, at: u64) -> Result<String, AllocError>
    ensures { IfOk result (λ s. string_bytes s ≡ whole (of_file name.now (what.now ++ decimal at))) }
{
    let name = name.as_str();
    format!(in alloc; "staat: {name}: {what}{at}\n")
}

fn about_count(alloc: Global, name: &Name, what: &str, n: u32) -> Result<String, AllocError>
    ensures { IfOk result (λ s. string_bytes s ≡ whole (of_file name.now (what.now ++ decimal n ++ codes ")"))) }
{
    let name = name.as_str();
    format!(in alloc; "staat: {name}: {what}{n})\n")
}

fn about_text(alloc: Global, name: &Name, what: &str, text: &Name) -> Result<String, AllocError>
    ensures { IfOk result (λ s. string_bytes s ≡ whole (of_file name.now (what.now ++ text.now))) }
{
    let name = name.as_str();
    let text = text.as_str();
    format!(in alloc; "staat: {name}: {what}{text}\n")
}

fn open_edge(alloc: Global, name: &Name, face: u32, corner: u32) -> Result<String, AllocError>
    ensures { IfOk result (λ s. string_bytes s ≡ whole (of_file name.now (codes "open edge at face "
        ++ decimal face ++ codes " corner " ++ decimal corner))) }
{
    let name = name.as_str();
    format!(in alloc; "staat: {name}: open edge at face {face} corner {corner}\n")
}

fn overlap(alloc: Global, a: u32, i: u32, b: u32, j: u32) -> Result<String, AllocError>
    ensures { IfOk result (λ s. string_bytes s ≡ whole (codes "parts " ++ decimal a ++ codes " and " ++ decimal b
        ++ codes " overlap in pieces " ++ decimal i ++ codes " and " ++ decimal j)) }
{
    format!(in alloc; "staat: parts {a} and {b} overlap in pieces {i} and {j}\n")
}

fn too_far(alloc: Global, node: u32) -> Result<String, AllocError>
    ensures { IfOk result (λ s. string_bytes s ≡ whole (codes "exploded view too far at node " ++ decimal node)) }
{
    format!(in alloc; "staat: exploded view too far at node {node}\n")
}

// A fault of a number that is too great.
fn too_great(alloc: Global, what: &str, found: u128) -> Result<String, AllocError>
    ensures { IfOk result (λ s. string_bytes s ≡ whole (what.now ++ codes " (" ++ decimal found ++ codes ")")) }
{
    format!(in alloc; "staat: {what} ({found})\n")
}

#[tactic(auto, unfolding(crate::specs::Faults::line_of, crate::specs::Faults::body_of))]
fn line_text(alloc: Global, fault: &Fault) -> Result<String, AllocError>
    ensures { IfOk result (λ s. string_bytes s ≡ line_of fault.now) }
{
    match fault {
        Fault::Usage => plain(alloc, "usage"),
        Fault::ReadFault(name) => around(alloc, "cannot read ", name.as_str()),
        Fault::TooLong(name) => around(alloc, name.as_str(), " is too long"),
        Fault::NoHeader(name) => about(alloc, name, "no OFF header"),
        Fault::BadNumber(name, at) => about_at(alloc, name, "bad number at ", *at),
        Fault::NotWhole(name, at) => about_at(alloc, name, "not a whole number at ", *at),
        Fault::TooBig(name, at) => about_at(alloc, name, "number too big at ", *at),
        Fault::BadCount(name, at) => about_at(alloc, name, "bad count at ", *at),
        Fault::BadIndex(name, at) => about_at(alloc, name, "bad index at ", *at),
        Fault::ShortFile(name) => about(alloc, name, "file too short"),
        Fault::Trailing(name, at) => about_at(alloc, name, "extra word at ", *at),
        Fault::TooFewPoints(name, n) => about_count(alloc, name, "too few points (", *n),
        Fault::TooManyPoints(name, n) => about_count(alloc, name, "too many points (", *n),
        Fault::Flat(name) => about(alloc, name, "all points in one plane"),
        Fault::BadFace(name, n) => about_at(alloc, name, "bad face ", u64::from(*n)),
        Fault::NotConvex(name, n) => about_at(alloc, name, "not convex at face ", u64::from(*n)),
        Fault::OpenEdge(name, face, corner) => open_edge(alloc, name, *face, *corner),
        Fault::PlacedFar(name) => about(alloc, name, "placed too far"),
        Fault::NotJson(name) => about(alloc, name, "not JSON"),
        Fault::BadShape(name, path) => about_text(alloc, name, "bad shape at ", path),
        Fault::RepeatedName(name, part) => about_text(alloc, name, "repeated name ", part),
        Fault::NoPieces(name, n) => about_at(alloc, name, "no pieces in part ", u64::from(*n)),
        Fault::TooManyParts(name) => about(alloc, name, "too many parts"),
        Fault::TooManyPieces(name) => about(alloc, name, "too many pieces"),
        Fault::Overlap(a, i, b, j) => overlap(alloc, *a, *i, *b, *j),
        Fault::BadLine(name, n) => about_at(alloc, name, "bad line ", u64::from(*n)),
        Fault::ShortCert(name) => about(alloc, name, "certificate too short"),
        Fault::TooManyPlanes(found) => too_great(alloc, "too many planes", u128::from(*found)),
        Fault::TooFar(node) => too_far(alloc, *node),
        Fault::TextTooLong(length) => too_great(alloc, "text too long", *length),
        Fault::WriteFault => plain(alloc, "write fault"),
        Fault::OutOfMemory => plain(alloc, "out of memory"),
    }
}

/// The line on err that says the fault, with its line end.
pub fn fault_line(alloc: Global, fault: &Fault) -> Result<Bytes, OutOfMemory>
    ensures { IfOk result (λ line. line ≡ line_of fault.now) }
{
    let line = line_text(alloc, fault)?;
    Ok(Bytes::from_vec(line.into_bytes()))
}
