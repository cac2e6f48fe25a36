// The text that lists the parts of an assembly.
ghost use Rattle.std.specs.Prelude.{◌≡◌, ◌<◌, ◌++◌, IfOk, List, Some};
ghost use Rattle.std.specs.Prelude.{codes, decimal, length, slice_get, string_bytes};
ghost use Rattle.staat_model.specs.declared.assembly.Part.{Part as PartValue};
ghost use Rattle.staat_model.specs.Assemblies.{piece_count};
ghost use Rattle.staat_text.specs.Parts.{counted_line, look_text, part_line, parts_text, pieces_at, point_count};

use staat_model::{Assembly, Sound};
use staat_vec::{Bytes, OutOfMemory};
use std::alloc::{AllocError, Global};

// How many points the pieces of the part a have in all.
fn point_count(assembly: &Assembly, a: u32) -> u32
    requires { a < length assembly.now }
    ensures { result ≡ point_count (pieces_at assembly.now a) }
{
    let mut count = 0;
    for i in 0..assembly.pieces(a) {
        count += assembly.piece(a, i).points().len() as u32;
    }
    count
}

// The line of a part.
fn line(
    alloc: Global,
    number: u32,
    pieces: u32,
    points: u32,
    name: &str,
) -> Result<String, AllocError>
    ensures { IfOk result (λ s. string_bytes s ≡ counted_line number pieces points name.now) }
{
    format!(in alloc; "part {number} pieces {pieces} points {points} name {name}\n")
}

// The line of the part a.
fn part_line(alloc: Global, assembly: &Assembly, a: u32) -> Result<String, AllocError>
    requires { a < length assembly.now }
    ensures { IfOk result (λ s. (part : PartValue) → slice_get assembly.now a ≡ Some part
        → string_bytes s ≡ part_line a part) }
{
    let pieces = assembly.pieces(a);
    let points = point_count(assembly, a);
    line(alloc, a, pieces, points, assembly.name(a))
}

// The lines that list the parts.
#[tactic(auto, unfolding(crate::specs::Parts::parts_text))]
fn lines(alloc: Global, a: &Assembly) -> Result<Vec<u8>, AllocError>
    ensures { IfOk result (λ text. text.items ≡ parts_text a.now) }
{
    let mut text = Vec::new(alloc);
    for part in 0..a.parts() {
        let line = part_line(alloc, a, part)?;
        text.extend_from_slice(line.as_bytes())?;
    }
    Ok(text)
}

/// The lines that list the parts: `part K pieces I points P name NAME` for each part in order, where `K` counts from 0
/// and `P` is the sum of the points of its pieces.
pub fn parts_text(alloc: Global, a: &Assembly) -> Result<Bytes, OutOfMemory>
    ensures { IfOk result (λ text. text ≡ parts_text a.now) }
{
    let text = lines(alloc, a)?;
    Ok(Bytes::from_vec(text))
}

/// The lines that list the parts of a sound assembly, and the line `sound`.
#[tactic(auto, unfolding(crate::specs::Parts::look_text))]
pub fn look_text(alloc: Global, sound: &Sound) -> Result<Bytes, OutOfMemory>
    ensures { IfOk result (λ text. text ≡ look_text sound.now) }
{
    let mut text = lines(alloc, sound.assembly())?;
    text.extend_from_slice(b"sound\n")?;
    Ok(Bytes::from_vec(text))
}
