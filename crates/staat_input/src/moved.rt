// The pieces of a part, each read from its file and moved as the part is.
ghost use Rattle.std.specs.Prelude.{◌≡◌, ◌≤◌, ◌+◌, [], ◌∷◌, IfErr, OnOk};
ghost use Rattle.staat_limits.specs.declared.limits.TheConstants.{MOST_DIGITS};
ghost use Rattle.staat_vec.specs.Vectors.{IsWithin};
ghost use Rattle.staat_input.specs.Work.{Follows};
ghost use Rattle.staat_input.specs.Drawing.{SketchGrows, solid_of};
ghost use Rattle.staat_input.specs.Moved.{IsMovedPieceOf, MovesPiece};
ghost use Rattle.staat_input.specs.Causes.{HasCause, ShelfSide};
ghost use Rattle.staat_input.specs.Taking.{TakesFiles};

use crate::read::{Drawn, read_drawn};
use crate::sketch::Sketch;
use staat_asm::{PlaceRefusal, place};
use staat_edge::Shelf;
use staat_fault::Fault;
use staat_model::Piece;
use staat_vec::{Name, POINT, V3};
use std::alloc::Global;

// The piece of that file, moved by a vector.
#[tactic(auto, using(crate::proofs::MovedLemmas::moves_there, crate::proofs::MovedLemmas::moves_far))]
fn moved(alloc: Global, name: &Name, piece: Piece, at: V3) -> Result<Piece, Fault>
    requires { IsWithin POINT at }
    ensures moves { Follows (MovesPiece name.now at piece) result }
    ensures cause { (shelf : ShelfSide) → IfErr result (HasCause shelf) }
{
    match place(alloc, piece, at) {
        Ok(piece) => Ok(piece),
        Err(PlaceRefusal::PlacedFar) => Err(Fault::PlacedFar(name.copied(alloc)?)),
        Err(PlaceRefusal::OutOfMemory) => Err(Fault::OutOfMemory),
    }
}

/// The piece that a file holds, with coordinates scaled by so many decimal digits, moved by `at` in scaled units, for
/// the part with this number. The components of `at` are at most [`POINT`] in absolute value. What the file holds is
/// kept for a drawing, if there is one.
pub fn read_moved<H: Shelf>(
    alloc: Global,
    digits: u32,
    shelf: &mut H,
    name: &Name,
    part: u32,
    at: V3,
    sketch: &mut Sketch,
) -> Result<Piece, Fault>
    requires digits { digits ≤ MOST_DIGITS }
    requires vector { IsWithin POINT at }
    ensures takes { TakesFiles (λ files. IsMovedPieceOf files digits at name.now) (name.now ∷ [])
        (λ long. long ≡ name.now) (H.told shelf.old) (H.told shelf.new) result }
    ensures grows { OnOk result (SketchGrows (λ files. solid_of files digits part at name.now ∷ []) (part + 1) 1
        (H.told shelf.new) sketch.old sketch.new) }
{
    let Drawn { raw, piece } = read_drawn(alloc, digits, shelf, name)?;
    sketch.add(part, at, raw)?;
    moved(alloc, name, piece, at)
}
