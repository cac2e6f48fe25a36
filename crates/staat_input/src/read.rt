// The files of a request.
ghost use Rattle.std.specs.Prelude.{◌≡◌, ◌≤◌, IfErr, IfOk, List, Ok, ℕ, length};
ghost use Rattle.std.specs.Prelude.{is_ok, ◌∷◌, []};
ghost use Rattle.staat_limits.specs.declared.limits.TheConstants.{MOST_DIGITS};
ghost use Rattle.staat_input.specs.Work.{Files, Follows, IsNotTaken};
ghost use Rattle.staat_off.specs.Raws.{IsCounted, IsIndexed};
ghost use Rattle.staat_off.specs.Reading.{reading};
ghost use Rattle.staat_edge.specs.Files.{bytes_of};
ghost use Rattle.staat_edge.specs.Fitting.{Fit, IsWhole};
ghost use Rattle.staat_edge.specs.Opening.{OpensFiles};
ghost use Rattle.staat_edge.specs.Readings.{whole_reading};
ghost use Rattle.staat_input.specs.Drawing.{piece_found, raw_in};
ghost use Rattle.staat_input.specs.Pieces.{IsPieceOf, SaysPiece};
ghost use Rattle.staat_input.specs.Taking.{IsLaterShelf, TakesFiles};
ghost use Rattle.staat_input.specs.Causes.{HasCause, ShelfSide, over};

use crate::refusals::{mesh_fault, off_fault, read_fault};
use staat_edge::{Shelf, read_whole};
use staat_fault::Fault;
use staat_limits::FILE_LIMIT;
use staat_mesh::make_piece;
use staat_model::Piece;
use staat_off::{Raw, read_off};
use staat_vec::{Bytes, Name};
use std::alloc::Global;

/// The bytes of a whole file.
pub fn read_file<H: Shelf>(alloc: Global, shelf: &mut H, name: &Name) -> Result<Bytes, Fault>
    ensures after { IsLaterShelf (H.told shelf.old) (H.told shelf.new) }
    ensures gave { IfOk result (λ bytes.
        (H.told shelf.new).given ≡ whole_reading name.now bytes ∷ (H.told shelf.old).given) }
    ensures opens { OpensFiles (is_ok result) (name.now ∷ []) (H.told shelf.old) (H.told shelf.new) }
    ensures whole { IfOk result (λ bytes. IsWhole (H.told shelf.new) name.now bytes) }
    ensures within { IfOk result (λ bytes. length bytes ≤ FILE_LIMIT) }
    ensures refused { IfErr result (IsNotTaken (H.told shelf.new) name.now) }
    ensures cause { IfErr result (HasCause (over (H.told shelf.old) (H.told shelf.new))) }
{
    match read_whole(alloc, shelf, name.as_str(), FILE_LIMIT) {
        Ok(bytes) => Ok(bytes),
        Err(refusal) => Err(read_fault(name.copied(alloc)?, refusal)),
    }
}

/// What was read in a file: its points and faces, and the piece that they bound.
#[derive(Drop)]
pub struct Drawn {
    pub raw: Raw,
    pub piece: Piece,
}

// The points and faces that the bytes of a file hold, and their piece.
#[tactic(auto, using(crate::proofs::ReadLemmas::saying))]
fn drawn_in(alloc: Global, digits: u32, bytes: &[u8], name: &Name) -> Result<Drawn, Fault>
    requires { digits ≤ MOST_DIGITS }
    ensures says { Follows (SaysPiece digits name.now bytes.now) (piece_found result) }
    ensures raw { IfOk result (λ drawn. reading digits bytes.now ≡ Ok drawn.raw) }
    ensures indexed { IfOk result (λ drawn. IsIndexed drawn.raw) }
    ensures counted { IfOk result (λ drawn. IsCounted drawn.raw) }
    ensures cause { (shelf : ShelfSide) → IfErr (piece_found result) (HasCause shelf) }
{
    let raw = match read_off(alloc, bytes, digits) {
        Ok(raw) => raw,
        Err(refusal) => return Err(off_fault(name.copied(alloc)?, refusal)),
    };
    match make_piece(alloc, &raw) {
        Ok(piece) => Ok(Drawn { raw, piece }),
        Err(refusal) => Err(mesh_fault(name.copied(alloc)?, refusal)),
    }
}

/// The points and faces that a file holds, with coordinates scaled by so many decimal digits, and their piece.
#[tactic(auto, using(crate::proofs::ReadLemmas::taking))]
pub fn read_drawn<H: Shelf>(
    alloc: Global,
    digits: u32,
    shelf: &mut H,
    name: &Name,
) -> Result<Drawn, Fault>
    requires { digits ≤ MOST_DIGITS }
    ensures takes { TakesFiles (λ files. IsPieceOf files digits name.now) (name.now ∷ [])
        (λ long. long ≡ name.now) (H.told shelf.old) (H.told shelf.new) (piece_found result) }
    ensures raw { (files : Files) → Fit (H.told shelf.new) files →
        IfOk result (λ drawn. drawn.raw ≡ raw_in digits (bytes_of name.now files)) }
    ensures indexed { IfOk result (λ drawn. IsIndexed drawn.raw) }
    ensures counted { IfOk result (λ drawn. IsCounted drawn.raw) }
{
    let bytes = read_file(alloc, shelf, name)?;
    drawn_in(alloc, digits, bytes.as_slice(), name)
}

/// The piece that a file holds, with coordinates scaled by so many decimal digits.
pub fn read_piece<H: Shelf>(
    alloc: Global,
    digits: u32,
    shelf: &mut H,
    name: &Name,
) -> Result<Piece, Fault>
    requires { digits ≤ MOST_DIGITS }
    ensures { TakesFiles (λ files. IsPieceOf files digits name.now) (name.now ∷ []) (λ long. long ≡ name.now)
        (H.told shelf.old) (H.told shelf.new) result }
{
    let Drawn { piece, .. } = read_drawn(alloc, digits, shelf, name)?;
    Ok(piece)
}
