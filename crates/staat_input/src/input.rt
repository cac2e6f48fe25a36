// The parts that an input names.
ghost use Rattle.std.specs.Prelude.{◌≡◌, ◌≤◌, ◌+◌, [], All, Contains, List, ℕ};
ghost use Rattle.std.specs.Prelude.{IfOk, IfErr, OnOk, is_ok, length, map, sum_by};
ghost use Rattle.staat_input.specs.Opened.{OpensInput, OpensNames, piece_files};
ghost use Rattle.staat_limits.specs.declared.limits.TheConstants.{MOST_DIGITS, MOST_PRODUCT_PARTS};
ghost use Rattle.staat_vec.specs.Vectors.{IsWithin};
ghost use Rattle.staat_model.specs.Pieces.{IsPiece};
ghost use Rattle.staat_model.specs.Assemblies.{ArePartsWithin};
ghost use Rattle.staat_words.specs.Requests.{IsAskedWithin, IsInputWithin};
ghost use Rattle.staat_edge.specs.Fitting.{Fit};
ghost use Rattle.staat_input.specs.Work.{Each, Files, Follows, IsTaken};
ghost use Rattle.staat_input.specs.Drawing.{AreSmall, SketchGrows, IsDrawnWithin, solid_of, solids_of, solids_of_part};
ghost use Rattle.staat_input.specs.Moved.{IsMovedPieceOf};
ghost use Rattle.staat_input.specs.Inputs.{alone, IsInputOfWithin, IsListingOfWithin, IsPartOf, SaysListingWithin};
ghost use Rattle.staat_input.specs.Shapes.{AreRead, IsFewWithin, ListsPiece};
ghost use Rattle.staat_input.specs.Causes.{HasCause, MayName, ShelfSide};
ghost use Rattle.staat_input.specs.Taking.{TakesStep, TakesFiles};
ghost use Rattle.staat_words.specs.declared.request.Input.TheVariants.{Manifest};

use crate::limits::Limits;
use crate::moved::read_moved;
use crate::read::read_file;
use crate::refusals::manifest_fault;
use crate::sketch::Sketch;
use staat_edge::Shelf;
use staat_fault::Fault;
use staat_manifest::{ListedPart, Listing, read_listing};
use staat_model::{Part, Parts, Piece, Pieces};
use staat_vec::{Name, Names, ORIGIN, POINT, V3};
use staat_words::{Asked, Input};
use std::alloc::{AllocError, Global};

// The part of one piece that a file is.
fn one_file(alloc: Global, name: &Name) -> Result<ListedPart, AllocError>
    ensures { IfOk result (λ part. part ≡ alone name.now) }
{
    let file = name.copied(alloc)?;
    Ok(ListedPart {
        name: name.copied(alloc)?,
        pieces: Names::from_vec(Vec::from_array(alloc, [file])?),
        at: ORIGIN,
    })
}

// The parts that files are, each of one piece.
fn parts_of_files(alloc: Global, names: &[Name]) -> Result<Listing, AllocError>
    ensures { IfOk result (λ listing. listing ≡ map alone names.now) }
{
    let mut listing = Vec::with_capacity(alloc, names.len())?;
    for name in names {
        listing.push(one_file(alloc, name)?)?;
    }
    Ok(Listing::from_vec(listing))
}

// The parts that the bytes of a file list.
#[tactic(auto, using(crate::proofs::ReadLemmas::listing_says))]
fn listing_in(alloc: Global, bytes: &[u8], name: &Name, limits: Limits) -> Result<Listing, Fault>
    ensures says { Follows (SaysListingWithin limits name.now bytes.now) result }
    ensures few { IfOk result (IsFewWithin limits) }
    ensures cause { (shelf : ShelfSide) → IfErr result (HasCause shelf) }
{
    match read_listing(alloc, bytes, limits.parts, limits.pieces) {
        Ok(listing) => Ok(listing),
        Err(refusal) => Err(manifest_fault(name.copied(alloc)?, refusal)),
    }
}

// The parts that a part list names.
#[tactic(auto, using(crate::proofs::ReadLemmas::taking))]
fn read_list<H: Shelf>(
    alloc: Global,
    shelf: &mut H,
    name: &Name,
    limits: Limits,
) -> Result<Listing, Fault>
    ensures takes { TakesStep (λ files. IsTaken files name.now (SaysListingWithin limits name.now))
        (OpensNames limits (Manifest name.now) (H.told shelf.old) (H.told shelf.new)) (MayName (Manifest name.now))
        (H.told shelf.old) (H.told shelf.new) result }
    ensures few { IfOk result (IsFewWithin limits) }
{
    let bytes = read_file(alloc, shelf, name)?;
    listing_in(alloc, bytes.as_slice(), name, limits)
}

// The names of the parts and of their pieces' files.
fn names_of<H: Shelf>(
    alloc: Global,
    shelf: &mut H,
    input: &Input,
    limits: Limits,
) -> Result<Listing, Fault>
    requires input { IsInputWithin limits.parts input.now }
    requires room { limits.parts ≤ limits.pieces }
    ensures takes { TakesStep (λ files. IsListingOfWithin limits files input.now)
        (OpensNames limits input.now (H.told shelf.old) (H.told shelf.new)) (MayName input.now)
        (H.told shelf.old) (H.told shelf.new) result }
    ensures few { IfOk result (IsFewWithin limits) }
    ensures names { IfOk result (λ listing.
        (name : List ℕ) → ListsPiece listing name → MayName input.now name) }
{
    match input {
        Input::Manifest(name) => read_list(alloc, shelf, name, limits),
        Input::Files(names) => {
            let listing = parts_of_files(alloc, names.as_slice())?;
            Ok(listing)
        }
    }
}

// A piece keeps the rules of pieces.
fn know(piece: &Piece)
    ensures { IsPiece piece.now }
{
    let _ = piece.points();
}

// The pieces of a part, in the order of their files, moved by its vector.
fn read_pieces<H: Shelf>(
    alloc: Global,
    digits: u32,
    shelf: &mut H,
    names: &[Name],
    part: u32,
    at: V3,
    sketch: &mut Sketch,
) -> Result<Pieces, Fault>
    requires digits { digits ≤ MOST_DIGITS }
    requires vector { IsWithin POINT at }
    ensures takes { TakesFiles (λ files. Each (IsMovedPieceOf files digits at) names.now) names.now
        (Contains names.now) (H.told shelf.old) (H.told shelf.new) result }
    ensures pieces { IfOk result (λ pieces. All IsPiece pieces × (length pieces ≡ length names.now)) }
    ensures grows { OnOk result (SketchGrows (λ files. map (solid_of files digits part at) names.now) (part + 1)
        (length names.now) (H.told shelf.new) sketch.old sketch.new) }
{
    let mut pieces = Vec::with_capacity(alloc, names.len())?;
    for name in names {
        let piece = read_moved(alloc, digits, shelf, name, part, at, sketch)?;
        know(&piece);
        pieces.push(piece)?;
    }
    Ok(Pieces::from_vec(pieces))
}

// A part with its pieces.
fn read_part<H: Shelf>(
    alloc: Global,
    digits: u32,
    shelf: &mut H,
    named: &ListedPart,
    part: u32,
    sketch: &mut Sketch,
) -> Result<Part, Fault>
    requires digits { digits ≤ MOST_DIGITS }
    requires vector { IsWithin POINT named.now.at }
    ensures takes { TakesFiles (λ files. IsPartOf files digits named.now) named.now.pieces
        (Contains named.now.pieces) (H.told shelf.old) (H.told shelf.new) result }
    ensures pieces { IfOk result (λ part.
        All IsPiece part.pieces × (length part.pieces ≡ length named.now.pieces)) }
    ensures grows { OnOk result (SketchGrows (λ files. solids_of_part files digits part named.now) (part + 1)
        (length named.now.pieces) (H.told shelf.new) sketch.old sketch.new) }
{
    let name = named.name.copied(alloc)?;
    let names = named.pieces.as_slice();
    let pieces = read_pieces(alloc, digits, shelf, names, part, named.at, sketch)?;
    Ok(Part { name, pieces })
}

// The parts with their pieces, in their order.
fn read_parts<H: Shelf>(
    alloc: Global,
    digits: u32,
    shelf: &mut H,
    listing: &[ListedPart],
    sketch: &mut Sketch,
) -> Result<Parts, Fault>
    requires digits { digits ≤ MOST_DIGITS }
    requires few { length listing.now ≤ MOST_PRODUCT_PARTS }
    requires placed { All (λ part. IsWithin POINT part.at) listing.now }
    ensures takes { TakesFiles (λ files. Each (IsPartOf files digits) listing.now) (piece_files listing.now)
        (ListsPiece listing.now) (H.told shelf.old) (H.told shelf.new) result }
    ensures read { IfOk result (AreRead listing.now) }
    ensures grows { OnOk result (SketchGrows (λ files. solids_of files digits listing.now) (length listing.now)
        (sum_by (λ part. length part.pieces) listing.now) (H.told shelf.new) sketch.old sketch.new) }
{
    let mut parts = Vec::with_capacity(alloc, listing.len())?;
    let mut number = 0;
    for named in listing {
        parts.push(read_part(alloc, digits, shelf, named, number, sketch)?)?;
        number += 1;
    }
    Ok(Parts::from_vec(parts))
}

/// The parts that an input names: the part list is read first, if there is one, and then each piece's file in the
/// order of the list. The first refusal is the answer; among them is that the list has more parts or pieces than these
/// limits say. The files are kept for a drawing, if there is one.
pub fn read_within<H: Shelf>(
    alloc: Global,
    shelf: &mut H,
    asked: &Asked,
    limits: Limits,
    sketch: &mut Sketch,
) -> Result<Parts, Fault>
    requires asked { IsAskedWithin limits.parts asked.now }
    requires room { limits.parts ≤ limits.pieces }
    requires most { limits.parts ≤ MOST_PRODUCT_PARTS }
    ensures takes { TakesStep (λ files. IsInputOfWithin limits files asked.now)
        (λ found. OpensInput limits (is_ok found) asked.now.input [] (H.told shelf.old) (H.told shelf.new))
        (MayName asked.now.input) (H.told shelf.old) (H.told shelf.new) result }
    ensures few { IfOk result (ArePartsWithin limits.parts limits.pieces) }
    ensures drawn { (files : Files) → Fit (H.told shelf.new) files → sketch.old.solids.items ≡ [] →
        OnOk result (IsDrawnWithin limits files asked.now sketch.old.keep sketch.new) }
    ensures small { sketch.old.solids.items ≡ [] →
        IfOk result (λ parts. AreSmall (length parts) limits.pieces sketch.new.solids.items) }
{
    let listing = names_of(alloc, shelf, &asked.input, limits)?;
    read_parts(alloc, asked.digits, shelf, listing.as_slice(), sketch)
}
