// Parts and assemblies of pieces.
ghost use Rattle.std.specs.Prelude.{◌≡◌, ◌≤◌, ◌↔◌, [], All, IfOk, IsTrue, MatchOption};
ghost use Rattle.std.specs.Prelude.{length, map, sum_by};
ghost use Rattle.staat_model.specs.Assemblies.{IsAssembly, IsPart};
ghost use Rattle.staat_model.specs.Pieces.{IsPiece};
ghost use Rattle.staat_samples.specs.Hulls.{IsUnionAnswer, box_corners, prism_corners};

use crate::pieces::{boxed, prism};
use staat_limits::{MOST_PARTS, MOST_PIECES};
use staat_model::{Assembly, Part, Parts, Piece, Pieces};
use staat_vec::{Name, OutOfMemory, V3};
use std::alloc::Global;

/// The part of these pieces, without a name.
pub fn part_of(alloc: Global, pieces: Vec<Piece>) -> Part
    ensures name { result.name ≡ [] }
    ensures pieces { result.pieces ≡ pieces.items }
{
    Part {
        name: Name::from_string(String::new(alloc)),
        pieces: Pieces::from_vec(pieces),
    }
}

/// The part of the boxes between these corners, in their order, or none where one of them is no piece.
pub fn boxes(alloc: Global, corners: &[(V3, V3)]) -> Result<Option<Part>, OutOfMemory>
    ensures { IfOk result (IsUnionAnswer (map (λ c. box_corners c.0 c.1) corners.now)) }
{
    let mut pieces = Vec::new(alloc);
    for corner in corners {
        let Some(piece) = boxed(alloc, corner.0, corner.1)? else {
            return Ok(None);
        };
        pieces.push(piece)?;
    }
    Ok(Some(part_of(alloc, pieces)))
}

/// The part of the prisms over these quadrilaterals of (x, z), with y from 0 to 4, in their order, or none where one
/// of them is no piece.
pub fn prisms(alloc: Global, bases: &[[(i128, i128); 4]]) -> Result<Option<Part>, OutOfMemory>
    ensures { IfOk result (IsUnionAnswer (map prism_corners bases.now)) }
{
    let mut pieces = Vec::new(alloc);
    for base in bases {
        let Some(piece) = prism(alloc, *base)? else {
            return Ok(None);
        };
        pieces.push(piece)?;
    }
    Ok(Some(part_of(alloc, pieces)))
}

// each piece keeps its rules
fn is_piece(piece: &Piece) -> bool
    ensures { IsTrue result ↔ IsPiece piece.now }
{
    let _points = piece.points();
    true
}

fn are_pieces(pieces: &[Piece]) -> bool
    ensures { IsTrue result ↔ All IsPiece pieces.now }
{
    pieces.iter().all(|piece| is_piece(piece))
}

fn is_part(part: &Part) -> bool
    ensures { IsTrue result ↔ IsPart part.now }
{
    let pieces = part.pieces.as_slice();
    pieces.len() >= 1 && are_pieces(pieces)
}

fn are_parts(parts: &[Part]) -> bool
    ensures { IsTrue result ↔ All IsPart parts.now }
{
    parts.iter().all(|part| is_part(part))
}

fn have_few_pieces(parts: &[Part]) -> bool
    ensures { IsTrue result ↔ (sum_by (λ part. length part.pieces) parts.now ≤ MOST_PIECES) }
{
    let mut left = MOST_PIECES as usize;
    for part in parts {
        let count = part.pieces.as_slice().len();
        if left < count {
            return false;
        }
        left -= count;
    }
    true
}

/// The assembly of these parts, or none where they are no assembly: no parts or too many, too many pieces, or a part
/// without a piece. It takes no memory.
pub fn assembly_of(parts: Vec<Part>) -> Option<Assembly>
    ensures { MatchOption result (¬ IsAssembly parts.items) (λ a. (a ≡ parts.items) × IsAssembly a) }
{
    let count = parts.as_slice().len();
    if count < 1 || count > MOST_PARTS as usize {
        return None;
    }
    if !are_parts(parts.as_slice()) || !have_few_pieces(parts.as_slice()) {
        return None;
    }
    Some(Assembly::seal(Parts::from_vec(parts)))
}
