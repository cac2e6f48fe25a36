// The boxes of pieces.
ghost use Rattle.std.specs.Prelude.{◌≡◌, ◌≤◌, All, IfOk, length};
ghost use Rattle.std.specs.List.{AllZip};
ghost use Rattle.staat_vec.specs.Vectors.{IsWithin};
ghost use Rattle.staat_model.specs.Assemblies.{IsPart};
ghost use Rattle.staat_model.specs.Pieces.{IsPiece};
ghost use Rattle.staat_motion.specs.Motions.{AreBodies};
ghost use Rattle.staat_motion.specs.Shadows.{AreJoinedBounds, ArePartBounds, IsBounds};

use crate::spans::{Span, joined_span, span_of};
use staat_model::{Part, Piece};
use staat_vec::{Listed, OutOfMemory, POINT, V3, X_AXIS, Y_AXIS, Z_AXIS};
use std::alloc::Global;
use std::marker::Model;

/// How far points reach along each axis: their box.
#[derive(Clone, Copy)]
pub struct Bounds {
    pub x: Span,
    pub y: Span,
    pub z: Span,
}

/// The boxes of the pieces of a part.
pub type Boxes = Listed<Bounds>;

/// The boxes of the pieces of some parts, which do for all directions.
///
/// The parts are not kept. Parts, and the pieces of each, are numbered from 0 as in the list that it was made from.
#[derive(Drop)]
pub struct Bodies {
    boxes: Vec<Boxes>,
}

impl Model for Bodies {
    ghost use Rattle.std.specs.Prelude.{List};
    ghost use Rattle.staat_motion.specs.declared.bounds.Bounds.{Bounds as BoundsValue};

    ghost Value = { List (List BoundsValue) };

    ghost view = { λ b. b.boxes.items };
}

/// The points of a piece, with what is asked of them here.
pub fn points_of(piece: &Piece) -> &[V3]
    ensures points { result.now ≡ piece.now }
    ensures piece { IsPiece piece.now }
    ensures some { 1 ≤ length result.now }
    ensures within { All (IsWithin POINT) result.now }
{
    piece.points()
}

// the box of a piece
fn bounds_of(piece: &Piece) -> Bounds
    ensures { IsBounds piece.now result }
{
    let points = points_of(piece);
    Bounds {
        x: span_of(X_AXIS, points),
        y: span_of(Y_AXIS, points),
        z: span_of(Z_AXIS, points),
    }
}

/// The box of all points of which these are two boxes.
pub fn joined_bounds(a: &Bounds, b: &Bounds) -> Bounds
    ensures { AreJoinedBounds a.now b.now result }
{
    Bounds {
        x: joined_span(a.x, b.x),
        y: joined_span(a.y, b.y),
        z: joined_span(a.z, b.z),
    }
}

// the box of each piece
fn boxes_of(alloc: Global, pieces: &[Piece]) -> Result<Boxes, OutOfMemory>
    ensures { IfOk result (λ boxes. AllZip IsBounds pieces.now boxes) }
{
    let mut boxes = Vec::new(alloc);
    for piece in pieces {
        boxes.push(bounds_of(piece))?;
    }
    Ok(Boxes::from_vec(boxes))
}

// the boxes of the pieces of each part
fn part_boxes(alloc: Global, parts: &[Part]) -> Result<Vec<Boxes>, OutOfMemory>
    ensures { IfOk result (λ boxes. ArePartBounds parts.now boxes.items) }
{
    let mut all = Vec::new(alloc);
    for part in parts {
        let boxes = boxes_of(alloc, part.pieces.as_slice())?;
        all.push(boxes)?;
    }
    Ok(all)
}

impl Bodies {
    /// The boxes of the pieces of these parts, by three passes over their points. Each part has a piece.
    pub fn of(alloc: Global, parts: &[Part]) -> Result<Bodies, OutOfMemory>
        requires { All IsPart parts.now }
        ensures { IfOk result (AreBodies parts.now) }
    {
        let boxes = part_boxes(alloc, parts)?;
        Ok(Bodies { boxes })
    }

    /// The boxes of the pieces of each part.
    pub(crate) fn boxes(&self) -> &[Boxes]
        ensures { result.now ≡ self.now }
    {
        self.boxes.as_slice()
    }
}
