// Pieces by their points.
ghost use Rattle.std.specs.Prelude.{◌≡◌, ◌↔◌, All, IfOk, IsTrue};
ghost use Rattle.std.specs.List.Sorted.{IsStrictlySortedBy};
ghost use Rattle.staat_vec.specs.Vectors.{IsWithin, vector, vector_cmp};
ghost use Rattle.staat_model.specs.Pieces.{IsPiece};
ghost use Rattle.staat_samples.specs.Hulls.{IsHullAnswer, box_corners, prism_corners};

use staat_limits::{LEAST_POINTS, MOST_POINTS};
use staat_model::{Piece, Points, is_solid};
use staat_vec::{OutOfMemory, POINT, V3, in_order};
use std::alloc::Global;

/// The vector of these components.
pub fn at(x: i128, y: i128, z: i128) -> V3
    ensures { result ≡ vector x y z }
{
    V3 { x, y, z }
}

fn is_within(v: &V3) -> bool
    ensures { IsTrue result ↔ IsWithin POINT v.now }
{
    v.x.unsigned_abs() <= POINT && v.y.unsigned_abs() <= POINT && v.z.unsigned_abs() <= POINT
}

fn are_within(points: &[V3]) -> bool
    ensures { IsTrue result ↔ All (IsWithin POINT) points.now }
{
    points.iter().all(|p| is_within(p))
}

// whether the points, which ascend, are a piece
fn are_a_piece(points: &[V3]) -> bool
    requires { IsStrictlySortedBy vector_cmp points.now }
    ensures { IsTrue result ↔ IsPiece points.now }
{
    let count = points.len();
    LEAST_POINTS as usize <= count
        && count <= MOST_POINTS as usize
        && are_within(points)
        && is_solid(points)
}

/// The hull of the points, or none where they are no piece: too few, too many, too far out or all in one plane.
///
/// A point may stand there several times. It takes no memory.
pub fn piece_of(points: Vec<V3>) -> Option<Piece>
    ensures { IsHullAnswer points.items result }
{
    let points = in_order(points);
    if !are_a_piece(points.as_slice()) {
        return None;
    }
    Some(Piece::seal(Points::from_vec(points)))
}

// the point over a corner of a base, at the height y
fn point_over(corner: (i128, i128), y: i128) -> V3
    ensures { result ≡ vector corner.0 y corner.1 }
{
    at(corner.0, y, corner.1)
}

fn prism_points(alloc: Global, base: &[(i128, i128)]) -> Result<Vec<V3>, OutOfMemory>
    ensures { IfOk result (λ points. points.items ≡ prism_corners base.now) }
{
    let mut points = Vec::new(alloc);
    for corner in base {
        points.push(point_over(*corner, 0))?;
        points.push(point_over(*corner, 4))?;
    }
    Ok(points)
}

/// The prism over a quadrilateral of (x, z), with y from 0 to 4, or none where it is no piece.
pub fn prism(alloc: Global, base: [(i128, i128); 4]) -> Result<Option<Piece>, OutOfMemory>
    ensures { IfOk result (IsHullAnswer (prism_corners base)) }
{
    let points = prism_points(alloc, base.as_slice())?;
    Ok(piece_of(points))
}

// the point with the x of the first, the y of the second and the z of the third
fn corner(x: V3, y: V3, z: V3) -> V3
    ensures { result ≡ vector x.x y.y z.z }
{
    at(x.x, y.y, z.z)
}

/// The box between two opposite corners, or none where it is no piece.
pub fn boxed(alloc: Global, low: V3, high: V3) -> Result<Option<Piece>, OutOfMemory>
    ensures { IfOk result (IsHullAnswer (box_corners low high)) }
{
    let points = vec![in alloc;
        low,
        corner(low, low, high),
        corner(low, high, low),
        corner(low, high, high),
        corner(high, low, low),
        corner(high, low, high),
        corner(high, high, low),
        high,
    ]?;
    Ok(piece_of(points))
}
