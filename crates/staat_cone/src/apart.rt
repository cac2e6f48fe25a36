// Whether two pieces overlap.
ghost use Rattle.std.specs.Prelude.{◌↔◌, All, Any, IfOk, IsTrue};
ghost use Rattle.staat_vec.specs.declared.vector.V3.{V3 as Vector};
ghost use Rattle.staat_vec.specs.Vectors.{IsWithin};
ghost use Rattle.staat_model.specs.Meeting.{Overlap};
ghost use Rattle.staat_cone.specs.AxisWalls.{IsWallBetween, axis_walls};

use crate::search::finds_wall;
use crate::source::FacetSource;
use crate::walls::separates;
use staat_model::Piece;
use staat_vec::{NORMAL, OutOfMemory, V3};
use std::alloc::Global;

// the directions of the axes, both ways
const AXES: [V3; 6] = [
    V3 { x: 1, y: 0, z: 0 },
    V3 { x: -1, y: 0, z: 0 },
    V3 { x: 0, y: 1, z: 0 },
    V3 { x: 0, y: -1, z: 0 },
    V3 { x: 0, y: 0, z: 1 },
    V3 { x: 0, y: 0, z: -1 },
];

// whether a wall with one of the normals keeps the pieces apart
fn is_apart_along(normals: &[V3], p: &Piece, q: &Piece) -> bool
    requires { All (IsWithin NORMAL) normals.now }
    ensures { IsTrue result ↔ Any (IsWallBetween p.now q.now) normals.now }
{
    for n in normals {
        if separates(*n, p, q) {
            return true;
        }
    }
    false
}

// whether a wall across one of the axes keeps the pieces apart; the time is linear in the number of points
fn is_apart_along_axis(p: &Piece, q: &Piece) -> bool
    ensures { IsTrue result ↔ Any (IsWallBetween p.now q.now) axis_walls }
{
    is_apart_along(&AXES, p, q)
}

// whether a wall that is easily found keeps the pieces apart: one across an axis, or one that a short search finds
fn is_apart(p: &Piece, q: &Piece) -> bool
    ensures wall { IsTrue result → (n : Vector) × IsWallBetween p.now q.now n }
    ensures axes { Any (IsWallBetween p.now q.now) axis_walls → IsTrue result }
{
    is_apart_along_axis(p, q) || finds_wall(p, q)
}

/// Whether the pieces overlap. The source is asked only where no wall that is easily found keeps them apart.
pub fn overlap<F: FacetSource>(
    alloc: Global,
    source: &F,
    p: &Piece,
    q: &Piece,
) -> Result<bool, OutOfMemory>
    ensures { IfOk result (λ answer. IsTrue answer ↔ Overlap p.now q.now) }
{
    // a piece's points span space, so that no wall leads through it
    let _points = p.points();
    if is_apart(p, q) {
        return Ok(false);
    }
    let facets = source.facets(alloc, p, q)?;
    Ok(facets.is_empty())
}
