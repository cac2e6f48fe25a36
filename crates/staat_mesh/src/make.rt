// From a mesh to a piece.
ghost use Rattle.std.specs.Prelude.{◌≤◌, length, All};
ghost use Rattle.staat_vec.specs.Vectors.{IsWithin};
ghost use Rattle.staat_off.specs.Raws.{IsCounted, IsIndexed};
ghost use Rattle.staat_mesh.specs.Checks.{ChecksPoints};
ghost use Rattle.staat_mesh.specs.Judging.{AnswersMesh};
ghost use Rattle.staat_mesh.specs.Polygons.{mesh};

use crate::edges::check_edges;
use crate::faces::check_faces;
use crate::refusal::MeshRefusal;
use crate::used::used_points;
use staat_limits::{LEAST_POINTS, MOST_COUNT, MOST_POINTS};
use staat_model::{Piece, Points, is_solid};
use staat_off::Raw;
use staat_vec::{POINT, V3};
use std::alloc::Global;

// whether a piece may have these points: neither too few nor too many, and not all in one plane
fn check_points(points: &[V3]) -> Result<(), MeshRefusal>
    requires number { length points.now ≤ MOST_COUNT }
    requires within { All (IsWithin POINT) points.now }
    ensures { ChecksPoints points.now result }
{
    let found = points.len() as u32;
    if found < LEAST_POINTS {
        Err(MeshRefusal::TooFewPoints(found))
    } else if found > MOST_POINTS {
        Err(MeshRefusal::TooManyPoints(found))
    } else if !is_solid(points) {
        Err(MeshRefusal::Flat)
    } else {
        Ok(())
    }
}

/// The piece whose boundary the mesh is: the convex hull of the positions that its faces use.
///
/// Vertices at one position are one point, and vertices that no face uses are ignored. The winding of faces is free.
/// Otherwise the answer is the first rule that fails, in the order of [`MeshRefusal`]; the rule of faces goes face by
/// face, so that a face that cuts the points comes before a later bad face. The raw mesh is as
/// [`read_off`](staat_off::read_off) gives it.
///
/// The time is n log n in the number of vertices, and linear in the number of corners and of faces.
pub fn make_piece(alloc: Global, raw: &Raw) -> Result<Piece, MeshRefusal>
    requires indexed { IsIndexed raw.now }
    requires counted { IsCounted raw.now }
    ensures { AnswersMesh (mesh raw.now) result }
{
    let points = used_points(alloc, raw)?;
    check_points(points.as_slice())?;
    check_faces(alloc, raw, points.as_slice())?;
    check_edges(alloc, raw, points.as_slice())?;
    Ok(Piece::seal(Points::from_vec(points)))
}
