// The rule of faces: each lies in one plane, with all points on one side of it.
ghost use Rattle.std.specs.Prelude.{◌≡◌, ◌<◌, length, All, OnOk};
ghost use Rattle.staat_vec.specs.Vectors.{IsWithin};
ghost use Rattle.staat_off.specs.Raws.{IsCounted, IsIndexed};
ghost use Rattle.staat_mesh.specs.Checks.{ChecksFaces};
ghost use Rattle.staat_mesh.specs.Polygons.{mesh, polygon};

use crate::face::{Stance, stance_of};
use crate::refusal::MeshRefusal;
use staat_off::{Raw, Vertex};
use staat_vec::{POINT, V3};
use std::alloc::{AllocError, Global};

// puts the positions of a face's corners into the list, in place of what it held
fn trace(corners: &mut Vec<V3>, vertices: &[Vertex], face: &[u32]) -> Result<(), AllocError>
    requires { All (λ v. v < length vertices.now) face.now }
    ensures { OnOk result (corners.new.items ≡ polygon vertices.now face.now) }
{
    corners.clear();
    for vertex in face {
        corners.push(vertices[*vertex as usize].point())?;
    }
    Ok(())
}

/// Whether all faces border the piece with these points, or the first that does not.
///
/// The time is linear in the number of corners, and in the number of faces times that of points.
pub fn check_faces(alloc: Global, raw: &Raw, points: &[V3]) -> Result<(), MeshRefusal>
    requires indexed { IsIndexed raw.now }
    requires counted { IsCounted raw.now }
    requires points { All (IsWithin POINT) points.now }
    ensures { ChecksFaces (mesh raw.now) points.now result }
{
    let vertices = raw.points.as_slice();
    let mut corners = Vec::new(alloc);
    for (number, face) in raw.faces.as_slice().iter().enumerate() {
        trace(&mut corners, vertices, face.as_slice())?;
        match stance_of(points, corners.as_slice()) {
            Stance::Bad => return Err(MeshRefusal::BadFace(number as u32)),
            Stance::Cut => return Err(MeshRefusal::NotConvex(number as u32)),
            Stance::Border => {}
        }
    }
    Ok(())
}
