// Whether a face bounds the piece.
ghost use Rattle.std.specs.Prelude.{All};
ghost use Rattle.staat_vec.specs.Vectors.{IsWithin};
ghost use Rattle.staat_mesh.specs.Stances.{HasStance};

use crate::plane::plane_of;
use staat_vec::{POINT, Sign, V3};

/// How a face lies to the points of its piece.
#[derive(Clone, Copy)]
pub enum Stance {
    /// Its corners have fewer than three positions, lie on one line, or do not lie in one plane.
    Bad,
    /// Points lie strictly on both sides of its plane.
    Cut,
    /// No points lie on one of the sides of its plane.
    Border,
}

/// How the face with these corners lies to the points. The time is linear in the number of corners and of points.
pub fn stance_of(points: &[V3], polygon: &[V3]) -> Stance
    requires points { All (IsWithin POINT) points.now }
    requires polygon { All (IsWithin POINT) polygon.now }
    ensures { HasStance points.now polygon.now result }
{
    let Some(plane) = plane_of(polygon) else {
        return Stance::Bad;
    };
    if !plane.has_all(polygon) {
        Stance::Bad
    } else if plane.has_any(points, Sign::Pos) && plane.has_any(points, Sign::Neg) {
        Stance::Cut
    } else {
        Stance::Border
    }
}
