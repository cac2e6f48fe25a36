// The plane of a face, and the sides of points on it.
ghost use Rattle.std.specs.Prelude.{◌≡◌, ◌≢◌, ◌↔◌, All, Any, IfSome, IsTrue, MatchBool, MatchOption};
ghost use Rattle.staat_vec.specs.Vectors.{IsWithin};
ghost use Rattle.staat_vec.specs.declared.vector.Sign.TheVariants.{Zero};
ghost use Rattle.staat_mesh.specs.Planes.{IsSpanned, side_of};
ghost use Rattle.staat_mesh.specs.Sides.{OnLine};

use staat_model::{normal_off_line, other_than};
use staat_vec::{NORMAL, POINT, Sign, V3, small_sign, sub};

/// A plane, by a point on it and a normal.
#[derive(Clone, Copy)]
pub struct Plane {
    /// A point on the plane.
    pub through: V3,
    /// A vector square to the plane, other than zero.
    pub normal: V3,
}

/// The plane of the first point, the first other one and the first off their line, unless all lie on one line.
pub fn plane_of(points: &[V3]) -> Option<Plane>
    requires { All (IsWithin POINT) points.now }
    ensures plane { MatchOption result (OnLine points.now) (IsSpanned points.now) }
    ensures through { IfSome result (λ plane. IsWithin POINT plane.through) }
    ensures size { IfSome result (λ plane. IsWithin NORMAL plane.normal) }
{
    let first = points.first()?;
    let through = *first;
    let second = other_than(points, through)?;
    let normal = normal_off_line(points, through, sub(second, through))?;
    Some(Plane { through, normal })
}

impl Plane {
    // whether p lies on that side
    fn has(self, p: V3, side: Sign) -> bool
        requires through { IsWithin POINT self.through }
        requires normal { IsWithin NORMAL self.normal }
        requires p { IsWithin POINT p }
        ensures { IsTrue result ↔ (side_of self p ≡ side) }
    {
        small_sign(self.normal, sub(p, self.through)) == side
    }

    /// Whether one of the points lies on that side.
    pub fn has_any(self, points: &[V3], side: Sign) -> bool
        requires through { IsWithin POINT self.through }
        requires normal { IsWithin NORMAL self.normal }
        requires points { All (IsWithin POINT) points.now }
        ensures { MatchBool result (Any (λ p. side_of self p ≡ side) points.now) (All
            (λ p. side_of self p ≢ side) points.now) }
    {
        for p in points {
            if self.has(*p, side) {
                return true;
            }
        }
        false
    }

    /// Whether all points lie on the plane.
    pub fn has_all(self, points: &[V3]) -> bool
        requires through { IsWithin POINT self.through }
        requires normal { IsWithin NORMAL self.normal }
        requires points { All (IsWithin POINT) points.now }
        ensures { MatchBool result (All (λ p. side_of self p ≡ Zero) points.now) (Any
            (λ p. side_of self p ≢ Zero) points.now) }
    {
        for p in points {
            if !self.has(*p, Sign::Zero) {
                return false;
            }
        }
        true
    }
}
