// Whether points span space.
ghost use Rattle.std.specs.Prelude.{◌≡◌, ◌≢◌, ◌↔◌, pos, All, Any, Contains, IfSome, IsTrue};
ghost use Rattle.std.specs.Prelude.{MatchOption};
ghost use Rattle.staat_vec.specs.Vectors.{IsWithin, cross, dot, minus, origin};
ghost use Rattle.staat_model.specs.Pieces.{IsSolid};

use staat_vec::{DIFF, NORMAL, ORIGIN, POINT, V3, cross_diff, is_same, small_dot, sub};

/// The first of the points that is not `a`.
pub fn other_than(points: &[V3], a: V3) -> Option<V3>
    ensures { MatchOption result (All (λ p. p ≡ a) points.now) (λ b. Contains points.now b × (b ≢ a)) }
{
    for p in points {
        if !is_same(*p, a) {
            return Some(*p);
        }
    }
    None
}

// the normal of the plane through a, along a difference and through p: zero where p lies on their line
fn normal_of(a: V3, along: V3, p: V3) -> V3
    requires a { IsWithin POINT a }
    requires along { IsWithin DIFF along }
    requires p { IsWithin POINT p }
    ensures value { result ≡ cross along (minus p a) }
    ensures size { IsWithin NORMAL result }
{
    cross_diff(along, sub(p, a))
}

/// A normal of the plane through `a`, along a difference and through the first of the points off their line.
///
/// The components of the points and of `a` are at most [`POINT`] in absolute value, those of `along` at most
/// [`DIFF`], and those of the result at most [`NORMAL`].
pub fn normal_off_line(points: &[V3], a: V3, along: V3) -> Option<V3>
    requires points { All (IsWithin POINT) points.now }
    requires a { IsWithin POINT a }
    requires along { IsWithin DIFF along }
    ensures line { MatchOption result (All (λ p. cross along (minus p a) ≡ origin) points.now)
        (λ n. (n ≢ origin) × Any (λ c. n ≡ cross along (minus c a)) points.now) }
    ensures size { IfSome result (IsWithin NORMAL) }
{
    for p in points {
        let n = normal_of(a, along, *p);
        if !is_same(n, ORIGIN) {
            return Some(n);
        }
    }
    None
}

// whether p lies on the plane through a with the normal n
fn is_on_plane(a: V3, n: V3, p: V3) -> bool
    requires a { IsWithin POINT a }
    requires n { IsWithin NORMAL n }
    requires p { IsWithin POINT p }
    ensures { IsTrue result ↔ (dot n (minus p a) ≡ pos 0) }
{
    small_dot(n, sub(p, a)) == 0
}

// the first point off the plane through a with the normal n
fn off_plane(points: &[V3], a: V3, n: V3) -> Option<V3>
    requires points { All (IsWithin POINT) points.now }
    requires a { IsWithin POINT a }
    requires n { IsWithin NORMAL n }
    ensures { MatchOption result (All (λ p. dot n (minus p a) ≡ pos 0) points.now)
        (λ e. Contains points.now e × (dot n (minus e a) ≢ pos 0)) }
{
    for p in points {
        if !is_on_plane(a, n, *p) {
            return Some(*p);
        }
    }
    None
}

/// Whether four of the points do not lie in one plane.
///
/// The components of the points are at most [`POINT`] in absolute value. The time is linear in their number: where
/// any four of them span space, four of them that begin with the first point do.
pub fn is_solid(points: &[V3]) -> bool
    requires { All (IsWithin POINT) points.now }
    ensures { IsTrue result ↔ IsSolid points.now }
{
    let Some(first) = points.first() else {
        return false;
    };
    let a = *first;
    let Some(b) = other_than(points, a) else {
        return false;
    };
    let along = sub(b, a);
    let Some(n) = normal_off_line(points, a, along) else {
        return false;
    };
    off_plane(points, a, n).is_some()
}
