// Where two planes cross, for walks over all pairs of planes.
ghost use Rattle.std.specs.Prelude.{◌≡◌, ◌≢◌, ◌≤◌, drop, length};
ghost use Rattle.staat_vec.specs.Primitives.{primitive};
ghost use Rattle.staat_vec.specs.Vectors.{IsWithin, cross, origin};

use staat_vec::{DIRECTION, NORMAL, Normal, V3, VERTEX, cross_normal, primitive};

/// One of the two primitive vectors along which the planes of the normals `g` and `h` cross; the other is its
/// opposite.
///
/// The normals are not parallel, and their components are at most [`NORMAL`] in absolute value. Those of the crossing
/// are at most [`VERTEX`](staat_vec::VERTEX), so it is a direction.
pub fn crossing(g: V3, h: V3) -> V3
    requires g { IsWithin NORMAL g }
    requires h { IsWithin NORMAL h }
    requires apart { cross g h ≢ origin }
    ensures value { result ≡ primitive (cross g h) }
    ensures some { result ≢ origin }
    ensures size { IsWithin VERTEX result }
    ensures direction { IsWithin DIRECTION result }
{
    primitive(cross_normal(g, h))
}

/// The planes from the place `k` on. `k` is at most their number.
pub fn planes_from(planes: &[Normal], k: usize) -> &[Normal]
    requires { k ≤ length planes.now }
    ensures { result.now ≡ drop k planes.now }
{
    &planes[k..]
}
