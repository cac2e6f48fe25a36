// Whether the lines have all vertices of planes, by one look at each crossing.
ghost use Rattle.std.specs.Prelude.{◌≡◌, ◌≢◌, ◌≤◌, All, IsTrue, length};
ghost use Rattle.staat_vec.specs.Vectors.{IsWithin, cross, negative, origin};
ghost use Rattle.staat_model.specs.Certificates.{IsListed};
ghost use Rattle.staat_model.specs.Planes.{crossings, vertices};
ghost use Rattle.staat_model.proofs.PlaneLemmas.{NoneParallel};

use crate::places::is_placed;
use staat_model::Dir;
use staat_pairs::{crossing, planes_from};
use staat_vec::{DIRECTION, NORMAL, Normal, V3, canon, neg};

// whether lines are found for a vector and its opposite; in version 2 one line serves both
fn are_both_placed(version: u32, places: &[u32], dirs: &[Dir], v: V3) -> bool
    requires places { 1 ≤ length places.now }
    requires size { IsWithin DIRECTION v }
    requires some { v ≢ origin }
    ensures one { IsTrue result → IsListed version dirs.now v }
    ensures opposite { IsTrue result → IsListed version dirs.now (negative v) }
{
    if version == 2 {
        is_placed(places, dirs, canon(v))
    } else {
        is_placed(places, dirs, v) && is_placed(places, dirs, neg(v))
    }
}

// whether lines are found for all crossings of the plane of g with the planes
fn are_crossings_placed(version: u32, places: &[u32], dirs: &[Dir], g: V3, hs: &[Normal]) -> bool
    requires places { 1 ≤ length places.now }
    requires plane { IsWithin NORMAL g }
    requires apart { All (λ h. cross g h ≢ origin) hs.now }
    ensures { IsTrue result → All (IsListed version dirs.now) (crossings g hs.now) }
{
    for h in hs {
        if !are_both_placed(version, places, dirs, crossing(g, h.vector())) {
            return false;
        }
    }
    true
}

/// Whether lines are found for all vertices of the planes.
pub fn are_vertices_placed(version: u32, places: &[u32], dirs: &[Dir], planes: &[Normal]) -> bool
    requires places { 1 ≤ length places.now }
    requires apart { NoneParallel planes.now }
    ensures { IsTrue result → All (IsListed version dirs.now) (vertices planes.now) }
{
    for (k, g) in planes.iter().enumerate() {
        if !are_crossings_placed(
            version,
            places,
            dirs,
            g.vector(),
            planes_from(planes, k + 1),
        ) {
            return false;
        }
    }
    true
}
