// The search for the first vertex of planes that no line has.
ghost use Rattle.std.specs.Prelude.{◌≡◌, ◌≢◌, ◌⊎◌, ◌≤◌, ◌↔◌};
ghost use Rattle.std.specs.Prelude.{All, Contains, IsTrue, MatchOption, drop, length};
ghost use Rattle.std.specs.List.Sorted.{IsStrictlySortedBy};
ghost use Rattle.staat_vec.specs.Primitives.{primitive};
ghost use Rattle.staat_vec.specs.Vectors.{IsWithin, cross, negative, origin, vector_cmp};
ghost use Rattle.staat_model.specs.Planes.{crossings, vertices};
ghost use Rattle.staat_model.proofs.PlaneLemmas.{NoneParallel};
ghost use Rattle.staat_check.specs.Known.{IsKnown, IsUnknownOfBoth};
ghost use Rattle.staat_check.specs.Searches.{TellsFirst};

use staat_pairs::{crossing, planes_from};
use staat_vec::{DIRECTION, NORMAL, Normal, V3, canon, neg};

// whether the vector is among the ascending ones, by halving
fn is_listed(listed: &[V3], v: V3) -> bool
    requires { IsStrictlySortedBy vector_cmp listed.now }
    ensures { IsTrue result ↔ Contains listed.now v }
{
    match listed.binary_search(&v) {
        Ok(_) => true,
        Err(_) => false,
    }
}

// whether the vector or its opposite is listed
fn is_either_listed(listed: &[V3], v: V3) -> bool
    requires ascending { IsStrictlySortedBy vector_cmp listed.now }
    requires size { IsWithin DIRECTION v }
    ensures { IsTrue result ↔ (Contains listed.now v ⊎ Contains listed.now (negative v)) }
{
    is_listed(listed, v) || is_listed(listed, neg(v))
}

// whether the vector is listed or, in version 2, its opposite; of the two the canonical one is sought first
fn is_known(version: u32, listed: &[V3], v: V3) -> bool
    requires ascending { IsStrictlySortedBy vector_cmp listed.now }
    requires size { IsWithin DIRECTION v }
    requires some { v ≢ origin }
    ensures { IsTrue result ↔ IsKnown version listed.now v }
{
    if version == 2 {
        is_either_listed(listed, canon(v))
    } else {
        is_listed(listed, v)
    }
}

// the first of a vector and its opposite that is not known
fn unknown_of_both(version: u32, listed: &[V3], v: V3) -> Option<V3>
    requires ascending { IsStrictlySortedBy vector_cmp listed.now }
    requires size { IsWithin DIRECTION v }
    requires some { v ≢ origin }
    ensures { IsUnknownOfBoth version listed.now v result }
{
    if !is_known(version, listed, v) {
        return Some(v);
    }
    if version == 2 {
        // its opposite is known by the same line
        return None;
    }
    let opposite = neg(v);
    if !is_known(version, listed, opposite) {
        return Some(opposite);
    }
    None
}

// the first crossing of the plane of g with one of the planes that is not known
fn unknown_crossing(version: u32, listed: &[V3], g: V3, hs: &[Normal]) -> Option<V3>
    requires ascending { IsStrictlySortedBy vector_cmp listed.now }
    requires g { IsWithin NORMAL g }
    requires apart { All (λ h. cross g h ≢ origin) hs.now }
    ensures { TellsFirst (IsKnown version listed.now) (crossings g hs.now) result }
{
    for h in hs {
        match unknown_of_both(version, listed, crossing(g, h.vector())) {
            Some(v) => return Some(v),
            None => {}
        }
    }
    None
}

/// The first vertex of the planes in pair order that is not among the ascending directions or, in version 2, whose
/// opposite is not among them either.
///
/// Each two planes are crossed once, and each crossing is sought by halving.
pub fn first_unknown(version: u32, listed: &[V3], planes: &[Normal]) -> Option<V3>
    requires ascending { IsStrictlySortedBy vector_cmp listed.now }
    requires apart { NoneParallel planes.now }
    ensures { TellsFirst (IsKnown version listed.now) (vertices planes.now) result }
{
    for (k, g) in planes.iter().enumerate() {
        match unknown_crossing(version, listed, g.vector(), planes_from(planes, k + 1)) {
            Some(v) => return Some(v),
            None => {}
        }
    }
    None
}
