// The directions of a refusal: the vertices of the planes or, in version 2, one of each two opposite.
ghost use Rattle.std.specs.Prelude.{
  ◌≡◌,
  ◌≢◌,
  [],
  ◌∷◌,
  ◌≤◌,
  All,
  Contains,
  IfOk,
  MatchOption,
  OnOk,
  Some,
  drop,
  length,
};
ghost use Rattle.std.specs.Prelude.{slice_get};
ghost use Rattle.std.specs.List.Sorted.{IsStrictlySortedBy};
ghost use Rattle.staat_vec.specs.Lists.{Lists};
ghost use Rattle.staat_vec.specs.Primitives.{primitive};
ghost use Rattle.staat_vec.specs.Vectors.{IsWithin, cross, negative, origin, vector_cmp};
ghost use Rattle.staat_model.specs.Certify.{IsDirection};
ghost use Rattle.staat_model.specs.Planes.{crossings};
ghost use Rattle.staat_model.proofs.PlaneLemmas.{NoneParallel};
ghost use Rattle.staat_pairs.specs.Directions.{AddsListed};

use crate::crossings::{crossing, planes_from};
use staat_vec::{DIRECTION, NORMAL, Normal, OutOfMemory, V3, canon, in_order, neg};
use std::alloc::Global;

// adds two opposite vectors or, in version 2, the one that stands for both
fn push_both(taken: &mut Vec<V3>, version: u32, v: V3) -> Result<(), OutOfMemory>
    requires size { IsWithin DIRECTION v }
    requires some { v ≢ origin }
    ensures { OnOk result (AddsListed version (v ∷ negative v ∷ []) taken.old.items taken.new.items) }
{
    if version == 2 {
        taken.push(canon(v))?;
    } else {
        taken.push(v)?;
        taken.push(neg(v))?;
    }
    Ok(())
}

// adds the crossings of the plane of g with each of the planes
fn push_crossings(
    taken: &mut Vec<V3>,
    version: u32,
    g: V3,
    hs: &[Normal],
) -> Result<(), OutOfMemory>
    requires g { IsWithin NORMAL g }
    requires apart { All (λ h. cross g h ≢ origin) hs.now }
    ensures { OnOk result (AddsListed version (crossings g hs.now) taken.old.items taken.new.items) }
{
    for h in hs {
        push_both(taken, version, crossing(g, h.vector()))?;
    }
    Ok(())
}

/// The directions that a refusal of this version lists, ascending and each once: the vertices of the planes or, in
/// version 2, those whose first component other than 0 is positive.
///
/// No two planes are parallel.
pub fn directions(alloc: Global, version: u32, planes: &[Normal]) -> Result<Vec<V3>, OutOfMemory>
    requires { NoneParallel planes.now }
    ensures { IfOk result (λ ds. Lists vector_cmp (IsDirection version planes.now) ds.items) }
{
    let mut taken = Vec::new(alloc);
    for (k, g) in planes.iter().enumerate() {
        push_crossings(&mut taken, version, g.vector(), planes_from(planes, k + 1))?;
    }
    Ok(in_order(taken))
}

/// The place of a normal in an ascending list, if it is there, by halving.
pub fn place_among(listed: &[Normal], n: Normal) -> Option<usize>
    requires { IsStrictlySortedBy vector_cmp listed.now }
    ensures { MatchOption result (Contains listed.now n → ⊥) (λ k. slice_get listed.now k ≡ Some n) }
{
    match listed.binary_search(&n) {
        Ok(k) => Some(k),
        Err(_) => None,
    }
}
