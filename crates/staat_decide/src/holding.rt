// Whether pairs of pieces hold a set of parts together.
ghost use Rattle.std.specs.Prelude.{◌≡◌, ◌<◌, ◌≤◌, ◌^◌, ◌↔◌, All, IfOk, IsTrue, length};
ghost use Rattle.std.specs.List.Sorted.{IsStrictlySortedBy};
ghost use Rattle.std.specs.Ordering.{nat_cmp};
ghost use Rattle.staat_model.specs.Assemblies.{IsPart};
ghost use Rattle.staat_holds.specs.Chains.{own_names, places_of};
ghost use Rattle.staat_holds.specs.Holds.{IsCorePair};
ghost use Rattle.staat_decide.specs.Decided.{IsStuckHold};

use crate::order::all_below;
use crate::sets::PartList;
use staat_cone::FacetSource;
use staat_holds::{Hold, is_core_pair, judge_hold, own_names, places_of};
use staat_model::{Arc, Part};
use staat_vec::OutOfMemory;
use std::alloc::Global;

/// For each of so many parts its place in the list, or none.
pub fn places_in(alloc: Global, w: &[u32], count: u32) -> Result<Vec<Option<u32>>, OutOfMemory>
    requires { length w.now < 2 ^ 32 }
    ensures { IfOk result (λ places. places.items ≡ places_of w.now (own_names count)) }
{
    let names = own_names(alloc, count)?;
    places_of(alloc, w, names.as_slice())
}

// whether all pairs are of pieces of different nodes
fn are_core_pairs(parts: &[Part], nodes: &[Option<u32>], count: u32, pairs: &[Arc]) -> bool
    ensures { IsTrue result ↔ All (IsCorePair parts.now nodes.now count) pairs.now }
{
    for pair in pairs {
        if !is_core_pair(parts, nodes, count, *pair) {
            return false;
        }
    }
    true
}

/// A list like this one.
pub fn copied(alloc: Global, w: &[u32]) -> Result<PartList, OutOfMemory>
    ensures { IfOk result (λ copy. copy ≡ w.now) }
{
    let mut copy = Vec::new(alloc);
    copy.extend_from_slice(w)?;
    Ok(PartList::from_vec(copy))
}

// whether the numbers ascend
fn is_ascending(w: &[u32]) -> bool
    ensures { IsTrue result ↔ IsStrictlySortedBy nat_cmp w.now }
{
    for k in 1..w.len() {
        if w[k - 1] >= w[k] {
            return false;
        }
    }
    true
}

// whether these are at least two numbers below the count, ascending, and no more than the count
fn is_part_set(w: &[u32], count: u32) -> bool
    ensures ascending { IsTrue result → IsStrictlySortedBy nat_cmp w.now }
    ensures below { IsTrue result → All (λ p. p < count) w.now }
    ensures two { IsTrue result → 2 ≤ length w.now }
    ensures few { IsTrue result → length w.now ≤ count }
{
    w.len() >= 2 && w.len() <= count as usize && all_below(w, count) && is_ascending(w)
}

/// Whether the pairs are of pieces of the parts, and hold these together.
pub fn are_held<F: FacetSource>(
    alloc: Global,
    source: &F,
    parts: &[Part],
    hold: &Hold,
) -> Result<bool, OutOfMemory>
    requires parts { All IsPart parts.now }
    requires count { length parts.now < 2 ^ 32 }
    ensures { IfOk result (λ answer. IsTrue answer → IsStuckHold parts.now hold.now) }
{
    let w = hold.nodes.as_slice();
    let pairs = hold.pairs.as_slice();
    if !is_part_set(w, parts.len() as u32) {
        return Ok(false);
    }
    let places = places_in(alloc, w, parts.len() as u32)?;
    let count = w.len() as u32;
    if !are_core_pairs(parts, places.as_slice(), count, pairs) {
        return Ok(false);
    }
    let is_held = judge_hold(alloc, source, parts, places.as_slice(), count, pairs)?;
    Ok(is_held)
}
