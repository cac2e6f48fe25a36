// The first rule that a hold breaks, and the first hold that breaks one.
ghost use Rattle.std.specs.Prelude.{◌≡◌, ◌<◌, ◌≤◌, ◌^◌, All, IfOk, MatchOption, length};
ghost use Rattle.std.specs.List.Sorted.{IsStrictlySortedBy};
ghost use Rattle.std.specs.Ordering.{nat_cmp};
ghost use Rattle.staat_vec.specs.Lists.{FailsFirst};
ghost use Rattle.staat_model.specs.Assemblies.{IsPart};
ghost use Rattle.staat_holds.specs.Chains.{AllKeep, IsFirstBroken, IsFirstRule, IsHoldPair, IsName, KeepsHoldRules};
ghost use Rattle.staat_holds.specs.Holds.{IsCorePair};

use crate::hold::{BrokenHold, Hold, HoldRule};
use crate::judge::first_gap;
use crate::links::is_core_pair;
use crate::names::{is_name, joined_names, own_names, places_of};
use staat_cone::FacetSource;
use staat_model::{Arc, Part};
use staat_vec::OutOfMemory;
use std::alloc::Global;

// the place of the first of these that is not the name of a node
fn first_no_name(names: &[u32], nodes: &[u32]) -> Option<usize>
    ensures { MatchOption result (All (IsName names.now) nodes.now) (FailsFirst (IsName names.now) nodes.now) }
{
    for k in 0..nodes.len() {
        if !is_name(names, nodes[k]) {
            return Some(k);
        }
    }
    None
}

// the place of the first pair that is not of two pieces that exist, of parts of two of so many nodes
fn first_bad_pair(
    parts: &[Part],
    places: &[Option<u32>],
    count: u32,
    pairs: &[Arc],
) -> Option<usize>
    ensures { MatchOption result (All (IsCorePair parts.now places.now count) pairs.now)
        (FailsFirst (IsCorePair parts.now places.now count) pairs.now) }
{
    for k in 0..pairs.len() {
        if !is_core_pair(parts, places, count, pairs[k]) {
            return Some(k);
        }
    }
    None
}

// the first rule that is broken by the pairs of a hold of two nodes at least
fn broken_pairs<F: FacetSource>(
    alloc: Global,
    source: &F,
    parts: &[Part],
    names: &[u32],
    hold: &Hold,
) -> Result<Option<HoldRule>, OutOfMemory>
    requires parts { All IsPart parts.now }
    requires nodes { All (IsName names.now) hold.now.nodes }
    requires two { 2 ≤ length hold.now.nodes }
    requires few { length hold.now.nodes < 2 ^ 32 }
    ensures { IfOk result (λ rule. MatchOption rule (KeepsHoldRules parts.now names.now hold.now)
        (IsFirstRule parts.now names.now hold.now)) }
{
    let nodes = hold.nodes.as_slice();
    let pairs = hold.pairs.as_slice();
    let count = nodes.len() as u32;
    let places = places_of(alloc, nodes, names)?;
    if let Some(k) = first_bad_pair(parts, places.as_slice(), count, pairs) {
        return Ok(Some(HoldRule::BadPair(k)));
    }
    match first_gap(alloc, source, parts, places.as_slice(), count, pairs)? {
        Some(v) => Ok(Some(HoldRule::Gap(v))),
        None => Ok(None),
    }
}

// the first rule that a hold breaks
#[tactic(auto, using(crate::proofs::NodeNames::few_nodes))]
fn broken_rule<F: FacetSource>(
    alloc: Global,
    source: &F,
    parts: &[Part],
    names: &[u32],
    hold: &Hold,
) -> Result<Option<HoldRule>, OutOfMemory>
    requires parts { All IsPart parts.now }
    requires few { length names.now < 2 ^ 32 }
    requires ascending { IsStrictlySortedBy nat_cmp hold.now.nodes }
    ensures { IfOk result (λ rule. MatchOption rule (KeepsHoldRules parts.now names.now hold.now)
        (IsFirstRule parts.now names.now hold.now)) }
{
    let nodes = hold.nodes.as_slice();
    if let Some(k) = first_no_name(names, nodes) {
        return Ok(Some(HoldRule::NoNode(k)));
    }
    if nodes.len() < 2 {
        return Ok(Some(HoldRule::FewNodes));
    }
    broken_pairs(alloc, source, parts, names, hold)
}

/// The first hold that breaks a rule, and the first rule that it breaks: its nodes are nodes, and two at least; each
/// of its pairs is of two pieces that exist, of parts of two of these nodes; wherever two planes of the pairs cross,
/// each node reaches each other one by the arcs that the pairs have there. At first each part is a node by itself, and
/// what a hold has joined is one node from then on. There is none exactly where all holds keep the rules.
///
/// The nodes of each hold are ascending. There are fewer than 2^32 parts.
pub fn first_broken_hold<F: FacetSource>(
    alloc: Global,
    source: &F,
    parts: &[Part],
    holds: &[Hold],
) -> Result<Option<BrokenHold>, OutOfMemory>
    requires parts { All IsPart parts.now }
    requires few { length parts.now < 2 ^ 32 }
    requires ascending { All (λ hold. IsStrictlySortedBy nat_cmp hold.nodes) holds.now }
    ensures { IfOk result (λ broken. MatchOption broken (AllKeep parts.now holds.now)
        (IsFirstBroken parts.now holds.now)) }
{
    let mut names = own_names(alloc, parts.len() as u32)?;
    for k in 0..holds.len() {
        let hold = &holds[k];
        match broken_rule(alloc, source, parts, names.as_slice(), hold)? {
            Some(rule) => return Ok(Some(BrokenHold { hold: k, rule })),
            None => {}
        }
        names = joined_names(alloc, hold.nodes.as_slice(), names.as_slice())?;
    }
    Ok(None)
}
