// The holds of groups.
ghost use Rattle.std.specs.Prelude.{◌<◌, ◌^◌, ◌↔◌, All, IfOk, IsTrue, MatchOption, length};
ghost use Rattle.std.specs.List.Sorted.{IsStrictlySortedBy};
ghost use Rattle.std.specs.Ordering.{nat_cmp};
ghost use Rattle.staat_model.specs.Assemblies.{IsPart};
ghost use Rattle.staat_short.specs.ShortTexts.{IsShortNodeInOrder, IsUngrouped};
ghost use Rattle.staat_confirm.specs.Splits.{BreaksHolds, IsBrokenGroup, KeepsHolds};

use staat_cone::FacetSource;
use staat_holds::{BrokenHold, first_broken_hold};
use staat_model::Part;
use staat_short::ShortNode;
use staat_vec::OutOfMemory;
use std::alloc::Global;

/// A group, by the number of its node, and its first hold that breaks a rule.
#[derive(Clone, Copy)]
pub struct BrokenGroup {
    pub node: usize,
    pub broken: BrokenHold,
}

// the first hold of a group that breaks a rule, with the first rule that it breaks
fn broken_hold<F: FacetSource>(
    alloc: Global,
    source: &F,
    parts: &[Part],
    node: &ShortNode,
) -> Result<Option<BrokenHold>, OutOfMemory>
    requires parts { All IsPart parts.now }
    requires few { length parts.now < 2 ^ 32 }
    requires order { IsShortNodeInOrder node.now }
    ensures { IfOk result (λ broken. MatchOption broken (KeepsHolds parts.now node.now)
        (BreaksHolds parts.now node.now)) }
{
    match node {
        ShortNode::Leaf(_) => Ok(None),
        ShortNode::Split(_) => Ok(None),
        ShortNode::Group(holds) => first_broken_hold(alloc, source, parts, holds.as_slice()),
    }
}

/// The first group of which a hold breaks a rule. There is none exactly where the holds of all groups keep the rules.
///
/// The holds of each group are in the order of the text. There are fewer than 2^32 parts.
pub fn broken_group<F: FacetSource>(
    alloc: Global,
    source: &F,
    parts: &[Part],
    nodes: &[ShortNode],
) -> Result<Option<BrokenGroup>, OutOfMemory>
    requires parts { All IsPart parts.now }
    requires few { length parts.now < 2 ^ 32 }
    requires order { All IsShortNodeInOrder nodes.now }
    ensures { IfOk result (λ group. MatchOption group (All (KeepsHolds parts.now) nodes.now)
        (λ g. IsBrokenGroup parts.now nodes.now g.node g.broken)) }
{
    for k in 0..nodes.len() {
        match broken_hold(alloc, source, parts, &nodes[k])? {
            Some(broken) => return Ok(Some(BrokenGroup { node: k, broken })),
            None => {}
        }
    }
    Ok(None)
}

// whether the node is no group
fn is_ungrouped(node: &ShortNode) -> bool
    ensures { IsTrue result ↔ IsUngrouped node.now }
{
    match node {
        ShortNode::Group(_) => false,
        _ => true,
    }
}

/// Whether none of the nodes is a group.
pub fn are_ungrouped(nodes: &[ShortNode]) -> bool
    ensures { IsTrue result ↔ All IsUngrouped nodes.now }
{
    nodes.iter().all(|node| is_ungrouped(node))
}
