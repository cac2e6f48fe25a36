// From the merged product back to the parts.
ghost use Rattle.std.specs.Prelude.{◌≡◌, ◌<◌, ◌≤◌, ◌^◌, ℕ, []};
ghost use Rattle.std.specs.Prelude.{List, All, IfOk, get_or, length, map};
ghost use Rattle.std.specs.List.Sorted.{IsStrictlySortedBy};
ghost use Rattle.std.specs.Ordering.{nat_cmp};
ghost use Rattle.staat_model.specs.declared.assembly.Part.{Part as PartValue};
ghost use Rattle.staat_model.specs.Plans.{leaf, plan_of};
ghost use Rattle.staat_holds.specs.Chains.{AllKeep, KeepsHoldRules};
ghost use Rattle.staat_holds.specs.Partials.{IsOrderedHold};
ghost use Rattle.staat_rest.specs.Turning.{HasLeavesBelow, HasOrigins, HaveLists, IsGroupOf, IsTurned};
ghost use Rattle.staat_rest.specs.Turning.{original_hold, original_nodes, original_pair};

use crate::copying::copied_holds;
use crate::merging::Origins;
use staat_holds::{Group, GroupedTree, Hold, Holds, joined_parts, ordered};
use staat_model::{Arc, Arcs, Part, Tree};
use staat_vec::{Listed, OutOfMemory};
use std::alloc::Global;

// the pair of pieces that a pair of merged parts was
fn turned_pair(origins: &[Origins], pair: Arc) -> Arc
    requires { HasOrigins origins.now pair }
    ensures { result ≡ original_pair origins.now pair }
{
    let first = origins[pair.a as usize].as_slice()[pair.i as usize];
    let second = origins[pair.b as usize].as_slice()[pair.j as usize];
    Arc {
        a: first.part,
        i: first.piece,
        b: second.part,
        j: second.piece,
    }
}

fn turned_pairs(alloc: Global, origins: &[Origins], pairs: &[Arc]) -> Result<Vec<Arc>, OutOfMemory>
    requires { All (HasOrigins origins.now) pairs.now }
    ensures { IfOk result (λ turned. turned.items ≡ map (original_pair origins.now) pairs.now) }
{
    let mut turned = Vec::new(alloc);
    for pair in pairs {
        turned.push(turned_pair(origins, *pair))?;
    }
    Ok(turned)
}

fn turned_nodes(alloc: Global, heads: &[u32], nodes: &[u32]) -> Result<Vec<u32>, OutOfMemory>
    requires { All (λ k. k < length heads.now) nodes.now }
    ensures { IfOk result (λ turned. turned.items ≡ original_nodes heads.now nodes.now) }
{
    let mut turned = Vec::new(alloc);
    for node in nodes {
        turned.push(heads[*node as usize])?;
    }
    Ok(turned)
}

/// The hold of nodes that a hold of merged parts is, in order.
pub fn turned_hold(
    alloc: Global,
    heads: &[u32],
    origins: &[Origins],
    hold: &Hold,
) -> Result<Hold, OutOfMemory>
    requires nodes { All (λ k. k < length heads.now) hold.now.nodes }
    requires pairs { All (HasOrigins origins.now) hold.now.pairs }
    ensures nodes { IfOk result (λ turned. turned.nodes ≡ original_nodes heads.now hold.now.nodes) }
    ensures ordered { IfOk result (λ turned. (parts : List PartValue) (names : List ℕ)
        → IsStrictlySortedBy nat_cmp (original_nodes heads.now hold.now.nodes)
        → KeepsHoldRules parts names (original_hold heads.now origins.now hold.now) → IsOrderedHold turned) }
    ensures keeps { IfOk result (λ turned. (parts : List PartValue) (names : List ℕ)
        → KeepsHoldRules parts names (original_hold heads.now origins.now hold.now)
        → KeepsHoldRules parts names turned) }
{
    let nodes = turned_nodes(alloc, heads, hold.nodes.as_slice())?;
    let pairs = turned_pairs(alloc, origins, hold.pairs.as_slice())?;
    let turned = ordered(Hold {
        nodes: Listed::from_vec(nodes),
        pairs: Arcs::from_vec(pairs),
    });
    Ok(turned)
}

// the group that these holds show
fn group_of(alloc: Global, parts: &[Part], holds: &[Hold]) -> Result<Group, OutOfMemory>
    requires few { length parts.now < 2 ^ 32 }
    requires some { 1 ≤ length holds.now }
    requires keep { AllKeep parts.now holds.now }
    ensures { IfOk result (IsGroupOf parts.now holds.now) }
{
    let members = joined_parts(alloc, parts, holds)?;
    let copy = copied_holds(alloc, holds)?;
    Ok(Group {
        members: Listed::from_vec(members),
        holds: copy,
    })
}

// the node of a leaf: a part by itself, or a group
fn turned_leaf(
    alloc: Global,
    parts: &[Part],
    lists: &[Holds],
    node: u32,
) -> Result<GroupedTree, OutOfMemory>
    requires few { length parts.now < 2 ^ 32 }
    requires within { node < length lists.now }
    requires keep { AllKeep parts.now (get_or lists.now node []) }
    ensures { IfOk result (λ tree. (heads : List ℕ) (k : ℕ) → node ≡ get_or heads k 0
        → IsTurned parts.now heads lists.now (leaf k) tree) }
{
    let holds = lists[node as usize].as_slice();
    if holds.is_empty() {
        return Ok(GroupedTree::Leaf(node));
    }
    let group = group_of(alloc, parts, holds)?;
    Ok(GroupedTree::Group(group))
}

/// The plan of the merged product with the nodes of its leaves.
pub fn turned_tree(
    alloc: Global,
    parts: &[Part],
    heads: &[u32],
    lists: &[Holds],
    tree: &Tree,
) -> Result<GroupedTree, OutOfMemory>
    requires few { length parts.now < 2 ^ 32 }
    requires lists { HaveLists parts.now heads.now lists.now }
    requires leaves { HasLeavesBelow (length heads.now) (plan_of tree.now) }
    ensures { IfOk result (IsTurned parts.now heads.now lists.now (plan_of tree.now)) }
{
    match tree {
        Tree::Leaf(k) => {
            let leaf = turned_leaf(alloc, parts, lists, heads[*k as usize])?;
            Ok(leaf)
        }
        Tree::Split { d, moved, rest } => {
            let moved = turned_tree(alloc, parts, heads, lists, moved)?;
            let rest = turned_tree(alloc, parts, heads, lists, rest)?;
            Ok(GroupedTree::Split {
                d: *d,
                moved: Box::new(alloc, moved)?,
                rest: Box::new(alloc, rest)?,
            })
        }
    }
}
