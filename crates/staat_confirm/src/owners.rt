// Which node each part is a member of.
ghost use Rattle.std.specs.Prelude.{◌≡◌, ◌<◌, ◌^◌, All, Contains, IfOk, IsFalse, IsTrue, MatchOption, length};
ghost use Rattle.std.specs.Prelude.{MatchResult};
ghost use Rattle.staat_confirm.specs.Members.{AreMembersOnce, IsMemberFault, IsMemberOf};
ghost use Rattle.staat_confirm.specs.Owners.{
  AreAllOwned,
  AreOwners,
  IsTakenElsewhere,
  IsUnowned,
  RefusesSome,
  TakesAll,
};
ghost use Rattle.staat_confirm.specs.Splits.{KeepsHolds};

use staat_holds::joined_parts;
use staat_model::Part;
use staat_short::ShortNode;
use staat_vec::OutOfMemory;
use std::alloc::Global;

// makes the part a member of the node, unless it does not exist or is one of another node
fn take(owners: &mut [Option<usize>], p: u32, node: usize) -> bool
    ensures taken { IsTrue result → TakesAll (λ q. q ≡ p) node owners.old owners.new }
    ensures refused { IsFalse result → IsTakenElsewhere owners.old p node }
{
    if p as usize >= owners.len() {
        return false;
    }
    match owners[p as usize] {
        Some(owner) => owner == node,
        None => {
            owners[p as usize] = Some(node);
            true
        }
    }
}

// so with each of these parts
fn take_all(owners: &mut [Option<usize>], members: &[u32], node: usize) -> bool
    ensures taken { IsTrue result → TakesAll (Contains members.now) node owners.old owners.new }
    ensures refused { IsFalse result → RefusesSome (Contains members.now) node owners.old }
{
    for p in members {
        if !take(owners, *p, node) {
            return false;
        }
    }
    true
}

// so with each member of the node
fn take_members(
    alloc: Global,
    parts: &[Part],
    owners: &mut [Option<usize>],
    node: &ShortNode,
    k: usize,
) -> Result<bool, OutOfMemory>
    requires few { length parts.now < 2 ^ 32 }
    requires keeps { KeepsHolds parts.now node.now }
    ensures taken { IfOk result (λ answer. IsTrue answer →
        TakesAll (IsMemberOf parts.now node.now) k owners.old owners.new) }
    ensures refused { IfOk result (λ answer. IsFalse answer →
        RefusesSome (IsMemberOf parts.now node.now) k owners.old) }
{
    match node {
        ShortNode::Leaf(p) => Ok(take(owners, *p, k)),
        ShortNode::Split(_) => Ok(true),
        ShortNode::Group(holds) => {
            let members = joined_parts(alloc, parts, holds.as_slice())?;
            Ok(take_all(owners, members.as_slice(), k))
        }
    }
}

// the first part that is a member of no node
fn first_unowned(owners: &[Option<usize>]) -> Option<usize>
    ensures { MatchOption result (AreAllOwned owners.now) (IsUnowned owners.now) }
{
    for p in 0..owners.len() {
        match owners[p] {
            Some(_) => {}
            None => return Some(p),
        }
    }
    None
}

// the nodes of which the parts are members, or the first node with a bad member
fn taken(
    alloc: Global,
    parts: &[Part],
    nodes: &[ShortNode],
) -> Result<Result<Vec<Option<usize>>, usize>, OutOfMemory>
    requires few { length parts.now < 2 ^ 32 }
    requires keep { All (KeepsHolds parts.now) nodes.now }
    ensures { IfOk result (λ answer. MatchResult answer
        (λ owners. AreOwners parts.now nodes.now (length nodes.now) owners.items) (IsMemberFault parts.now nodes.now)) }
{
    let mut owners = vec![in alloc; None; parts.len()]?;
    for k in 0..nodes.len() {
        if !take_members(alloc, parts, owners.as_mut_slice(), &nodes[k], k)? {
            return Ok(Err(k));
        }
    }
    Ok(Ok(owners))
}

/// For each part the number of the node of which it is a member; or the first node with a member that does not exist
/// or that an earlier node has; or, where there is none and a part is a member of no node, the number of nodes.
///
/// The holds of the groups keep the rules. There are fewer than 2^32 parts.
pub fn owners_of(
    alloc: Global,
    parts: &[Part],
    nodes: &[ShortNode],
) -> Result<Result<Vec<Option<usize>>, usize>, OutOfMemory>
    requires few { length parts.now < 2 ^ 32 }
    requires keep { All (KeepsHolds parts.now) nodes.now }
    ensures once { IfOk result (λ answer. MatchResult answer (λ owners. AreMembersOnce parts.now nodes.now)
        (IsMemberFault parts.now nodes.now)) }
    ensures owners { IfOk result (λ answer. IfOk answer (λ owners.
        AreOwners parts.now nodes.now (length nodes.now) owners.items)) }
{
    match taken(alloc, parts, nodes)? {
        Err(node) => Ok(Err(node)),
        Ok(owners) => match first_unowned(owners.as_slice()) {
            Some(_) => Ok(Err(nodes.len())),
            None => Ok(Ok(owners)),
        },
    }
}
