// The parts that the last hold joins.
ghost use Rattle.std.specs.Prelude.{◌<◌, ◌^◌, IfOk, length};
ghost use Rattle.std.specs.Ordering.{nat_cmp};
ghost use Rattle.staat_vec.specs.Lists.{Lists};
ghost use Rattle.staat_holds.specs.Chains.{AllKeep, IsJoinedLast, IsOfOne};

use crate::hold::Hold;
use crate::names::{is_among, joined_names, own_names};
use staat_model::Part;
use staat_vec::OutOfMemory;
use std::alloc::Global;

// the parts that belong to one of the nodes, ascending
fn parts_among(alloc: Global, nodes: &[u32], names: &[u32]) -> Result<Vec<u32>, OutOfMemory>
    requires { length names.now < 2 ^ 32 }
    ensures { IfOk result (λ members. Lists nat_cmp (IsOfOne names.now nodes.now) members.items) }
{
    let mut members = Vec::new(alloc);
    for p in 0..names.len() {
        if is_among(nodes, names[p]) {
            members.push(p as u32)?;
        }
    }
    Ok(members)
}

/// The parts that the last hold joins, ascending, where all holds keep the rules. There are fewer than 2^32 parts.
///
/// They are stuck together ([`joined_parts_stick`](crate::laws::joined_parts_stick)).
pub fn joined_parts(alloc: Global, parts: &[Part], holds: &[Hold]) -> Result<Vec<u32>, OutOfMemory>
    requires few { length parts.now < 2 ^ 32 }
    requires keep { AllKeep parts.now holds.now }
    ensures { IfOk result (λ members. Lists nat_cmp (IsJoinedLast parts.now holds.now) members.items) }
{
    let mut names = own_names(alloc, parts.len() as u32)?;
    let mut members = Vec::new(alloc);
    for k in 0..holds.len() {
        let hold = &holds[k];
        let nodes = hold.nodes.as_slice();
        members = parts_among(alloc, nodes, names.as_slice())?;
        names = joined_names(alloc, nodes, names.as_slice())?;
    }
    Ok(members)
}
