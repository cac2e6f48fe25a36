// The sides of a split.
ghost use Rattle.std.specs.Prelude.{◌≡◌, ◌<◌, ◌≤◌, ◌^◌, ◌↔◌, ℕ, IfOk, IsTrue, Some, length};
ghost use Rattle.std.specs.Ordering.{nat_cmp};
ghost use Rattle.staat_vec.specs.Lists.{Lists};
ghost use Rattle.staat_confirm.specs.Owners.{IsOwnedWithin};

use staat_vec::OutOfMemory;
use std::alloc::Global;

// whether the number of the node is one of those from `from` on, before `end`
fn is_within(owner: Option<usize>, from: usize, end: usize) -> bool
    ensures { IsTrue result ↔ ((node : ℕ) × (owner ≡ Some node) × (from ≤ node) × (node < end)) }
{
    match owner {
        Some(node) => from <= node && node < end,
        None => false,
    }
}

/// The parts of which the node is one of those from `from` on, before `end`, ascending. There are fewer than 2^32
/// parts.
pub fn parts_within(
    alloc: Global,
    owners: &[Option<usize>],
    from: usize,
    end: usize,
) -> Result<Vec<u32>, OutOfMemory>
    requires { length owners.now < 2 ^ 32 }
    ensures { IfOk result (λ members. Lists nat_cmp (IsOwnedWithin owners.now from end) members.items) }
{
    let mut members = Vec::new(alloc);
    for p in 0..owners.len() {
        if is_within(owners[p], from, end) {
            members.push(p as u32)?;
        }
    }
    Ok(members)
}
