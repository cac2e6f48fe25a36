// The sets of parts that have the same label.
ghost use Rattle.std.specs.Prelude.{◌≡◌, IfOk, length};
ghost use Rattle.std.specs.List.Sorted.{IsStrictlySortedBy};
ghost use Rattle.std.specs.Ordering.{nat_cmp};
ghost use Rattle.staat_vec.specs.Lists.{Lists};
ghost use Rattle.staat_decide.specs.Labels.{AreClasses, HasLabel};

use staat_vec::{Listed, OutOfMemory};
use std::alloc::Global;

/// Part numbers, ascending.
pub type PartList = Listed<u32>;

/// Sets of parts, in an order.
pub type Sets = Listed<PartList>;

// the parts of w that have the label k
fn labelled(alloc: Global, w: &[u32], labels: &[u32], k: u32) -> Result<Vec<u32>, OutOfMemory>
    requires ascending { IsStrictlySortedBy nat_cmp w.now }
    requires labels { length labels.now ≡ length w.now }
    ensures { IfOk result (λ s. Lists nat_cmp (HasLabel w.now labels.now (length w.now) k) s.items) }
{
    let mut s = Vec::new(alloc);
    for i in 0..w.len() {
        if labels[i] == k {
            s.push(w[i])?;
        }
    }
    Ok(s)
}

/// For each label below the count, ascending, the parts of `w` that have it, where there are some.
pub fn classes(
    alloc: Global,
    w: &[u32],
    labels: &[u32],
    count: u32,
) -> Result<Vec<PartList>, OutOfMemory>
    requires ascending { IsStrictlySortedBy nat_cmp w.now }
    requires labels { length labels.now ≡ length w.now }
    ensures { IfOk result (λ sets. AreClasses w.now labels.now count sets.items) }
{
    let mut sets = Vec::new(alloc);
    for k in 0..count {
        let s = labelled(alloc, w, labels, k)?;
        if s.len() > 0 {
            sets.push(PartList::from_vec(s))?;
        }
    }
    Ok(sets)
}
