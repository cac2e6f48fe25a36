// Joining nodes: their names, and the holds that show them.
ghost use Rattle.std.specs.Prelude.{◌≡◌, ◌<◌, ◌≤◌, [], ℕ};
ghost use Rattle.std.specs.Prelude.{List, All, Contains, IfOk, OnOk, get_or, length, map};
ghost use Rattle.std.specs.List.Sorted.{IsStrictlySortedBy};
ghost use Rattle.std.specs.Ordering.{nat_cmp};
ghost use Rattle.staat_model.specs.declared.assembly.Part.{Part as PartValue};
ghost use Rattle.staat_holds.specs.Chains.{joined_name};
ghost use Rattle.staat_rest.specs.Nodes.{AreJoined, AreShown, holds_of};

use staat_holds::{Hold, Holds, joined_names, own_names};
use staat_vec::OutOfMemory;
use std::alloc::Global;
use std::mem;

// no holds, for each of so many parts
fn no_holds(alloc: Global, count: usize) -> Result<Vec<Holds>, OutOfMemory>
    ensures many { IfOk result (λ lists. length lists.items ≡ count) }
    ensures none { IfOk result (λ lists. (n : ℕ) → get_or lists.items n [] ≡ []) }
{
    let mut lists = Vec::new(alloc);
    'each: while lists.len() < count {
        lists.push(Holds::from_vec(Vec::new(alloc)))?;
    }
    Ok(lists)
}

// takes the holds of these nodes from the lists, one list after the other. The nodes ascend.
fn take_holds(
    alloc: Global,
    lists: &mut Vec<Holds>,
    nodes: &[u32],
) -> Result<Vec<Hold>, OutOfMemory>
    requires ascending { IsStrictlySortedBy nat_cmp nodes.now }
    requires within { All (λ n. n < length lists.old.items) nodes.now }
    ensures taken { IfOk result (λ joined. joined.items ≡ holds_of lists.old.items nodes.now) }
    ensures many { OnOk result (length lists.new.items ≡ length lists.old.items) }
    ensures others { OnOk result ((n : ℕ) → (Contains nodes.now n → ⊥)
        → get_or lists.new.items n [] ≡ get_or lists.old.items n []) }
{
    let mut joined = Vec::new(alloc);
    for node in nodes {
        let none = Holds::from_vec(Vec::new(alloc));
        let mut holds = mem::replace(&mut lists[*node as usize], none).into_vec();
        joined.append(&mut holds)?;
    }
    Ok(joined)
}

// joins the lists of the hold's nodes, and the hold, at the place of the first node. The nodes ascend.
fn join_holds(alloc: Global, lists: &mut Vec<Holds>, hold: Hold) -> Result<(), OutOfMemory>
    requires ascending { IsStrictlySortedBy nat_cmp hold.nodes }
    requires some { 1 ≤ length hold.nodes }
    requires within { All (λ n. n < length lists.old.items) hold.nodes }
    ensures { OnOk result (AreJoined lists.old.items hold lists.new.items) }
{
    let first = hold.nodes.as_slice()[0] as usize;
    let mut joined = take_holds(alloc, lists, hold.nodes.as_slice())?;
    joined.push(hold)?;
    lists[first] = Holds::from_vec(joined);
    Ok(())
}

/// The nodes that there are: the name of each part's node, and at the place of a name the holds that show that node.
#[derive(Drop)]
pub struct Groups {
    pub names: Vec<u32>,
    pub lists: Vec<Holds>,
}

impl Groups {
    /// Of so many parts, each is a node by itself.
    pub fn apart(alloc: Global, count: u32) -> Result<Groups, OutOfMemory>
        ensures { IfOk result (λ groups. (parts : List PartValue) → length parts ≡ count
            → AreShown parts groups.names.items groups.lists.items) }
    {
        let names = own_names(alloc, count)?;
        let lists = no_holds(alloc, count as usize)?;
        Ok(Groups { names, lists })
    }

    /// The nodes of the hold are one from then on. They ascend.
    pub fn join(&mut self, alloc: Global, hold: Hold) -> Result<(), OutOfMemory>
        requires ascending { IsStrictlySortedBy nat_cmp hold.nodes }
        requires some { 1 ≤ length hold.nodes }
        requires within { All (λ n. n < length self.old.lists.items) hold.nodes }
        ensures names { OnOk result (self.new.names.items ≡ map (joined_name hold.nodes) self.old.names.items) }
        ensures lists { OnOk result (AreJoined self.old.lists.items hold self.new.lists.items) }
    {
        self.names = joined_names(alloc, hold.nodes.as_slice(), self.names.as_slice())?;
        join_holds(alloc, &mut self.lists, hold)
    }
}
