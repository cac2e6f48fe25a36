// Nodes with a next and a previous one.
ghost use Rattle.std.specs.Prelude.{◌≡◌, ℕ, ◌<◌, ◌^◌, IfOk, List, length, slice_index};
ghost use Rattle.staat_ring.specs.Links.{unlink, relink, append, InRange};
ghost use Rattle.staat_ring.specs.Stands.{IsShortRing};

use staat_vec::OutOfMemory;
use std::alloc::Global;
use std::marker::Model;

/// For each node the next and the previous one.
#[derive(Drop)]
pub struct NodeLinks {
    next: Vec<u32>,
    prev: Vec<u32>,
}

impl Model for NodeLinks {
    ghost use Rattle.staat_ring.specs.Links.{Links, coded_links, AreLinkWords};

    ghost Value = { Links };

    ghost coded = { coded_links };

    ghost view = { λ a. record { next = a.next.items; prev = a.prev.items } };

    ghost invariant = { λ a. AreLinkWords a.next.items a.prev.items };
}

/// The numbers below a number.
pub fn counted(alloc: Global, count: u32) -> Result<Vec<u32>, OutOfMemory>
    ensures length { IfOk result (λ v. length v.items ≡ count) }
    ensures each { IfOk result (λ v. (x : ℕ) → x < count → slice_index v.items x ≡ x) }
{
    let numbers = (0..count).collect(alloc)?;
    Ok(numbers)
}

impl NodeLinks {
    /// Nodes of which each is a ring of its own.
    pub fn alone(alloc: Global, count: u32) -> Result<Self, OutOfMemory>
        ensures length { IfOk result (λ s. length s.next ≡ count) }
        ensures next { IfOk result (λ s. (x : ℕ) → x < count → slice_index s.next x ≡ x) }
        ensures prev { IfOk result (λ s. (x : ℕ) → x < count → slice_index s.prev x ≡ x) }
    {
        let next = counted(alloc, count)?;
        let prev = counted(alloc, count)?;
        Ok(NodeLinks { next, prev })
    }

    /// Puts a node at the end of the ring of a head.
    pub fn append(&mut self, head: u32, x: u32)
        requires head { head < length self.old.next }
        requires node { x < length self.old.next }
        ensures links { self.new ≡ append head x self.old }
        ensures length { length self.new.next ≡ length self.old.next }
    {
        let last = self.prev[head as usize];
        self.next[x as usize] = head;
        self.prev[x as usize] = last;
        self.next[last as usize] = x;
        self.prev[head as usize] = x;
    }

    // there are as many previous nodes as next ones, and every word is a node
    pub(crate) fn range(&self)
        ensures { InRange self.now }
    {
        let _count = self.next.len();
    }

    /// The next node.
    pub fn next(&self, x: u32) -> u32
        requires { x < length self.now.next }
        ensures next { result ≡ slice_index self.now.next x }
        ensures within { result < length self.now.next }
    {
        self.next[x as usize]
    }

    /// Takes the node out of its ring.
    pub fn unlink(&mut self, x: u32)
        requires { x < length self.old.next }
        ensures links { self.new ≡ unlink x self.old }
        ensures length { length self.new.next ≡ length self.old.next }
    {
        let left = self.prev[x as usize];
        let right = self.next[x as usize];
        self.next[left as usize] = right;
        self.prev[right as usize] = left;
    }

    /// Puts it back between the two nodes that its own links name.
    pub fn relink(&mut self, x: u32)
        requires { x < length self.old.next }
        ensures links { self.new ≡ relink x self.old }
        ensures length { length self.new.next ≡ length self.old.next }
    {
        let left = self.prev[x as usize];
        let right = self.next[x as usize];
        self.next[left as usize] = x;
        self.prev[right as usize] = x;
    }

    /// The number of nodes on the ring of a head.
    #[tactic(auto, using(crate::proofs::StopReading::ends, crate::proofs::StopReading::node_within))]
    pub fn ring_len(&self, head: u32) -> u32
        requires some { (nodes : List ℕ) × IsShortRing self.now head nodes }
        requires small { length self.now.next < 2 ^ 32 }
        ensures { (nodes : List ℕ) → IsShortRing self.now head nodes → result ≡ length nodes }
    {
        let mut node = self.next(head);
        for count in 0..self.next.len() {
            if node == head {
                return count as u32;
            }
            node = self.next(node);
        }
        unreachable!()
    }
}
