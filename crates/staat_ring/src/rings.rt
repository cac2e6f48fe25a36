// The circles of the linked planes, and the planes that are unlinked.
ghost use Rattle.std.specs.Prelude.{◌≡◌, ◌↔◌, ◌≤◌, Contains, IsTrue, List, length};
ghost use Rattle.staat_vec.specs.declared.vector.V3.{V3 as Vector};
ghost use Rattle.staat_pairs.specs.Tables.{AreTablePlanes};
ghost use Rattle.staat_ring.specs.Rings.{Ring as RingValue, WereMadeFrom, linked_of};
ghost use Rattle.staat_ring.specs.Without.{IsLastUnlinked, IsRelinked, IsUnlinked};

use crate::arrays::{RingArrays, head_of};
use std::marker::Model;

/// The arrangement of the great circles of planes, seen as two lists: the circles of the linked planes, in the order
/// of the planes, and the unlinked planes in the order of their unlinking, each with the circles that stood before.
///
/// A circle is the list of its vertices in the turning sense about the normal of its plane, from the crossing with the
/// least axis other than this plane on. With each vertex stands the ascending list of the other linked planes through
/// it. A plane has two entries on each circle other than its own, one at each of the two vertices in which they cross.
///
/// The nodes are linked by index, both ways, so that a node that was taken out knows the place to which it comes back
/// (Knuth, "Dancing links", 2000). For n planes there are five arrays of 4 n n words of 32 bits, which is 40 bytes for
/// each of the 2 n n entries.
#[derive(Drop)]
pub struct Rings {
    pub(crate) arrays: RingArrays,
    pub(crate) planes: u32,
    // the planes that are unlinked are the first `count` of these
    pub(crate) order: Vec<u32>,
    pub(crate) count: u32,
    // for each plane, whether it is linked
    pub(crate) linked: Vec<bool>,
}

impl Model for Rings {
    ghost use Rattle.std.specs.Prelude.{take};
    ghost use Rattle.staat_ring.specs.Rings.{Arrangement};
    ghost use Rattle.staat_ring.specs.RingViews.{arrangement_of, AreFlagged};

    ghost Value = { Arrangement };

    ghost view = { λ r. arrangement_of r.planes (take r.count r.order.items) r.arrays };

    ghost invariant = { λ r. AreFlagged r.planes r.count r.order.items r.linked.items r.arrays };
}

impl Rings {
    /// Takes out the circle of a plane, its entries, and the vertices that have no entry left. The plane is linked and
    /// not an axis. It joins the end of the unlinked planes; all else stays.
    ///
    /// Only the words of the plane's own entries and of their neighbours are written.
    pub fn unlink(&mut self, plane: u32)
        requires linked { Contains (linked_of self.old.rings) plane }
        requires no_axis { 3 ≤ plane }
        ensures is { IsUnlinked plane self.old self.new }
        ensures made { (planes : List Vector) → AreTablePlanes planes → WereMadeFrom planes self.old
            → WereMadeFrom planes self.new }
    {
        self.arrays.take_plane(self.planes, plane);
        self.order[self.count as usize] = plane;
        self.count += 1;
        self.linked[plane as usize] = false;
    }

    /// Puts back the plane that was unlinked last: the circles are those that stood before.
    pub fn relink(&mut self, plane: u32)
        requires { IsLastUnlinked plane self.old }
        ensures is { IsRelinked plane self.old self.new }
        ensures made { (planes : List Vector) → WereMadeFrom planes self.old → WereMadeFrom planes self.new }
    {
        self.count -= 1;
        self.arrays.give_plane(self.planes, plane);
        self.linked[plane as usize] = true;
    }

    /// Whether there is such a plane, and it is linked.
    pub fn is_linked(&self, plane: u32) -> bool
        ensures { IsTrue result ↔ Contains (linked_of self.now.rings) plane }
    {
        plane < self.planes && self.linked[plane as usize]
    }

    /// The number of vertices on the circle of a linked plane.
    pub fn circle_vertices(&self, circle: u32) -> u32
        requires { Contains (linked_of self.now.rings) circle }
        ensures { (r : RingValue) → Contains self.now.rings r → r.plane ≡ circle → result ≡ length r.stops }
    {
        self.arrays.sizes();
        self.arrays.circle_len(head_of(self.planes, circle))
    }
}
