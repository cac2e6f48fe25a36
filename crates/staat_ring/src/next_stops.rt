// From stop to stop of a circle, and from entry to entry of a stop.
ghost use Rattle.std.specs.Prelude.{◌≡◌, ℕ, ◌+◌, ◌%◌, ◌<◌, Contains, MatchOption, Some, drop, length, slice_get};
ghost use Rattle.staat_ring.specs.Places.{AtNode, HasCursor, HasNode, IsAtEntry, IsStopAt, cursor, plane_count};
ghost use Rattle.staat_ring.specs.Rings.{RingStop, linked_of};

use crate::arrays::head_of;
use crate::{Entry, Rings};

impl Rings {
    /// The node of the first stop of a circle.
    pub(crate) fn first(&self, circle: u32) -> u32
        requires { Contains (linked_of self.now.rings) circle }
        ensures { (s : RingStop) → IsStopAt self.now.rings circle 0 s → result ≡ s.node }
    {
        self.arrays.sizes();
        self.arrays.next_vertex(head_of(self.planes, circle))
    }

    /// The node of the next stop, and its place: after the last one comes the first.
    pub(crate) fn next(&self, circle: u32, node: u32, place: u32) -> (u32, u32)
        requires { (s : RingStop) × IsStopAt self.now.rings circle place s × (s.node ≡ node) }
        ensures { (s : RingStop) → (at : IsStopAt self.now.rings circle place s) → s.node ≡ node → (t : RingStop)
            × (slice_get at.ring.stops ((place + 1) % length at.ring.stops) ≡ Some t) × (t.node ≡ result.0)
            × (result.1 ≡ (place + 1) % length at.ring.stops) }
    {
        self.arrays.sizes();
        let head = head_of(self.planes, circle);
        let next = self.arrays.next_vertex(node);
        if next == head {
            (self.arrays.next_vertex(head), 0)
        } else {
            (next, place + 1)
        }
    }

    /// The number of the first entry of a stop.
    pub(crate) fn first_entry(&self, node: u32) -> u32
        requires { (c : ℕ) × HasNode self.now.rings c node }
        ensures { (c : ℕ) → AtNode self.now.rings c node (λ _ s _.
            result ≡ cursor (plane_count self.now) c s.node s.entries) }
    {
        self.arrays.sizes();
        self.arrays.next_entry(node)
    }

    /// The entry of this number, or none at the node of the stop.
    pub(crate) fn entry(&self, circle: u32, node: u32, at: u32) -> Option<Entry>
        requires { HasCursor self.now circle node at }
        ensures { AtNode self.now.rings circle node (λ _ s _. (i : ℕ)
            → IsAtEntry (plane_count self.now) circle s i at
            → MatchOption result (i ≡ length s.entries) (λ e. slice_get s.entries i ≡ Some e)) }
    {
        self.arrays.sizes();
        if at == node {
            return None;
        }
        Some(Entry {
            plane: at / 2 - circle * self.planes,
            turned: at % 2 == 1,
        })
    }

    /// The number of the next entry, or the node of the stop.
    pub(crate) fn next_entry(&self, at: u32) -> u32
        requires { (c node : ℕ) × HasCursor self.now c node at }
        ensures { (c m : ℕ) (s : RingStop) (i : ℕ) → IsStopAt self.now.rings c m s → i < length s.entries
            → IsAtEntry (plane_count self.now) c s i at
            → result ≡ cursor (plane_count self.now) c s.node (drop (i + 1) s.entries) }
    {
        self.arrays.sizes();
        self.arrays.next_entry(at)
    }
}
