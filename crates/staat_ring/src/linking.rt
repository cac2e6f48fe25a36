// The rings of a circle and of its stops, linked to their nodes.
ghost use Rattle.std.specs.Prelude.{◌≡◌, ℕ, ◌<◌, ◌≤◌, ◌∷◌, [], All, length, map};
ghost use Rattle.staat_ring.specs.Links.{Apart, Distinct, IsLinkedRing};
ghost use Rattle.staat_ring.specs.Numbered.{entry_numbers, head_number, ring_node_count, node_number};
ghost use Rattle.staat_ring.specs.Linking.{AreHomedAt, AreLinked, AreStopsLinked, CanBeLinked, IsSameAt, rows_of};

use crate::arrays::head_of;
use crate::entry::{Entry, node_of, number_of_entry};
use crate::nodes::NodeLinks;
use crate::stop_list::Stops;
use staat_limits::MOST_PLANES;

impl NodeLinks {
    /// Links the nodes of the stops of the circle `c` to a ring, in their order. Its head stands alone.
    pub fn link(&mut self, planes: u32, c: u32, stops: &Stops)
        requires planes { planes ≤ MOST_PLANES }
        requires circle { c < planes }
        requires stops { CanBeLinked planes c stops.now }
        requires room { ring_node_count planes ≤ length self.old.next }
        requires alone { IsLinkedRing self.old (head_number planes c) [] }
        ensures ring { IsLinkedRing self.new (head_number planes c) (map (node_number planes c) stops.now) }
        ensures others { (y : ℕ) → Apart y (head_number planes c ∷ map (node_number planes c) stops.now)
            → IsSameAt self.old self.new y }
        ensures length { length self.new.next ≡ length self.old.next }
    {
        self.range();
        let head = head_of(planes, c);
        for k in 0..stops.len() {
            self.append(head, node_of(planes, c, stops.stop(k)));
        }
    }
}

// links the entries of a stop to a ring, whose head is the node `v`, their home
fn link_entries(
    vertices: &mut NodeLinks,
    home: &mut Vec<u32>,
    planes: u32,
    c: u32,
    v: u32,
    entries: &[Entry],
)
    requires planes { planes ≤ MOST_PLANES }
    requires circle { c < planes }
    requires node { v < length vertices.old.next }
    requires room { ring_node_count planes ≤ length vertices.old.next }
    requires homes { length home.old.items ≡ length vertices.old.next }
    requires entries { All (λ e. e.plane < planes) entries.now }
    requires distinct { Distinct (v ∷ entry_numbers planes c entries.now) }
    requires alone { IsLinkedRing vertices.old v [] }
    requires within { All (λ x. x < length home.old.items) home.old.items }
    ensures ring { IsLinkedRing vertices.new v (entry_numbers planes c entries.now) }
    ensures others { (y : ℕ) → Apart y (v ∷ entry_numbers planes c entries.now)
        → IsSameAt vertices.old vertices.new y }
    ensures length { length vertices.new.next ≡ length vertices.old.next }
    ensures homes { AreHomedAt home.old.items home.new.items v (entry_numbers planes c entries.now) }
    ensures within { All (λ x. x < length home.old.items) home.new.items }
{
    vertices.range();
    for e in entries {
        let x = number_of_entry(planes, c, *e);
        vertices.append(v, x);
        home[x as usize] = v;
    }
}

/// Links the entries of each stop of the circle `c` to a ring, whose head is the node of the stop, their home.
#[tactic(auto, using(crate::proofs::Rows::stop_distinct, crate::proofs::Rows::stop_alone))]
pub fn link_stops(vertices: &mut NodeLinks, home: &mut Vec<u32>, planes: u32, c: u32, stops: &Stops)
    requires planes { planes ≤ MOST_PLANES }
    requires circle { c < planes }
    requires room { ring_node_count planes ≤ length vertices.old.next }
    requires homes { length home.old.items ≡ length vertices.old.next }
    requires stops { CanBeLinked planes c stops.now }
    requires alone { AreLinked vertices.old (rows_of planes c stops.now) 0 }
    requires within { All (λ x. x < length home.old.items) home.old.items }
    ensures { AreStopsLinked planes c stops.now (length stops.now) vertices.old vertices.new home.old.items
        home.new.items }
{
    for k in 0..stops.len() {
        let entries = stops.stop(k);
        let v = node_of(planes, c, entries);
        link_entries(vertices, home, planes, c, v, entries);
    }
}
