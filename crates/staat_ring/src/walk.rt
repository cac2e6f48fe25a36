// A walk along circles, that keeps the signs of the planes at its vertex.
ghost use Rattle.std.specs.Prelude.{◌≡◌, ◌≢◌, ◌↔◌, ◌+◌, ◌-◌, ◌%◌, ◌^◌, ◌<◌, ◌≤◌, min};
ghost use Rattle.std.specs.Prelude.{All, Contains, IfOk, IsTrue, List, MatchOption, Some, length, slice_get};
ghost use Rattle.staat_vec.specs.Lists.{IsFirst};
ghost use Rattle.staat_vec.specs.Vectors.{IsWithin};
ghost use Rattle.staat_model.specs.declared.assembly.Part.{Part as PartValue};
ghost use Rattle.staat_model.specs.declared.set.PartSet.{PartSet as PartSetValue};
ghost use Rattle.staat_model.specs.Removal.{Blocks};
ghost use Rattle.staat_model.specs.Sets.{IsNonempty, IsSubset};
ghost use Rattle.staat_graph.specs.Blocking.{ShowsBlocking};
ghost use Rattle.staat_graph.specs.Graphs.{IsStrong};
ghost use Rattle.staat_pairs.specs.Tables.{IsTable, Table, WasMadeFrom};
ghost use Rattle.staat_ring.specs.Belonging.{BelongTo, HasAll, HoldSigns};
ghost use Rattle.staat_ring.specs.SignChanges.{stop_sign, with_stop_signs};
ghost use Rattle.staat_ring.specs.Places.{AtNode, HasNode};
ghost use Rattle.staat_ring.specs.Rings.{Ring, WereMadeFrom, linked_of};
ghost use Rattle.staat_ring.specs.Walked.{AtStop, IsEntered, WalkWasMadeFrom};

use crate::counted_signs::CountedSigns;
use crate::vertex::Vertex;
use crate::{Entry, Rings};
use staat_graph::Graph;
use staat_model::PartSet;
use staat_planes::{PlaneTable, Steps};
use staat_vec::{DIRECTION, OutOfMemory, Sign, V3};
use std::alloc::Global;
use std::marker::Model;
use std::sync::ledger::Ledger;

// the sign of a plane just after a stop that is left, or at one that is reached
pub(crate) fn stop_sign(leaves: bool, turned: bool) -> Sign
    ensures { result ≡ stop_sign leaves turned }
{
    match (leaves, turned) {
        (false, _) => Sign::Zero,
        (true, false) => Sign::Neg,
        (true, true) => Sign::Pos,
    }
}

// gives the planes through a stop, at most so many, their signs
fn sign_stop(
    signs: &mut CountedSigns,
    rings: &Rings,
    circle: u32,
    node: u32,
    most: u32,
    leaves: bool,
)
    requires at { HasNode rings.now.rings circle node }
    requires few { AtNode rings.now.rings circle node (λ _ s _.
        (length s.entries ≤ most) × All (λ e. e.plane < length signs.old.states) s.entries) }
    ensures { AtNode rings.now.rings circle node (λ _ s _. signs.new ≡ with_stop_signs leaves s.entries signs.old) }
{
    let mut at = rings.first_entry(node);
    for _passed in 0..most {
        match rings.entry(circle, node, at) {
            None => return,
            Some(entry) => {
                signs.set(entry.plane, stop_sign(leaves, entry.turned));
                at = rings.next_entry(at);
            }
        }
    }
}

// the first entry of a stop
fn entry_of(rings: &Rings, circle: u32, node: u32) -> Entry
    requires at { HasNode rings.now.rings circle node }
    requires some { AtNode rings.now.rings circle node (λ _ s _. 0 < length s.entries) }
    ensures { AtNode rings.now.rings circle node (λ _ s _. slice_get s.entries 0 ≡ Some result) }
{
    let at = rings.first_entry(node);
    match rings.entry(circle, node, at) {
        Some(entry) => entry,
        None => unreachable!(),
    }
}

// of the entries of a stop, at most so many, the first with a plane greater than i
fn entry_after(rings: &Rings, circle: u32, node: u32, most: u32, i: u32) -> Option<Entry>
    requires at { HasNode rings.now.rings circle node }
    requires few { AtNode rings.now.rings circle node (λ _ s _. length s.entries ≤ most) }
    ensures { AtNode rings.now.rings circle node (λ _ s _.
        MatchOption result (All (λ e. e.plane ≤ i) s.entries) (λ e. IsFirst (λ x. i < x.plane) s.entries e)) }
{
    let mut at = rings.first_entry(node);
    for _passed in 0..most {
        match rings.entry(circle, node, at) {
            None => return None,
            Some(entry) => {
                if i < entry.plane {
                    return Some(entry);
                }
                at = rings.next_entry(at);
            }
        }
    }
    None
}

// gives the linked planes their signs at a direction
fn sign_all<L: Ledger>(
    signs: &mut CountedSigns,
    table: &PlaneTable,
    rings: &Rings,
    d: V3,
    steps: &mut Steps<L>,
)
    requires made { BelongTo table.now signs.old }
    requires direction { IsWithin DIRECTION d }
    ensures made { BelongTo table.now signs.new }
    ensures signs { HoldSigns table.now.planes (linked_of rings.now.rings) signs.new d }
    ensures steps { steps.new ≤ steps.old + length rings.now.rings }
{
    for k in 0..table.len() {
        if rings.is_linked(k) {
            signs.set(k, table.sign_at(k, d, steps));
        }
    }
}

/// A walk along the circles of rings. At the vertex where it stands it keeps the sign of each linked plane, for each
/// ordered pair of pieces the number of its facets with a positive sign, and for each ordered pair of parts the number
/// of its pairs of pieces that block, with the words of the blocking graph.
#[derive(Drop)]
pub struct Walk {
    signs: CountedSigns,
    // Contracts alone speak of it, and no code reads it. It costs an addition a step: a ghost field keeps facts and no
    // numbers, and a ledger, which takes no bytes, would be a parameter of `Walk` and of all that hold a walk.
    crossed: u64,
    circle: u32,
    place: u32,
    node: u32,
    vertex: Vertex,
}

impl Model for Walk {
    ghost use Rattle.std.specs.Prelude.{◌<◌, ◌^◌};
    ghost use Rattle.staat_ring.specs.Walked.{Walked};

    ghost Value = { Walked };

    ghost view = { λ w. record {
      signs = w.signs;
      crossed = w.crossed;
      circle = w.circle;
      place = w.place;
      node = w.node;
      vertex = w.vertex;
    } };

    ghost invariant = { λ w. w.crossed < 2 ^ 64 };
}

impl Walk {
    /// A walk for the planes of a table, which stands nowhere yet.
    pub fn new(alloc: Global, table: &PlaneTable) -> Result<Walk, OutOfMemory>
        ensures made { IfOk result (WalkWasMadeFrom table.now) }
        ensures crossed { IfOk result (λ w. w.crossed ≡ 0) }
    {
        let _len = table.len();
        let signs = CountedSigns::of(alloc, table)?;
        let entry = Entry {
            plane: 1,
            turned: false,
        };
        Ok(Walk {
            signs,
            crossed: 0,
            circle: 0,
            place: 0,
            node: 0,
            vertex: Vertex::of(table, 0, entry),
        })
    }

    /// The vertex at which the walk stands. This call alone forms products.
    pub fn at(&self) -> V3
        ensures is { result ≡ self.now.vertex }
        ensures within { IsWithin DIRECTION result }
    {
        self.vertex.direction()
    }

    /// The blocking graph at the vertex, among parts of which all planes are linked.
    pub fn graph(&self) -> Graph
        ensures { (parts : List PartValue) (t : Table) (rings : List Ring) (w : PartSetValue) → WasMadeFrom parts t
            → IsTable t → WalkWasMadeFrom t self.now → IsEntered t.planes rings self.now → IsSubset w t.of
            → HasAll parts w t.planes (linked_of rings) → ShowsBlocking parts self.now.vertex w result.rows }
    {
        self.signs.graph()
    }

    /// Whether each part of `w` reaches each other by a walk inside `w` along the arcs of the blocking graph at the
    /// vertex. `w` is not empty, and all its planes are linked. It is faster than the same of [`graph`](Walk::graph).
    pub fn is_strong(&self, w: PartSet) -> bool
        requires { IsNonempty w }
        ensures { (parts : List PartValue) (t : Table) (rings : List Ring) → WasMadeFrom parts t → IsTable t
            → WalkWasMadeFrom t self.now → IsEntered t.planes rings self.now → IsSubset w t.of
            → HasAll parts w t.planes (linked_of rings)
            → IsTrue result ↔ IsStrong (Blocks parts self.now.vertex) w }
    {
        self.signs.is_strong(w)
    }

    /// Of the planes through the vertex with a number greater than `i` the first one, if there is any.
    pub fn entry_after(&self, table: &PlaneTable, rings: &Rings, i: u32) -> Option<Entry>
        requires rings { WereMadeFrom table.now.planes rings.now }
        requires entered { IsEntered table.now.planes rings.now.rings self.now }
        ensures { AtStop rings.now.rings self.now (λ s _.
            MatchOption result (All (λ e. e.plane ≤ i) s.entries) (λ e. IsFirst (λ x. i < x.plane) s.entries e)) }
    {
        entry_after(rings, self.circle, self.node, table.len(), i)
    }

    /// Goes to the next vertex of the circle, and tells whether that is another one than the first.
    ///
    /// Of the planes only those through the vertex that is left and through the one that is reached get new signs:
    /// whether a plane is left to its positive side is known from the entry.
    pub fn cross(&mut self, table: &PlaneTable, rings: &Rings) -> bool
        requires made { WalkWasMadeFrom table.now self.old }
        requires rings { WereMadeFrom table.now.planes rings.now }
        requires entered { IsEntered table.now.planes rings.now.rings self.old }
        ensures made { WalkWasMadeFrom table.now self.new }
        ensures entered { IsEntered table.now.planes rings.now.rings self.new }
        ensures circle { self.new.circle ≡ self.old.circle }
        ensures place { AtStop rings.now.rings self.old (λ _ at.
            self.new.place ≡ (self.old.place + 1) % length at.ring.stops) }
        ensures crossed { self.new.crossed ≡ min (self.old.crossed + 1) (2 ^ 64 - 1) }
        ensures back { IsTrue result ↔ (self.new.place ≢ 0) }
    {
        let most = table.len();
        sign_stop(&mut self.signs, rings, self.circle, self.node, most, true);
        let (node, place) = rings.next(self.circle, self.node, self.place);
        sign_stop(&mut self.signs, rings, self.circle, node, most, false);
        self.vertex = Vertex::of(table, self.circle, entry_of(rings, self.circle, node));
        self.node = node;
        self.place = place;
        self.crossed = self.crossed.saturating_add(1);
        place != 0
    }

    /// Stands at the first vertex of a circle. At most as many steps are taken as planes are linked.
    pub fn enter<L: Ledger>(
        &mut self,
        table: &PlaneTable,
        rings: &Rings,
        circle: u32,
        steps: &mut Steps<L>,
    )
        requires made { WalkWasMadeFrom table.now self.old }
        requires rings { WereMadeFrom table.now.planes rings.now }
        requires linked { Contains (linked_of rings.now.rings) circle }
        ensures made { WalkWasMadeFrom table.now self.new }
        ensures entered { IsEntered table.now.planes rings.now.rings self.new }
        ensures circle { self.new.circle ≡ circle }
        ensures place { self.new.place ≡ 0 }
        ensures crossed { self.new.crossed ≡ self.old.crossed }
        ensures counted { self.new.crossed ≤ 2 ^ 64 - 1 }
        ensures steps { steps.new ≤ steps.old + length rings.now.rings }
    {
        let _len = table.len();
        let node = rings.first(circle);
        let vertex = Vertex::of(table, circle, entry_of(rings, circle, node));
        sign_all(&mut self.signs, table, rings, vertex.direction(), steps);
        self.vertex = vertex;
        self.circle = circle;
        self.place = 0;
        self.node = node;
    }
}
