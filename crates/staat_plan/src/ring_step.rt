// The step of a set of parts, by a walk along the circles of its planes.
ghost use Rattle.std.specs.Prelude.{◌≡◌, ◌↔◌, ℕ, ◌+◌, ◌-◌, ◌*◌, ◌^◌, ◌<◌, ◌≤◌, List, Contains};
ghost use Rattle.std.specs.Prelude.{IfSome, IsTrue, MatchOption, None, Some, false, length, min, slice_get};
ghost use Rattle.std.specs.FinSet as set;
ghost use Rattle.staat_vec.specs.{Vectors.IsWithin, declared.vector.V3.V3 as Vector};
ghost use Rattle.staat_model.specs.{Outcomes.{HasNoStep, IsStep, try_vertex}, Plans.IsStuck};
ghost use Rattle.staat_model.specs.{Sets.{IsNonempty, IsSubset}, declared.assembly.Part.Part as PartValue};
ghost use Rattle.staat_pairs.specs.Tables.{WasMadeFrom};
ghost use Rattle.staat_planes.specs.Tables.{IsPlaneOf};
ghost use Rattle.staat_ring.specs.{Belonging.HasAll, Places.IsStopAt};
ghost use Rattle.staat_ring.specs.{Rings.{RingStop, WereMadeFrom, crossing, linked_of}, Stepping.count_below};
ghost use Rattle.staat_ring.specs.Walked.{IsEntered, WalkWasMadeFrom};
ghost use Rattle.staat_plan.specs.RingSearches.{HasServing, IsBest, IsLater, IsNoLater, NoStopServes, NoneServes};
ghost use Rattle.staat_plan.specs.RingSearches.{lengths_below, pair_key};

use staat_graph::sink_of;
use staat_model::{PartSet, Step};
use staat_planes::{PlaneTable, Steps};
use staat_ring::{Entry, Rings, Vertex, Walk};
use staat_vec::DIRECTION;
use std::sync::ledger::Ledger;

// A plane through a vertex of a circle that serves, and the side that moves along the vertex.
#[derive(Clone, Copy)]
struct Serving {
    entry: Entry,
    moved: PartSet,
}

// where a plane and its sense stand in the order of the vertices of a circle
fn pair_key(e: Entry) -> u64
    ensures { result ≡ pair_key e }
{
    2 * e.plane as u64 + e.turned as u64
}

// whether what was found before comes no later than an entry
fn is_before(best: &Option<Serving>, entry: &Entry) -> bool
    ensures yes { IsTrue result → IsNoLater best.now entry.now }
    ensures no { result ≡ false → (h : Serving) → best.now ≡ Some h → pair_key entry.now ≤ pair_key h.entry }
{
    match best {
        None => false,
        Some(h) => pair_key(h.entry) <= pair_key(*entry),
    }
}

// the best of what was found before, and what the walk finds at its vertex on the circle i
fn look(
    table: &PlaneTable,
    rings: &Rings,
    walk: &Walk,
    w: PartSet,
    i: u32,
    best: Option<Serving>,
) -> Option<Serving>
    requires made { WalkWasMadeFrom table.now walk.now }
    requires rings { WereMadeFrom table.now.planes rings.now }
    requires entered { IsEntered table.now.planes rings.now.rings walk.now }
    requires circle { walk.now.circle ≡ i }
    requires set { IsSubset w table.now.of }
    requires some { IsNonempty w }
    requires linked { (parts : List PartValue) → WasMadeFrom parts table.now
        → HasAll parts w table.now.planes (linked_of rings.now.rings) }
    requires best { (h : Serving) → best ≡ Some h → IsLater i (length table.now.planes) h }
    ensures placed { (h : Serving) → result ≡ Some h → IsLater i (length table.now.planes) h }
    ensures best { (parts : List PartValue) → WasMadeFrom parts table.now → (s : RingStop)
        → (at : IsStopAt rings.now.rings i walk.now.place s) → s.node ≡ walk.now.node
        → IsBest parts table.now.planes w i at.ring.stops walk.now.place best
        → IsBest parts table.now.planes w i at.ring.stops (walk.now.place + 1) result }
{
    let _len = table.len();
    let Some(entry) = walk.entry_after(table, rings, i) else {
        return best;
    };
    if is_before(&best, &entry) {
        return best;
    }
    let graph = walk.graph();
    if walk.is_strong(w) {
        return best;
    }
    let moved = sink_of(&graph, w);
    Some(Serving { entry, moved })
}

// The best of what the walk finds on the circle i, and nothing where the plane i is not linked.
fn search<L: Ledger>(
    table: &PlaneTable,
    rings: &Rings,
    walk: &mut Walk,
    w: PartSet,
    i: u32,
    steps: &mut Steps<L>,
) -> Option<Serving>
    requires made { WalkWasMadeFrom table.now walk.old }
    requires rings { WereMadeFrom table.now.planes rings.now }
    requires set { IsSubset w table.now.of }
    requires some { IsNonempty w }
    requires linked { (parts : List PartValue) → WasMadeFrom parts table.now → (k : ℕ) (n : Vector)
        → slice_get table.now.planes k ≡ Some n → Contains (linked_of rings.now.rings) k
        ↔ IsPlaneOf parts w n }
    ensures made { WalkWasMadeFrom table.now walk.new }
    ensures steps { (start : ℕ) → steps.old ≤ start + count_below i (linked_of rings.now.rings) * length rings.now.rings
        → steps.new ≤ start + count_below (i + 1) (linked_of rings.now.rings) * length rings.now.rings }
    ensures crossed { (start : ℕ) → min (start + lengths_below i rings.now.rings) (2 ^ 64 - 1) ≤ walk.old.crossed
        → min (start + lengths_below (i + 1) rings.now.rings) (2 ^ 64 - 1) ≤ walk.new.crossed }
    ensures placed { (f : Serving) → result ≡ Some f → IsLater i (length table.now.planes) f }
    ensures step { (parts : List PartValue) → WasMadeFrom parts table.now
        → NoneServes parts table.now.planes w (linked_of rings.now.rings) i
        → MatchOption result (NoneServes parts table.now.planes w (linked_of rings.now.rings) (i + 1))
        (λ f. HasServing parts table.now.planes w rings.now.rings i
        × IsStep false parts w (try_vertex (crossing table.now.planes i f.entry)) f.moved) }
{
    let _len = table.len();
    if !rings.is_linked(i) {
        return None;
    }
    walk.enter(table, rings, i, steps);
    let mut best = None;
    'stops: loop {
        best = look(table, rings, walk, w, i, best);
        if !walk.cross(table, rings) {
            return best;
        }
    }
}

// the step along the vertex that was found on the circle i
fn step_of(table: &PlaneTable, i: u32, found: Serving) -> Step
    requires i { i < length table.now.planes }
    requires plane { found.entry.plane < length table.now.planes }
    requires later { i < found.entry.plane }
    ensures moved { result.moved ≡ found.moved }
    ensures d { result.d ≡ crossing table.now.planes i found.entry }
    ensures within { IsWithin DIRECTION result.d }
{
    let d = Vertex::of(table, i, found.entry).direction();
    Step {
        moved: found.moved,
        d,
    }
}

/// The step of the set `w` of parts: along the first vertex of its planes, in the order of pairs, that serves. None
/// exactly where the set is stuck. For a table of `w` it is the answer of [`part_step`](crate::part_step).
///
/// The rings and the walk were made from this table, and the linked planes are those of `w`. The walk goes along whole
/// circles, in the order of the table, up to the first on which a vertex serves. For n linked planes it computes at
/// most n n signs, n where it enters a circle. It takes no memory.
pub fn part_step_rings<L: Ledger>(
    table: &PlaneTable,
    rings: &Rings,
    walk: &mut Walk,
    w: PartSet,
    steps: &mut Steps<L>,
) -> Option<Step>
    requires made { WalkWasMadeFrom table.now walk.old }
    requires rings { WereMadeFrom table.now.planes rings.now }
    requires set { IsSubset w table.now.of }
    requires two { 2 ≤ set.len w }
    requires linked { (parts : List PartValue) → WasMadeFrom parts table.now → (k : ℕ) (n : Vector)
        → slice_get table.now.planes k ≡ Some n → Contains (linked_of rings.now.rings) k
        ↔ IsPlaneOf parts w n }
    ensures made { WalkWasMadeFrom table.now walk.new }
    ensures steps { steps.new ≤ steps.old + length rings.now.rings * length rings.now.rings }
    ensures crossed { (parts : List PartValue) (k : ℕ) → WasMadeFrom parts table.now
        → k < length table.now.planes
        → NoStopServes parts table.now.planes w rings.now.rings k
        → min (walk.old.crossed + lengths_below (k + 1) rings.now.rings) (2 ^ 64 - 1) ≤ walk.new.crossed }
    ensures size { IfSome result (λ s. IsWithin DIRECTION s.d) }
    ensures step { (parts : List PartValue) → WasMadeFrom parts table.now
        → MatchOption result (HasNoStep false parts w) (λ s. IsStep false parts w (try_vertex s.d) s.moved) }
    ensures stuck { (parts : List PartValue) → WasMadeFrom parts table.now
        → (result ≡ None) ↔ IsStuck parts w }
{
    let _len = table.len();
    for i in 0..table.len() {
        if let Some(found) = search(table, rings, walk, w, i, steps) {
            return Some(step_of(table, i, found));
        }
    }
    None
}
