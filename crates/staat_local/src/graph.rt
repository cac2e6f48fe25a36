// Which parts hold which back from beginning to move along a direction.
ghost use Rattle.std.specs.Prelude.{◌≡◌, ◌≢◌, ◌<◌, ◌↔◌, ℕ};
ghost use Rattle.std.specs.Prelude.{All, IsTrue, length, pos, ◌<ℤ◌};
ghost use Rattle.staat_vec.specs.Vectors.{IsWithin, dot};
ghost use Rattle.staat_model.specs.Sets.{Has};
ghost use Rattle.staat_graph.specs.Blocking.{ShowsBlockingBy};
ghost use Rattle.staat_graph.specs.Graphs.{HasArc};
ghost use Rattle.staat_pairs.specs.Tables.{IsTableArc, WasMadeFrom, facets_of, slot};
ghost use Rattle.staat_local.specs.Beginnings.{HoldsBack, HoldsBetween};
ghost use Rattle.staat_local.specs.Contacts.{Starts};
ghost use Rattle.staat_local.specs.Touching.{IsPairMarked};

use crate::touching::{TouchMarks, touching};
use staat_graph::Graph;
use staat_limits::MOST_PARTS;
use staat_model::{Arc, PartSet, Sound};
use staat_planes::PlaneTable;
use staat_vec::{DIRECTION, V3};

// whether the pieces of an arc are marked, and d leads ahead of all their facets
fn holds(marks: &TouchMarks, table: &PlaneTable, arc: Arc, d: V3) -> bool
    requires across { IsTableArc table.now arc }
    requires direction { IsWithin DIRECTION d }
    ensures { IsTrue result ↔ (IsPairMarked marks.now (slot table.now.pieces arc)
        × All (λ n. pos 0 <ℤ dot n d) (facets_of table.now arc)) }
{
    marks[table.slot(arc) as usize] && table.leads_ahead(arc, d)
}

// whether this is so for some piece of the part a and some piece of the part b
fn holds_between(marks: &TouchMarks, table: &PlaneTable, a: u32, b: u32, d: V3) -> bool
    requires a_in { Has table.now.of a }
    requires b_in { Has table.now.of b }
    requires different { a ≢ b }
    requires direction { IsWithin DIRECTION d }
    ensures { IsTrue result ↔ HoldsBetween table.now marks.now d a b }
{
    for i in 0..table.pieces(a) {
        for j in 0..table.pieces(b) {
            if holds(marks, table, Arc { a, i, b, j }, d) {
                return true;
            }
        }
    }
    false
}

// the parts that hold the part a back, and none where it is not in the set
fn held_by(marks: &TouchMarks, table: &PlaneTable, a: u32, d: V3) -> PartSet
    requires part { a < MOST_PARTS }
    requires direction { IsWithin DIRECTION d }
    ensures { (b : ℕ) → Has result b ↔ HoldsBetween table.now marks.now d a b }
{
    let set = table.set();
    let mut held = PartSet::empty();
    for b in 0..MOST_PARTS {
        if a != b && set.has(a) && set.has(b) && holds_between(marks, table, a, b, d) {
            held = held.union(PartSet::single(b));
        }
    }
    held
}

/// The graph of the marked pairs at the direction `d`.
pub(crate) fn graph_of(marks: &TouchMarks, table: &PlaneTable, d: V3) -> Graph
    requires { IsWithin DIRECTION d }
    ensures { (a b : ℕ) → HasArc result.rows a b ↔ HoldsBetween table.now marks.now d a b }
{
    // parts are below the number of rows
    let _set = table.set();
    let mut rows = [0u32; 32];
    for a in 0..MOST_PARTS {
        rows[a as usize] = held_by(marks, table, a, d).bits();
    }
    Graph { rows }
}

/// Which parts hold which back at the direction `d`: an arc from a part of the table's set to another stands exactly
/// where some piece of the first collides at once with some piece of the second when it begins to move along `d`.
///
/// The table was made from this assembly. The components of `d` are at most [`DIRECTION`] in absolute value. It takes
/// no memory.
pub fn local_graph(table: &PlaneTable, sound: &Sound, d: V3) -> Graph
    requires made { WasMadeFrom sound.now table.now }
    requires direction { IsWithin DIRECTION d }
    ensures arcs { (a b : ℕ) → HasArc result.rows a b ↔ HoldsBack sound.now table.now.of d a b }
    ensures shows { ShowsBlockingBy Starts sound.now d table.now.of result.rows }
{
    let marks = touching(table, sound);
    graph_of(&marks, table, d)
}
