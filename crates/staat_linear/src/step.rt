// The step of a set of parts: the part that is taken away next, and its direction.
ghost use Rattle.std.specs.Prelude.{◌≡◌, ◌<◌, ◌≤◌, ◌↔◌, List, IfSome, IsTrue, MatchOption, None};
ghost use Rattle.std.specs.FinSet as set;
ghost use Rattle.staat_vec.specs.Vectors.{IsWithin};
ghost use Rattle.staat_model.specs.declared.assembly.Part.{Part as PartValue};
ghost use Rattle.staat_model.specs.Sets.{Has, IsSubset};
ghost use Rattle.staat_pairs.specs.Tables.{WasMadeFrom};
ghost use Rattle.staat_linear.specs.Holding.{AreHeld, IsHeld, IsLeastFree, IsLeastLeaving};
ghost use Rattle.staat_linear.specs.Orders.{HasNoLeave, IsLeave, IsLocked, LetsLeave};

use crate::order::Leave;
use staat_core::{Moving, TableCore, Trial, Tried, first_vertex};
use staat_graph::Graph;
use staat_limits::MOST_PARTS;
use staat_model::PartSet;
use staat_planes::PlaneTable;
use staat_vec::{DIRECTION, V3};

// whether an arc leads from the part p of w to another part of w
fn is_held(graph: &Graph, w: PartSet, p: u32) -> bool
    requires { p < MOST_PARTS }
    ensures { IsTrue result ↔ IsHeld graph.now.rows w p }
{
    let others = w.without(PartSet::single(p));
    graph.arcs_from(p).meets(others)
}

// the least part of w from which none does
fn least_free(graph: &Graph, w: PartSet) -> Option<u32>
    ensures { MatchOption result (AreHeld graph.now.rows w) (IsLeastFree graph.now.rows w) }
{
    // all members are below the number of bits
    let _bits = w.bits();
    for p in 0..MOST_PARTS {
        if w.has(p) && !is_held(graph, w, p) {
            return Some(p);
        }
    }
    None
}

// what looks for the least part of a set that leaves
#[derive(Clone, Copy)]
struct Taking;

impl Trial for Taking {
    ghost use Rattle.std.specs.Prelude.{⊤};

    type Found = u32;

    ghost knows = { λ s parts t. ⊤ };

    ghost serves = { λ parts w d. LetsLeave parts w d };

    ghost finds = { λ parts w d p. IsLeastLeaving parts w d p };

    ghost among = { λ w p. Has w p };

    // along the opposite direction the arcs are turned round
    fn ask(&self, table: &PlaneTable, w: PartSet, d: V3) -> Tried<u32> {
        let graph = table.graph_in(w, d);
        if let Some(p) = least_free(&graph, w) {
            return Tried::Ahead(p);
        }
        match least_free(&graph.reversed(), w) {
            Some(p) => Tried::Opposite(p),
            None => Tried::Neither,
        }
    }

    fn core(&self, table: &PlaneTable, w: PartSet) -> TableCore {
        TableCore::of(table, w, Moving::OnePart)
    }
}

/// The step of the set `w`: of the vertices of its planes, in pair order, the first along which some part of `w` is
/// free of all others of `w`, and the least such part. None exactly where `w` is locked.
///
/// `w` lies in the table's set, and has at least two parts. A part is free where its row of the blocking graph has no
/// arc to another part of `w`; a direction and its opposite are looked at together. It takes no memory.
pub fn linear_step(table: &PlaneTable, w: PartSet) -> Option<Leave>
    requires set { IsSubset w table.now.of }
    requires two { 2 ≤ set.len w }
    ensures member { IfSome result (λ leave. Has w leave.part) }
    ensures size { IfSome result (λ leave. IsWithin DIRECTION leave.d) }
    ensures step { (parts : List PartValue) → WasMadeFrom parts table.now
        → MatchOption result (HasNoLeave parts w) (IsLeave parts w) }
    ensures locked { (parts : List PartValue) → WasMadeFrom parts table.now
        → (result ≡ None) ↔ IsLocked parts w }
{
    match first_vertex(table, w, &Taking) {
        None => None,
        Some(served) => Some(Leave {
            part: served.found,
            d: served.d,
        }),
    }
}
