// Trees of arcs, which show that parts reach each other.
ghost use Rattle.std.specs.Prelude.{◌≡◌, ℕ, ◌+◌, ◌<◌, ◌≤◌, ◌↔◌, IfNone, IfSome};
ghost use Rattle.std.specs.Prelude.{MatchOption, length, map, take};
ghost use Rattle.std.specs.FinSet as set;
ghost use Rattle.staat_model.specs.Bridges.{IsNextBridge, swapped};
ghost use Rattle.staat_model.specs.Sets.{Has, IsNonempty, IsSubset, single};
ghost use Rattle.staat_graph.specs.Graphs.{AreTrees, HasArc, IsStrong};
ghost use Rattle.staat_graph.specs.Growing.{Grows, HasNoBridge, IsFrontier};

use crate::both_ways::BothWays;
use crate::graph::Graph;
use crate::walks::only;
use staat_model::PartSet;

/// Arcs by which the parts of a set are reached from its least part, and arcs by which they reach it, each a pair of
/// the part that it leads from and the part that it leads to. The first `count` of each list are in use.
#[derive(Clone, Copy, PartialEq, Eq)]
pub struct Trees {
    pub count: u32,
    pub outs: [(u32, u32); 32],
    pub ins: [(u32, u32); 32],
}

/// A tree that was grown: its arcs, and the parts that they reach.
#[derive(Clone, Copy)]
struct Grown {
    count: u32,
    arcs: [(u32, u32); 32],
    reached: PartSet,
}

/// The arc to the least part that can be reached next, from the least part from which it can. `ahead` has the parts of
/// `w` to which an arc leads from one that is reached.
fn next_arc(g: &BothWays, w: PartSet, reached: PartSet, ahead: PartSet) -> Option<(u32, u32)>
    requires { IsFrontier (HasArc g.now.ahead.rows) w reached ahead }
    ensures { MatchOption result (HasNoBridge (HasArc g.now.ahead.rows) w reached)
        (λ arc. IsNextBridge (HasArc g.now.ahead.rows) w reached arc.0 arc.1 × (arc.1 < 32)) }
{
    let fresh = ahead.without(reached);
    if !fresh.meets(ahead) {
        return None;
    }
    let to = fresh.least();
    let from = g.back.arcs_from(to).both(reached).least();
    Some((from, to))
}

/// The tree of next arcs from a part of `w`, as far as it grows.
fn grow(g: &BothWays, w: PartSet, start: u32) -> Grown
    requires { Has w start }
    ensures grows { Grows (HasArc g.now.ahead.rows) w (single start) (take result.count result.arcs) result.reached }
    ensures within { IsSubset result.reached w }
    ensures size { set.len result.reached ≡ result.count + 1 }
    ensures long { length result.arcs ≡ 32 }
    ensures whole { HasNoBridge (HasArc g.now.ahead.rows) w result.reached }
{
    let mut arcs = [(0u32, 0u32); 32];
    let mut reached = only(w, start);
    let mut ahead = g.ahead.arcs_from(start).both(w);
    let most = w.count() - 1;
    for k in 0..most {
        match next_arc(g, w, reached, ahead) {
            None => {
                return Grown {
                    count: k,
                    arcs,
                    reached,
                };
            }
            Some(arc) => {
                arcs[k as usize] = arc;
                reached = reached.union(PartSet::single(arc.1));
                ahead = ahead.union(g.ahead.arcs_from(arc.1).both(w));
            }
        }
    }
    Grown {
        count: most,
        arcs,
        reached,
    }
}

/// Exchanges the ends of each arc.
fn exchange_ends(arcs: &mut [(u32, u32)])
    ensures { arcs.new ≡ map swapped arcs.old }
{
    for arc in arcs.iter_mut() {
        *arc = (arc.1, arc.0);
    }
}

/// The trees by which the least part of `w` reaches each other part, and each other part reaches it, by walks inside
/// `w`; none exactly where `w` is not strong. `w` is not empty.
///
/// In the tree outwards the next arc leads to the least part that is not reached yet and has an arc from one that is,
/// and it comes from the least such. In the tree back it comes from the least part that is not reached yet and has an
/// arc to one that is, and it leads to the least such.
pub fn trees_of(g: &Graph, w: PartSet) -> Option<Trees>
    requires { IsNonempty w }
    ensures none { IfNone result (IsStrong (HasArc g.now.rows) w → ⊥) }
    ensures trees { IfSome result (λ t. AreTrees (HasArc g.now.rows) w t) }
{
    let g = BothWays::new(g);
    let root = w.least();
    let outs = grow(&g, w, root);
    if !w.within(outs.reached) {
        return None;
    }
    let ins = grow(&g.turned(), w, root);
    if !w.within(ins.reached) {
        return None;
    }
    let count = outs.count;
    let outs = outs.arcs;
    let mut ins = ins.arcs;
    exchange_ends(&mut ins);
    Some(Trees { count, outs, ins })
}
