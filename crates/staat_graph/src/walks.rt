// What walks reach.
ghost use Rattle.std.specs.Prelude.{◌≡◌, ℕ, ◌<◌, ◌⊎◌, ◌↔◌, IsTrue, MatchOption};
ghost use Rattle.staat_model.specs.Sets.{Has, IsNonempty, IsSubset, single};
ghost use Rattle.staat_graph.specs.Graphs.{HasArc, IsReach, IsStrong};

use crate::graph::Graph;
use staat_model::PartSet;

/// The set of one of the members alone.
pub fn only(w: PartSet, p: u32) -> PartSet
    requires { Has w p }
    ensures is { result ≡ single p }
    ensures small { p < 32 }
{
    // all members are below the number of bits
    let _bits = w.bits();
    PartSet::single(p)
}

/// A part that is reached and not yet left, or none where no further part of `w` can be reached.
fn next_part(w: PartSet, reached: PartSet, left: PartSet) -> Option<u32>
    ensures { MatchOption result (IsSubset w reached ⊎ IsSubset reached left)
        (λ p. Has reached p × (Has left p → ⊥) × (p < 32)) }
{
    let todo = reached.without(left);
    if w.within(reached) || !todo.meets(reached) {
        None
    } else {
        Some(todo.least())
    }
}

/// The parts of `w` to which a walk inside `w` leads from the part `from` of `w`, itself among them.
pub fn reach(g: &Graph, w: PartSet, from: u32) -> PartSet
    requires { Has w from }
    ensures { IsReach (HasArc g.now.rows) w from result }
{
    let mut reached = only(w, from);
    let mut left = PartSet::empty();
    'parts: while let Some(p) = next_part(w, reached, left) {
        reached = reached.union(g.arcs_from(p).both(w));
        left = left.union(PartSet::single(p));
    }
    reached
}

/// Whether each part of `w` reaches each other by a walk inside `w`. `w` is not empty.
pub fn is_strong(g: &Graph, w: PartSet) -> bool
    requires { IsNonempty w }
    ensures { IsTrue result ↔ IsStrong (HasArc g.now.rows) w }
{
    let p = w.least();
    w.within(reach(g, w, p)) && w.within(reach(&g.reversed(), w, p))
}
