// Which parts lead to which along a direction, as far as a core tells.
ghost use Rattle.std.specs.Prelude.{◌≡◌, ◌⊎◌, ◌<◌, ◌↔◌, ℕ, IfNone};
ghost use Rattle.staat_model.specs.declared.set.PartSet.{PartSet as PartSetValue};
ghost use Rattle.staat_model.specs.Sets.{Has, IsNonempty, IsSide};
ghost use Rattle.staat_graph.specs.Graphs.{AreReversed, HasArc, IsShut};
ghost use Rattle.staat_core.specs.Moves.{IsHeldIn, IsMove, MovesPart};

use staat_graph::{Graph, reach};
use staat_limits::MOST_PARTS;
use staat_model::PartSet;

/// What moves away from the rest of a set of parts.
#[derive(Clone, Copy)]
pub enum Moving {
    /// Any parts of it, together.
    AnySide,
    /// One part by itself, or all parts but one.
    OnePart,
}

/// A graph on parts, and the same graph with each arc turned round.
#[derive(Clone, Copy)]
pub(crate) struct Joins {
    pub ahead: Graph,
    pub back: Graph,
}

// adds the arc from a to b to a graph
fn put_arc(graph: &mut Graph, a: u32, b: u32)
    requires a { a < MOST_PARTS }
    requires b { b < MOST_PARTS }
    ensures { (x y : ℕ) → HasArc graph.new.rows x y ↔ (HasArc graph.old.rows x y ⊎ ((x ≡ a) × (y ≡ b))) }
{
    graph.rows[a as usize] = graph.arcs_from(a).union(PartSet::single(b)).bits();
}

impl Joins {
    /// No arcs.
    pub(crate) fn none() -> Joins
        ensures ahead { (a b : ℕ) → HasArc result.ahead.rows a b → ⊥ }
        ensures reversed { AreReversed result.ahead.rows result.back.rows }
    {
        let none = Graph { rows: [0; 32] };
        Joins {
            ahead: none,
            back: none,
        }
    }

    /// Whether the arc from `a` to `b` is there.
    pub(crate) fn has(&self, a: u32, b: u32) -> bool
        requires a { a < MOST_PARTS }
        requires b { b < MOST_PARTS }
    {
        self.ahead.arcs_from(a).has(b)
    }

    /// Adds the arc from `a` to `b`.
    pub(crate) fn put(&mut self, a: u32, b: u32)
        requires a { a < MOST_PARTS }
        requires b { b < MOST_PARTS }
        requires reversed { AreReversed self.old.ahead.rows self.old.back.rows }
        ensures ahead { (x y : ℕ) → HasArc self.new.ahead.rows x y
            → HasArc self.old.ahead.rows x y ⊎ ((x ≡ a) × (y ≡ b)) }
        ensures reversed { AreReversed self.new.ahead.rows self.new.back.rows }
    {
        put_arc(&mut self.ahead, a, b);
        put_arc(&mut self.back, b, a);
    }

    // a side of w from which no arc leads to the rest
    fn shut_side(&self, w: PartSet) -> Option<PartSet>
        requires some { IsNonempty w }
        requires reversed { AreReversed self.now.ahead.rows self.now.back.rows }
        ensures { IfNone result ((s : PartSetValue) → IsSide w s → IsShut (HasArc self.now.ahead.rows) w s → ⊥) }
    {
        let p = w.least();
        let reached = reach(&self.ahead, w, p);
        if !w.within(reached) {
            return Some(reached);
        }
        let reaching = reach(&self.back, w, p);
        if !w.within(reaching) {
            return Some(w.without(reaching));
        }
        None
    }

    // the part p of w, if no arc leads from it to the rest, or the rest, if none leads from there to p
    fn shut_at(&self, w: PartSet, p: u32) -> Option<PartSet>
        requires member { Has w p }
        requires small { p < MOST_PARTS }
        requires reversed { AreReversed self.now.ahead.rows self.now.back.rows }
        ensures { IfNone result (MovesPart (HasArc self.now.ahead.rows) w p → ⊥) }
    {
        let alone = PartSet::single(p);
        let rest = w.without(alone);
        if !self.ahead.arcs_from(p).meets(rest) {
            return Some(alone);
        }
        if !self.back.arcs_from(p).meets(rest) {
            return Some(rest);
        }
        None
    }

    // one part of w, or all but one, from which no arc leads to the rest
    fn shut_part(&self, w: PartSet) -> Option<PartSet>
        requires reversed { AreReversed self.now.ahead.rows self.now.back.rows }
        ensures { IfNone result ((p : ℕ) → Has w p → MovesPart (HasArc self.now.ahead.rows) w p → ⊥) }
    {
        // all members are below the number of bits
        let _bits = w.bits();
        for p in 0..MOST_PARTS {
            if w.has(p) {
                if let Some(s) = self.shut_at(w, p) {
                    return Some(s);
                }
            }
        }
        None
    }

    /// Parts of `w` that may move together, from which no arc leads to the rest of `w`.
    pub(crate) fn shut(&self, w: PartSet, moving: Moving) -> Option<PartSet>
        requires some { IsNonempty w }
        requires reversed { AreReversed self.now.ahead.rows self.now.back.rows }
        ensures { IfNone result (IsHeldIn (HasArc self.now.ahead.rows) moving w) }
    {
        match moving {
            Moving::AnySide => self.shut_side(w),
            Moving::OnePart => self.shut_part(w),
        }
    }
}
