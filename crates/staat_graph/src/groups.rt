// Groups of parts that reach each other.
ghost use Rattle.std.specs.Prelude.{◌≡◌, ℕ, ◌+◌, ◌<◌, ◌≤◌, [], ◌∷◌, ◌++◌, MatchOption};
ghost use Rattle.std.specs.Prelude.{take};
ghost use Rattle.staat_model.specs.declared.set.PartSet.{PartSet as PartSetValue};
ghost use Rattle.staat_model.specs.Sets.{Has, IsNonempty};
ghost use Rattle.staat_graph.specs.Graphs.{AreGroups, HasArc, IsFirstSink, IsGroup, IsSink};

use crate::both_ways::BothWays;
use crate::graph::Graph;
use crate::walks::reach;
use staat_limits::MOST_PARTS;
use staat_model::PartSet;

/// Groups of parts: the first `count` sets are in use.
#[derive(Clone, Copy)]
pub struct Groups {
    pub count: u32,
    pub of: [PartSet; 32],
}

/// The group of a part.
fn group_of(g: &BothWays, w: PartSet, p: u32) -> PartSet
    requires { Has w p }
    ensures group { IsGroup (HasArc g.now.ahead.rows) w result }
    ensures own { Has result p }
{
    reach(&g.ahead, w, p).both(reach(&g.back, w, p))
}

/// Puts a set at the end of a list in an array.
fn push_group(of: &mut [PartSet; 32], count: u32, s: PartSet)
    requires { count < 32 }
    ensures { take (count + 1) of.new ≡ take count of.old ++ s ∷ [] }
{
    of[count as usize] = s;
}

/// The groups of parts of `w` that reach each other by walks inside `w`, in order of their least part.
pub fn strong_parts(g: &Graph, w: PartSet) -> Groups
    ensures groups { AreGroups (HasArc g.now.rows) w (take result.count result.of) }
    ensures most { result.count ≤ MOST_PARTS }
{
    // all members are below the number of bits
    let _bits = w.bits();
    let g = BothWays::new(g);
    let mut of = [PartSet::empty(); 32];
    let mut count = 0;
    let mut rest = w;
    for p in 0..MOST_PARTS {
        if !rest.has(p) {
            continue;
        }
        let group = group_of(&g, w, p);
        push_group(&mut of, count, group);
        count += 1;
        rest = rest.without(group);
    }
    Groups { count, of }
}

/// The group of a part, if no arc leaves it for the rest of `w`.
fn sink_at(g: &BothWays, w: PartSet, p: u32) -> Option<PartSet>
    requires { Has w p }
    ensures { MatchOption result ((t : PartSetValue) → IsSink (HasArc g.now.ahead.rows) w t → Has t p → ⊥)
        (λ s. IsSink (HasArc g.now.ahead.rows) w s × Has s p) }
{
    let reached = reach(&g.ahead, w, p);
    if reached.within(reach(&g.back, w, p)) {
        Some(reached)
    } else {
        None
    }
}

/// The group of parts of `w` that no arc leaves for the rest of `w`; where there are several, the one that holds the
/// least part. `w` is not empty.
pub fn sink_of(g: &Graph, w: PartSet) -> PartSet
    requires { IsNonempty w }
    ensures { IsFirstSink (HasArc g.now.rows) w result }
{
    // all members are below the number of bits
    let _bits = w.bits();
    let g = BothWays::new(g);
    for p in 0..MOST_PARTS {
        if w.has(p) {
            if let Some(sink) = sink_at(&g, w, p) {
                return sink;
            }
        }
    }
    unreachable!()
}
