// How a core grows at a direction.
ghost use Rattle.std.specs.Prelude.{◌≡◌, ℕ, List, All, Contains, IfSome, IsTrue};
ghost use Rattle.staat_vec.specs.declared.vector.V3.{V3 as Vector};
ghost use Rattle.staat_vec.specs.Vectors.{IsWithin};
ghost use Rattle.staat_model.specs.declared.assembly.Part.{Part as PartValue};
ghost use Rattle.staat_model.specs.declared.certificate.Arc.{Arc as ArcValue};
ghost use Rattle.staat_model.specs.Sets.{IsNonempty};
ghost use Rattle.staat_graph.specs.Graphs.{AreReversed, HasArc};
ghost use Rattle.staat_core.specs.Cores.{AreLeading, HasGrown, IsCore, core_pairs};
ghost use Rattle.staat_core.specs.Moves.{HoldsMoves};
ghost use Rattle.staat_core.specs.Sources.{IsSmallPair, both_ways};

use crate::cores::Core;
use crate::joins::{Joins, Moving};
use crate::source::PairSource;
use staat_model::{Arc, PartSet};
use staat_planes::Heading;
use staat_vec::{DIRECTION, Normal, SMALL, V3};

/// How often a core grows at most at one direction.
const ROUNDS: u32 = 2016;

/// A pair that is wanted, and how many of its planes the core has not yet.
#[derive(Clone, Copy)]
pub(crate) struct Wanted {
    pub pair: Arc,
    pub planes: u32,
}

// Adds the arc of a pair along a direction, if one of its pieces meets the other there. Where both arcs are there
// already, no facets are looked at.
#[inline(always)]
fn put_pair<S: PairSource>(joins: &mut Joins, source: &S, pair: Arc, heading: &Heading)
    requires pair { Contains (S.pairs source.now) pair }
    requires small { IsSmallPair pair }
    requires low { IsTrue heading.now.fair → IsTrue (S.low source.now) }
    requires reversed { AreReversed joins.old.ahead.rows joins.old.back.rows }
    ensures reversed { AreReversed joins.new.ahead.rows joins.new.back.rows }
    ensures leads { (parts : List PartValue) (pairs : List ArcValue) → S.speaks source.now parts
        → Contains pairs pair → AreLeading parts pairs heading.now.d joins.old.ahead.rows
        → AreLeading parts pairs heading.now.d joins.new.ahead.rows }
{
    if joins.has(pair.a, pair.b) && joins.has(pair.b, pair.a) {
        return;
    }
    let leads = heading.past(source.facets(pair));
    if leads.ahead {
        joins.put(pair.a, pair.b);
    } else if leads.behind {
        joins.put(pair.b, pair.a);
    }
}

// The pairs of a source that block along a direction or its opposite. A pair stands by twice its place, and by one more
// where the second piece meets the first. It says which pairs are worth a look, no more.
#[derive(Drop)]
struct Blocking {
    arcs: [u32; 2016],
    count: usize,
}

// whether both pieces of the pair are of parts of w
fn is_among(pair: Arc, w: PartSet) -> bool
    requires { IsSmallPair pair }
{
    w.has(pair.a) && w.has(pair.b)
}

impl Blocking {
    // puts one more at the end, if there is room
    fn put(&mut self, arc: u32) {
        if let Some(place) = self.arcs.get_mut(self.count) {
            *place = arc;
            self.count = self.count.saturating_add(1);
        }
    }

    // puts the pair with these facets, if it blocks along the direction or its opposite
    fn put_pair(&mut self, facets: &[Normal], place: u32, heading: &Heading)
        requires { IsTrue heading.now.fair → All (IsWithin SMALL) facets.now }
    {
        let arc = place.saturating_mul(2);
        let leads = heading.past(facets);
        if leads.ahead {
            self.put(arc);
        } else if leads.behind {
            self.put(arc.saturating_add(1));
        }
    }

    // those of pieces of w, along the direction or its opposite
    fn at<S: PairSource>(source: &S, w: PartSet, heading: &Heading) -> Blocking
        requires { IsTrue heading.now.fair → IsTrue (S.low source.now) }
    {
        let mut blocking = Blocking {
            arcs: [0; 2016],
            count: 0,
        };
        let mut place: u32 = 0;
        for pair in source.pairs() {
            if is_among(*pair, w) {
                blocking.put_pair(source.facets(*pair), place, heading);
            }
            place = place.saturating_add(1);
        }
        blocking
    }
}

// the pair at a place, if there is one
fn pair_at(pairs: &[Arc], place: u32) -> Option<Arc>
    ensures { IfSome result (Contains pairs.now) }
{
    if (place as usize) < pairs.len() {
        Some(pairs[place as usize])
    } else {
        None
    }
}

// whether the arc of a pair, turned round or not, leads from s to r
fn is_link(pair: Arc, turned: bool, s: PartSet, r: PartSet) -> bool
    requires { IsSmallPair pair }
{
    if turned {
        s.has(pair.b) && r.has(pair.a)
    } else {
        s.has(pair.a) && r.has(pair.b)
    }
}

impl Core {
    // adds the arcs of the pairs along the direction to a graph that has none
    fn put_joins<S: PairSource>(&self, source: &S, heading: &Heading, joins: &mut Joins)
        requires core { IsCore (S.pairs source.now) (S.speaks source.now) self.now }
        requires low { IsTrue heading.now.fair → IsTrue (S.low source.now) }
        requires none { (a b : ℕ) → HasArc joins.old.ahead.rows a b → ⊥ }
        requires reversed { AreReversed joins.old.ahead.rows joins.old.back.rows }
        ensures reversed { AreReversed joins.new.ahead.rows joins.new.back.rows }
        ensures leads { (parts : List PartValue) → S.speaks source.now parts
            → AreLeading parts (core_pairs self.now) heading.now.d joins.new.ahead.rows }
    {
        // the parts of the pairs are below the number of rows
        let _pairs = source.pairs();
        for pair in self.pairs() {
            put_pair(joins, source, *pair, heading);
        }
    }

    // of the best pair so far and another the one whose planes are less wanting
    fn better<S: PairSource>(&self, source: &S, best: Option<Wanted>, pair: Arc) -> Wanted
        requires core { IsCore (S.pairs source.now) (S.speaks source.now) self.now }
        requires pair { Contains (S.pairs source.now) pair }
        requires best { IfSome best (λ b. Contains (S.pairs source.now) b.pair) }
        ensures { Contains (S.pairs source.now) result.pair }
    {
        let facets = source.facets(pair);
        match best {
            None => Wanted {
                pair,
                planes: self.wanting(facets, u32::MAX),
            },
            Some(last) => {
                let planes = self.wanting(facets, last.planes);
                if planes < last.planes {
                    Wanted { pair, planes }
                } else {
                    last
                }
            }
        }
    }

    // A pair of those that block, which leads from s to r: of all of them the first for which the fewest planes are
    // wanting.
    fn wanted<S: PairSource>(
        &self,
        source: &S,
        blocking: &Blocking,
        s: PartSet,
        r: PartSet,
    ) -> Option<Arc>
        requires { IsCore (S.pairs source.now) (S.speaks source.now) self.now }
        ensures { IfSome result (Contains (S.pairs source.now)) }
    {
        let pairs = source.pairs();
        let mut best = None;
        for arc in blocking.arcs.iter().take(blocking.count) {
            let Some(pair) = pair_at(pairs, *arc / 2) else {
                return None;
            };
            if is_link(pair, *arc % 2 == 1, s, r) {
                let found = self.better(source, best, pair);
                if found.planes == 0 {
                    return Some(found.pair);
                }
                best = Some(found);
            }
        }
        match best {
            None => None,
            Some(found) => Some(found.pair),
        }
    }

    /// Adds a pair of the source; false where there is no room.
    pub(crate) fn take<S: PairSource>(&mut self, source: &S, pair: Arc) -> bool
        requires core { IsCore (S.pairs source.now) (S.speaks source.now) self.old }
        requires pair { Contains (S.pairs source.now) pair }
        ensures core { IsCore (S.pairs source.now) (S.speaks source.now) self.new }
        ensures grows { HasGrown self.old self.new }
        ensures listed { IsTrue result → Contains (core_pairs self.new) pair }
    {
        self.add(pair, source.facets(pair))
    }

    // The core grows until nothing of w moves along the direction, as far as it tells; false where it cannot. The graph
    // of its pairs along it is given. What blocks is kept on the stack and is large, and most directions need none.
    #[inline(never)]
    fn grow_at<S: PairSource>(
        &mut self,
        source: &S,
        w: PartSet,
        moving: Moving,
        heading: &Heading,
        graph: Joins,
    ) -> bool
        requires core { IsCore (S.pairs source.now) (S.speaks source.now) self.old }
        requires some { IsNonempty w }
        requires low { IsTrue heading.now.fair → IsTrue (S.low source.now) }
        requires reversed { AreReversed graph.ahead.rows graph.back.rows }
        requires leads { (parts : List PartValue) → S.speaks source.now parts
            → AreLeading parts (core_pairs self.old) heading.now.d graph.ahead.rows }
        ensures core { IsCore (S.pairs source.now) (S.speaks source.now) self.new }
        ensures grows { HasGrown self.old self.new }
        ensures held { IsTrue result → (parts : List PartValue) → S.speaks source.now parts
            → HoldsMoves parts (both_ways (core_pairs self.new)) moving w heading.now.d }
    {
        if !self.grows() {
            return false;
        }
        // the parts of the pairs are below the number of rows
        let _pairs = source.pairs();
        let blocking = Blocking::at(source, w, heading);
        let mut joins = graph;
        for _k in 0..ROUNDS {
            let Some(s) = joins.shut(w, moving) else {
                return true;
            };
            let Some(pair) = self.wanted(source, &blocking, s, w.without(s)) else {
                return false;
            };
            if !self.take(source, pair) {
                return false;
            }
            put_pair(&mut joins, source, pair, heading);
        }
        false
    }

    /// Whether nothing of `w` moves along `d` or along its opposite, as far as the core tells. Where it does not tell
    /// so, it grows by pairs that block there.
    ///
    /// It is false where no pair is found that blocks, so that something moves, or where there is no room.
    pub(crate) fn settle<S: PairSource>(
        &mut self,
        source: &S,
        w: PartSet,
        moving: Moving,
        d: V3,
    ) -> bool
        requires core { IsCore (S.pairs source.now) (S.speaks source.now) self.old }
        requires some { IsNonempty w }
        requires direction { IsWithin DIRECTION d }
        ensures core { IsCore (S.pairs source.now) (S.speaks source.now) self.new }
        ensures grows { HasGrown self.old self.new }
        ensures held { IsTrue result → (parts : List PartValue) → S.speaks source.now parts
            → HoldsMoves parts (both_ways (core_pairs self.new)) moving w d }
    {
        let heading = Heading::of(d, source.has_low_facets());
        let mut joins = Joins::none();
        self.put_joins(source, &heading, &mut joins);
        match joins.shut(w, moving) {
            None => true,
            Some(_) => self.grow_at(source, w, moving, &heading, joins),
        }
    }
}
