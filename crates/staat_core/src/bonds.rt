// Parts that never come apart, since each two of a chain of them hold each other.
ghost use Rattle.std.specs.Prelude.{◌≡◌, ◌≢◌, ◌⊎◌, ◌<◌, ℕ, List, IsTrue};
ghost use Rattle.staat_vec.specs.declared.vector.V3.{V3 as Vector};
ghost use Rattle.staat_vec.specs.Vectors.{origin};
ghost use Rattle.staat_model.specs.declared.assembly.Part.{Part as PartValue};
ghost use Rattle.staat_model.specs.declared.set.PartSet.{PartSet as PartSetValue};
ghost use Rattle.staat_model.specs.Sets.{Has, IsNonempty, IsSubset};
ghost use Rattle.staat_core.specs.Bonds.{AreTogether};
ghost use Rattle.staat_core.specs.Cores.{IsCore};
ghost use Rattle.staat_core.specs.Sources.{both_ways};

use crate::cores::Core;
use crate::joins::Moving;
use crate::source::PairSource;
use staat_limits::MOST_PARTS;
use staat_model::{Arc, PartSet};

/// How many pairs of pieces bind two parts at least: along each direction one of them blocks, each only along those of
/// an open half-sphere, and three of these do not cover the sphere.
const LEAST_LINKS: u32 = 4;

/// Up to how many pairs are taken at once.
const FEW_LINKS: u32 = 8;

// whether the pair has a piece of each of the parts p and q
fn links(pair: Arc, p: u32, q: u32) -> bool {
    pair.a == p && pair.b == q || pair.a == q && pair.b == p
}

// How many pairs link each two parts. It says which are worth a look, no more.
#[derive(Drop)]
struct LinkCounts {
    counts: [u32; 1024],
}

// the place of the count of p and q
fn place_of(p: u32, q: u32) -> usize {
    (p % 32 * 32 + q % 32) as usize
}

impl LinkCounts {
    // counts one more link from p to q
    fn add(&mut self, p: u32, q: u32) {
        if let Some(count) = self.counts.get_mut(place_of(p, q)) {
            *count = count.saturating_add(1);
        }
    }

    // those of the pairs
    fn of<S: PairSource>(source: &S) -> LinkCounts {
        let mut links = LinkCounts { counts: [0; 1024] };
        for pair in source.pairs() {
            links.add(pair.a, pair.b);
            links.add(pair.b, pair.a);
        }
        links
    }

    // how many pairs link p and q
    fn between(&self, p: u32, q: u32) -> u32 {
        match self.counts.get(place_of(p, q)) {
            Some(count) => *count,
            None => 0,
        }
    }
}

impl Core {
    // takes the pairs of a piece of p and one of q, as far as there is room
    fn take_links<S: PairSource>(&mut self, source: &S, p: u32, q: u32)
        requires { IsCore (S.pairs source.now) (S.speaks source.now) self.old }
        ensures { IsCore (S.pairs source.now) (S.speaks source.now) self.new }
    {
        for pair in source.pairs() {
            if links(*pair, p, q) && !self.take(source, *pair) {
                return;
            }
        }
    }
}

// whether the parts p and q are seen to hold each other along all directions
fn is_bond<S: PairSource>(source: &S, links: &LinkCounts, p: u32, q: u32) -> bool
    requires p { p < MOST_PARTS }
    requires q { q < MOST_PARTS }
    ensures { IsTrue result → (parts : List PartValue) (w : PartSetValue) (d : Vector)
        → S.speaks source.now parts → d ≢ origin → Has w p → Has w q
        → AreTogether parts (both_ways (S.pairs source.now)) w d p q }
{
    let count = links.between(p, q);
    if count < LEAST_LINKS {
        return false;
    }
    let both = PartSet::single(p).union(PartSet::single(q));
    // if the pairs are few the core has all of them, and no other is looked for
    let mut core = Core::empty(count > FEW_LINKS);
    if count <= FEW_LINKS {
        core.take_links(source, p, q);
    }
    core.holds(source, both, Moving::AnySide)
}

// those of some parts that p is seen to be bound to
fn bound_to<S: PairSource>(source: &S, links: &LinkCounts, p: u32, among: PartSet) -> PartSet
    requires { p < MOST_PARTS }
    ensures within { IsSubset result among }
    ensures bound { (parts : List PartValue) (w : PartSetValue) (d : Vector) (q : ℕ) → S.speaks source.now parts
        → d ≢ origin → Has w p → Has w q → Has result q
        → AreTogether parts (both_ways (S.pairs source.now)) w d p q }
{
    let mut bound = PartSet::empty();
    for q in 0..MOST_PARTS {
        if among.has(q) && is_bond(source, links, p, q) {
            bound = bound.union(PartSet::single(q));
        }
    }
    bound
}

/// Whether all parts of `w` are seen to stay together along all directions, since a chain of bonds leads from the
/// least one to each other.
///
/// `w` is not empty. It takes no memory.
pub(crate) fn stays_together<S: PairSource>(source: &S, w: PartSet) -> bool
    requires { IsNonempty w }
    ensures { IsTrue result → (parts : List PartValue) (d : Vector) (p q : ℕ) → S.speaks source.now parts
        → d ≢ origin → Has w p → Has w q → AreTogether parts (both_ways (S.pairs source.now)) w d p q }
{
    // all members are below the number of bits
    let _bits = w.bits();
    let links = LinkCounts::of(source);
    let root = w.least();
    let mut joined = PartSet::single(root);
    let mut left = joined;
    for _k in 0..MOST_PARTS {
        if !left.meets(left) {
            return w.within(joined);
        }
        let p = left.least();
        let rest = w.without(joined);
        let bound = bound_to(source, &links, p, rest);
        joined = joined.union(bound);
        let more = left.union(bound);
        let gone = PartSet::single(p);
        left = more.without(gone);
    }
    w.within(joined)
}
