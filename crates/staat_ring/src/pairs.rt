// How many facets of each ordered pair of pieces are positive.
ghost use Rattle.std.specs.Prelude.{◌≡◌, ℕ, ◌+◌, ◌*◌, ◌<◌, ◌≤◌, ◌^◌, ◌↔◌, ◌==◌, All, IfOk, IfSome, IsSomeAnd};
ghost use Rattle.std.specs.Prelude.{IsTrue, false, if◌then◌else◌, length, not, replicate, slice_set, true};
ghost use Rattle.staat_model.specs.Sets.{IsNonempty};
ghost use Rattle.staat_graph.specs.Graphs.{IsStrong};
ghost use Rattle.staat_ring.specs.BlockCounts.{IsGraphOf, part_pairs};
ghost use Rattle.staat_ring.specs.Pairs.{AreFullAlike, CountBlocks, HasFullPair, fresh, gained, is_full};
ghost use Rattle.staat_ring.specs.Pairs.{no_pair, occurs, pair_at};

use crate::block_counts::BlockCounts;
use staat_graph::Graph;
use staat_model::PartSet;
use staat_pairs::SLOTS;
use staat_vec::OutOfMemory;
use std::alloc::Global;
use std::marker::Model;

/// An ordered pair of pieces of different parts.
#[derive(Clone, Copy)]
pub struct PairCount {
    /// How many of its facets are positive.
    pub positive: u16,
    /// How many facets it has. It blocks where all are positive.
    pub wanted: u16,
    /// The place of its parts: 32 a + b for a piece of the part `a` and one of the part `b`.
    pub parts: u16,
}

/// The ordered pairs of pieces by number, with the graph of their parts in which an arc stands where some pair blocks.
///
/// There are at most 4,096 numbers. One that is no pair's wants one facet and has none, so it does not block.
#[derive(Drop)]
pub struct PairCounts {
    pairs: Vec<PairCount>,
    blocked: BlockCounts,
}

impl Model for PairCounts {
    ghost use Rattle.std.specs.Prelude.{List};
    ghost use Rattle.staat_ring.specs.declared.pairs.PairCount.{PairCount};
    ghost use Rattle.staat_ring.specs.Pairs.{CountBlocks};

    ghost Value = { List PairCount };

    ghost view = { λ c. c.pairs.items };

    ghost invariant = { λ c. CountBlocks c.pairs.items c.blocked };
}

impl PairCounts {
    /// So many numbers that are no pairs.
    pub fn new(alloc: Global, count: u32) -> Result<PairCounts, OutOfMemory>
        requires { count ≤ SLOTS }
        ensures { IfOk result (λ c. c ≡ replicate count no_pair) }
    {
        let pair = PairCount {
            positive: 0,
            wanted: 1,
            parts: 0,
        };
        let pairs = vec![in alloc; pair; count as usize]?;
        let blocked = BlockCounts::new(alloc)?;
        Ok(PairCounts { pairs, blocked })
    }

    // The pair q is this one now, of the same parts as before if all facets were positive. It is told whether all are
    // positive in one of the two alone.
    fn write(&mut self, q: u16, pair: PairCount, told: bool)
        requires place { q < length self.old }
        requires parts { pair.parts < part_pairs }
        requires home { is_full (pair_at self.old q) ≡ true → pair.parts ≡ (pair_at self.old q).parts }
        requires told { is_full pair ≡ (if told then not (is_full (pair_at self.old q)) else is_full (pair_at self.old q)) }
        ensures pairs { self.new ≡ slice_set self.old q pair }
        ensures full { told ≡ false → AreFullAlike self.old self.new }
    {
        self.pairs[q as usize] = pair;
        if told {
            if pair.wanted <= pair.positive {
                self.blocked.more(pair.parts);
            } else {
                self.blocked.less(pair.parts);
            }
        }
    }

    /// Tells the place of the parts of a pair and how many facets it has. Nothing was told of it before.
    pub fn want(&mut self, q: u16, wanted: u16, parts: u16)
        requires place { q < length self.old }
        requires fresh { pair_at self.old q ≡ no_pair }
        requires parts { parts < part_pairs }
        ensures { self.new ≡ slice_set self.old q (fresh wanted parts) }
    {
        let pair = PairCount {
            positive: 0,
            wanted,
            parts,
        };
        self.write(q, pair, wanted == 0);
    }

    // One more facet of the pair is positive. Tells whether all of them are now.
    fn gain(&mut self, q: u16) -> bool
        requires place { q < length self.old }
        requires room { (pair_at self.old q).positive + 1 < 2 ^ 16 }
        ensures length { length self.new ≡ length self.old }
        ensures each { (p : ℕ) → pair_at self.new p ≡ gained (if q == p then 1 else 0) (pair_at self.old p) }
        ensures full { result ≡ false → AreFullAlike self.old self.new }
    {
        let mut pair = self.pairs[q as usize];
        pair.positive += 1;
        let told = pair.positive == pair.wanted;
        self.write(q, pair, told);
        told
    }

    // One less is. Tells whether all of them were.
    fn lose(&mut self, q: u16) -> bool
        requires place { q < length self.old }
        requires some { 0 < (pair_at self.old q).positive }
        ensures length { length self.new ≡ length self.old }
        ensures each { (p : ℕ) → pair_at self.old p ≡ gained (if q == p then 1 else 0) (pair_at self.new p) }
        ensures full { result ≡ false → AreFullAlike self.old self.new }
    {
        let mut pair = self.pairs[q as usize];
        let told = pair.positive == pair.wanted;
        pair.positive -= 1;
        self.write(q, pair, told);
        told
    }

    /// One more facet of each pair in the list is positive, for a pair that stands twice two more. Tells whether some
    /// pair has come to positive facets alone.
    #[tactic(auto, using(crate::proofs::ArcLaw::not_yet))]
    pub fn gain_all(&mut self, qs: &[u16]) -> bool
        requires places { All (λ q. q < length self.old) qs.now }
        requires room { (q : ℕ) → (pair_at self.old q).positive + occurs q qs.now < 2 ^ 16 }
        ensures length { length self.new ≡ length self.old }
        ensures each { (q : ℕ) → pair_at self.new q ≡ gained (occurs q qs.now) (pair_at self.old q) }
        ensures full { result ≡ false → AreFullAlike self.old self.new }
    {
        let mut told = false;
        for q in qs {
            if self.gain(*q) {
                told = true;
            }
        }
        told
    }

    /// One less of each is positive. Tells whether some pair has positive facets alone no more.
    #[tactic(auto, using(crate::proofs::ArcLaw::not_yet))]
    pub fn lose_all(&mut self, qs: &[u16]) -> bool
        requires places { All (λ q. q < length self.old) qs.now }
        requires some { (q : ℕ) → occurs q qs.now ≤ (pair_at self.old q).positive }
        ensures length { length self.new ≡ length self.old }
        ensures each { (q : ℕ) → pair_at self.old q ≡ gained (occurs q qs.now) (pair_at self.new q) }
        ensures full { result ≡ false → AreFullAlike self.old self.new }
    {
        let mut told = false;
        for q in qs {
            if self.lose(*q) {
                told = true;
            }
        }
        told
    }

    /// The first of `count` pairs, from the pair `from` on, of which all facets are positive: how many come before it.
    pub fn first_full(&self, from: u32, count: u32) -> Option<u32>
        requires { from + count ≤ length self.now }
        ensures full { IfSome result (λ j. (j < count) × IsTrue (is_full (pair_at self.now (from + j)))) }
        ensures first { (k : ℕ) → k < count → IsTrue (is_full (pair_at self.now (from + k)))
            → IsSomeAnd result (λ j. j ≤ k) }
    {
        let start = from as usize;
        let row = &self.pairs[start..start + count as usize];
        for j in 0..count {
            let pair = row[j as usize];
            if pair.wanted <= pair.positive {
                return Some(j);
            }
        }
        None
    }

    /// The graph in which an arc stands where some pair blocks.
    pub fn graph(&self) -> Graph
        ensures { IsGraphOf (HasFullPair self.now) result.rows }
    {
        self.blocked.graph()
    }

    /// Whether each part of `w` reaches each other by a walk inside `w` along the arcs of the graph. `w` is not empty.
    pub fn is_strong(&self, w: PartSet) -> bool
        requires { IsNonempty w }
        ensures { IsTrue result ↔ IsStrong (HasFullPair self.now) w }
    {
        // all members are below the number of bits
        let _bits = w.bits();
        self.blocked.is_strong(w)
    }
}
