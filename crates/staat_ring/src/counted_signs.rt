// The signs of the planes at a vertex, and the graph there.
ghost use Rattle.std.specs.Prelude.{◌≡◌, ℕ, ◌+◌, ◌<◌, ◌≤◌, ◌↔◌};
ghost use Rattle.std.specs.Prelude.{IfOk, IfSome, IsSomeAnd, IsTrue, OnErr, OnOk, false, length, replicate, slice_set};
ghost use Rattle.staat_model.specs.Sets.{IsNonempty};
ghost use Rattle.staat_graph.specs.Graphs.{IsStrong};
ghost use Rattle.staat_vec.specs.declared.vector.Sign.TheVariants.{Zero};
ghost use Rattle.staat_ring.specs.BlockCounts.{IsGraphOf, part_pairs};
ghost use Rattle.staat_ring.specs.Pairs.{fresh, no_pair, pair_at};
ghost use Rattle.staat_ring.specs.CountedSigns.{HasBlockingPair, no_state, positive_pairs, positives, state_at};
ghost use Rattle.staat_ring.specs.WholeCircles.{HaveSameFull, IsFull};
ghost use Rattle.staat_ring.specs.SignChanges.{uses, with_pair, with_plane_pair, with_plane_sign, with_sign};

use crate::pairs::PairCounts;
use staat_graph::Graph;
use staat_model::PartSet;
use staat_pairs::SLOTS;
use staat_vec::{OutOfMemory, Sign};
use std::alloc::Global;
use std::marker::Model;

/// A plane: its sign, the numbers of the ordered pairs of pieces of which its normal is a facet, and those of which
/// the negative is. A number stands as often as the pair has the facet.
#[derive(Drop)]
pub struct PlaneState {
    sign: Sign,
    along: Vec<u16>,
    against: Vec<u16>,
}

impl Model for PlaneState {
    ghost use Rattle.staat_ring.specs.CountedSigns.{PlaneState};

    ghost Value = { PlaneState };

    ghost view = { λ s. record { sign = s.sign; along = s.along.items; against = s.against.items } };
}

// the pairs whose facet on the plane k is positive
fn pairs_at(states: &Vec<PlaneState>, k: u32) -> &[u16]
    requires { k < length states.now.items }
    ensures { result.now ≡ positive_pairs (state_at states.now.items k) }
{
    let state = &states[k as usize];
    match state.sign {
        Sign::Neg => state.against.as_slice(),
        Sign::Zero => &[],
        Sign::Pos => state.along.as_slice(),
    }
}

// gives the plane k another sign
fn set_sign_at(states: &mut Vec<PlaneState>, k: u32, sign: Sign)
    requires { k < length states.old.items }
    ensures { states.new.items ≡ slice_set states.old.items k (with_sign sign (state_at states.old.items k)) }
{
    states[k as usize].sign = sign;
}

// one more pair has the normal of the plane k as a facet, or its negative
fn push_at(states: &mut Vec<PlaneState>, k: u32, turned: bool, q: u16) -> Result<(), OutOfMemory>
    requires { k < length states.old.items }
    ensures ok { OnOk result
        (states.new.items ≡ slice_set states.old.items k (with_pair turned q (state_at states.old.items k))) }
    ensures err { OnErr result (states.new.items ≡ states.old.items) }
{
    let state = &mut states[k as usize];
    if turned {
        state.against.push(q)?;
    } else {
        state.along.push(q)?;
    }
    Ok(())
}

/// The signs of planes, with the graph in which an arc stands where all facets of some pair of pieces are positive.
///
/// A facet is positive where its plane has the sign Pos, or Neg if it is the negative of the plane's normal. Seen are
/// the planes, each with its sign and its pairs, and the pairs, each with its parts and the number of its facets.
/// There are at most 4,096 numbers of ordered pairs of pieces. The counts and the graph follow from these, and are
/// kept up to date: a sign that changes costs the pairs of its plane alone.
#[derive(Drop)]
pub struct CountedSigns {
    states: Vec<PlaneState>,
    counts: PairCounts,
}

impl Model for CountedSigns {
    ghost use Rattle.std.specs.Prelude.{map};
    ghost use Rattle.staat_ring.specs.CountedSigns.{Signed};
    ghost use Rattle.staat_ring.specs.SignChanges.{AreSigned, emptied};

    ghost Value = { Signed };

    ghost view = { λ s. record { states = s.states.items; pairs = map emptied s.counts } };

    ghost invariant = { λ s. AreSigned s.states.items s.counts };
}

// planes of the sign Zero through no facet
fn empty_states(alloc: Global, count: u32) -> Result<Vec<PlaneState>, OutOfMemory>
    ensures { IfOk result (λ v. v.items ≡ replicate count no_state) }
{
    let mut states = Vec::new(alloc);
    for _k in 0..count {
        states.push(PlaneState {
            sign: Sign::Zero,
            along: Vec::new(alloc),
            against: Vec::new(alloc),
        })?;
    }
    Ok(states)
}

impl CountedSigns {
    /// So many planes of the sign Zero through no facet, and so many numbers that are no pairs.
    #[tactic(auto, using(crate::proofs::PairNumbers::start_value))]
    pub fn new(alloc: Global, planes: u32, pairs: u32) -> Result<CountedSigns, OutOfMemory>
        requires { pairs ≤ SLOTS }
        ensures { IfOk result (λ s. s ≡ record {
          states = replicate planes no_state;
          pairs = replicate pairs no_pair;
        }) }
    {
        let states = empty_states(alloc, planes)?;
        let counts = PairCounts::new(alloc, pairs)?;
        Ok(CountedSigns { states, counts })
    }

    /// One more facet of the pair `q` lies on the plane `k`: its normal, or the negative if `turned`. The plane has
    /// the sign Zero.
    pub fn push(&mut self, k: u32, turned: bool, q: u16) -> Result<(), OutOfMemory>
        requires plane { k < length self.old.states }
        requires zero { (state_at self.old.states k).sign ≡ Zero }
        requires pair { q < length self.old.pairs }
        requires room { uses q self.old.states + 1 < 65536 }
        ensures { OnOk result (self.new ≡ with_plane_pair k turned q self.old) }
    {
        push_at(&mut self.states, k, turned, q)?;
        Ok(())
    }

    /// Tells the place of the parts of a pair, 32 a + b for the parts `a` and `b`, and how many facets it has. Nothing
    /// was told of the pair before, and none of its facets is positive.
    pub fn want(&mut self, q: u16, wanted: u16, parts: u16)
        requires place { q < length self.old.pairs }
        requires fresh { pair_at self.old.pairs q ≡ no_pair }
        requires none { positives q self.old.states ≡ 0 }
        requires parts { parts < part_pairs }
        ensures { self.new ≡ record {
          states = self.old.states;
          pairs = slice_set self.old.pairs q (fresh wanted parts);
        } }
    {
        self.counts.want(q, wanted, parts);
    }

    /// Gives the plane `k` a sign. Where it has that sign, nothing is done. Tells whether some pair may have positive
    /// facets alone only before, or only now.
    ///
    /// It is put into its callers, since most of them know the sign that is there or the one that is given.
    #[inline(always)]
    pub fn set(&mut self, k: u32, sign: Sign) -> bool
        requires { k < length self.old.states }
        ensures signs { self.new ≡ with_plane_sign k sign self.old }
        ensures same { result ≡ false → HaveSameFull self.old self.new }
    {
        if self.states[k as usize].sign == sign {
            return false;
        }
        // a facet less of each pair in one list is positive, one more of each in the other
        let lost = self.counts.lose_all(pairs_at(&self.states, k));
        set_sign_at(&mut self.states, k, sign);
        let gained = self.counts.gain_all(pairs_at(&self.states, k));
        lost | gained
    }

    /// The first of `count` pairs, from the pair `from` on, of which all facets are positive: how many come before it.
    pub fn first_full(&self, from: u32, count: u32) -> Option<u32>
        requires { from + count ≤ length self.now.pairs }
        ensures full { IfSome result (λ j. (j < count) × IsFull self.now (from + j)) }
        ensures first { (k : ℕ) → k < count → IsFull self.now (from + k) → IsSomeAnd result (λ j. j ≤ k) }
    {
        self.counts.first_full(from, count)
    }

    /// The graph in which an arc stands where all facets of some pair of pieces are positive.
    pub fn graph(&self) -> Graph
        ensures { IsGraphOf (HasBlockingPair self.now) result.rows }
    {
        self.counts.graph()
    }

    /// Whether each part of `w` reaches each other by a walk inside `w` along the arcs of the graph. `w` is not empty.
    pub fn is_strong(&self, w: PartSet) -> bool
        requires { IsNonempty w }
        ensures { IsTrue result ↔ IsStrong (HasBlockingPair self.now) w }
    {
        self.counts.is_strong(w)
    }
}
