// Sets of part numbers.
ghost use Rattle.std.specs.Prelude.{◌≡◌, ℕ, ◌<◌, ◌≤◌, ◌↔◌, ◌⊎◌, IsTrue};
ghost use Rattle.std.specs.FinSet as set;
ghost use Rattle.std.specs.Int.{bit_at};
ghost use Rattle.staat_model.specs.Sets.{Has, IsLeastOf, IsNonempty, IsSubset, below, equal_sets, single};

use staat_limits::MOST_PARTS;
use std::marker::Model;

/// A set of part numbers below [`MOST_PARTS`], seen as the finite set of its members.
#[derive(Clone, Copy)]
pub struct PartSet {
    bits: u32,
}

impl Model for PartSet {
    ghost use Rattle.std.specs.Prelude.{◌<◌, ◌^◌};
    ghost use Rattle.std.specs.FinSet as set;
    ghost use Rattle.std.specs.Ordering.{nat_cmp};
    ghost use Rattle.std.specs.Coded.{coded_ℕ};

    ghost Value = { set.FinSet nat_cmp };

    ghost coded = { set.code coded_ℕ };

    ghost use Rattle.std.proofs.Common.{ap};
    ghost use Rattle.staat_model.specs.Bits.{set_of_word, word_of_set};
    ghost use Rattle.staat_model.specs.SetFacts.{word_of_set-set_of_word};

    ghost view = { λ s. set_of_word s.bits };

    ghost invariant = { λ s. s.bits < 2 ^ 32 };

    ghost inverse = { λ v. record { bits = word_of_set v } };

    ghost inverse_ok = { λ a h. ap (λ n. record { bits = n }) (word_of_set-set_of_word a.bits h) };
}

impl PartialEq for PartSet {
    ghost use Rattle.std.specs.Cmp.{decided, partial_equiv_from_equiv};
    ghost use Rattle.staat_model.specs.Sets.{equal_sets};
    ghost use Rattle.staat_model.specs.SetFacts.{equal_sets-decides};

    ghost eq = { equal_sets };

    ghost laws = { partial_equiv_from_equiv (decided equal_sets equal_sets-decides) };

    fn eq(&self, o: &PartSet) -> bool
        ensures eq { result ≡ equal_sets self.now o.now }
        ensures same { IsTrue result ↔ (self.now ≡ o.now) }
    {
        self.bits == o.bits
    }
}

impl Eq for PartSet {
    ghost use Rattle.std.specs.Cmp.{decided};
    ghost use Rattle.staat_model.specs.Sets.{equal_sets};
    ghost use Rattle.staat_model.specs.SetFacts.{equal_sets-decides};

    ghost laws = { decided equal_sets equal_sets-decides };
}

impl PartSet {
    /// The empty set.
    pub fn empty() -> PartSet
        ensures is { result ≡ set.empty }
        ensures members { (q : ℕ) → Has result q → ⊥ }
    {
        PartSet { bits: 0 }
    }

    /// The set that has the part `p` alone. `p` is below [`MOST_PARTS`].
    pub fn single(p: u32) -> PartSet
        requires { p < MOST_PARTS }
        ensures is { result ≡ single p }
        ensures members { (q : ℕ) → Has result q ↔ (q ≡ p) }
    {
        PartSet { bits: 1 << p }
    }

    /// The parts below `n`, which is at most [`MOST_PARTS`].
    pub fn first(n: u32) -> PartSet
        requires { n ≤ MOST_PARTS }
        ensures is { result ≡ below n }
        ensures members { (q : ℕ) → Has result q ↔ (q < n) }
    {
        PartSet {
            bits: ((1u64 << n) - 1) as u32,
        }
    }

    /// The set of the numbers whose bit is set.
    pub fn from_bits(bits: u32) -> PartSet
        ensures { (q : ℕ) → Has result q ↔ (bit_at bits q ≡ 1) }
    {
        PartSet { bits }
    }

    /// The word in which the bits of the members are set. All members are below [`MOST_PARTS`].
    pub fn bits(self) -> u32
        ensures bit { (q : ℕ) → Has self q ↔ (bit_at result q ≡ 1) }
        ensures small { (q : ℕ) → Has self q → q < MOST_PARTS }
    {
        self.bits
    }

    /// Whether the part `p` is a member. `p` is below [`MOST_PARTS`].
    pub fn has(self, p: u32) -> bool
        requires { p < MOST_PARTS }
        ensures { result ≡ set.contains self p }
    {
        self.bits >> p & 1 == 1
    }

    /// The number of members.
    pub fn count(self) -> u32
        ensures is { result ≡ set.len self }
        ensures small { result ≤ MOST_PARTS }
    {
        self.bits.count_ones()
    }

    /// The least member. The set is not empty.
    pub fn least(self) -> u32
        requires { IsNonempty self }
        ensures least { IsLeastOf self result }
        ensures small { result < MOST_PARTS }
    {
        self.bits.trailing_zeros()
    }

    /// The members of one or of both.
    pub fn union(self, o: PartSet) -> PartSet
        ensures is { result ≡ set.union self o }
        ensures members { (q : ℕ) → Has result q ↔ (Has self q ⊎ Has o q) }
    {
        PartSet {
            bits: self.bits | o.bits,
        }
    }

    /// The members that are not in `o`.
    pub fn without(self, o: PartSet) -> PartSet
        ensures is { result ≡ set.difference self o }
        ensures members { (q : ℕ) → Has result q ↔ (Has self q × (Has o q → ⊥)) }
    {
        PartSet {
            bits: self.bits & !o.bits,
        }
    }

    /// The members of both.
    pub fn both(self, o: PartSet) -> PartSet
        ensures is { result ≡ set.intersection self o }
        ensures members { (q : ℕ) → Has result q ↔ (Has self q × Has o q) }
    {
        PartSet {
            bits: self.bits & o.bits,
        }
    }

    /// Whether each member is in `o`.
    pub fn within(self, o: PartSet) -> bool
        ensures { IsTrue result ↔ IsSubset self o }
    {
        self.bits & !o.bits == 0
    }

    /// Whether some member is in `o`.
    pub fn meets(self, o: PartSet) -> bool
        ensures { IsTrue result ↔ ((q : ℕ) × Has self q × Has o q) }
    {
        self.bits & o.bits != 0
    }
}
