// Packed signs in which a zero gives way to another sign.
ghost use Rattle.std.specs.Prelude.{◌≡◌, ◌<◌, ◌≤◌, IfOk, List, drop, length, min, slice_set, take};
ghost use Rattle.staat_vec.specs.declared.vector.Sign.{Sign as SignValue};
ghost use Rattle.staat_vec.specs.Vectors.{IsWithin};
ghost use Rattle.staat_model.specs.Cells.{is_zero, signs_of};
ghost use Rattle.staat_cells.specs.ZeroSigns.{IsZeroAt, zero_places};
ghost use Rattle.staat_cells.specs.Compositions.{composed};
ghost use Rattle.staat_cells.specs.Packing.{packed, incidence_of};
ghost use Rattle.staat_cells.specs.Beside.{filled};

use crate::incidence::Incidence;
use staat_vec::{DIRECTION, Normal, OutOfMemory, Sign, V3, sign_dot};
use std::alloc::Global;

// the word with t in place of the zero at k
#[tactic(auto, using(crate::proofs::Words::word_up, crate::proofs::Words::word_down, crate::proofs::Words::weight_is))]
fn changed_word(word: u128, count: usize, k: usize, t: Sign) -> u128
    requires place { k < count }
    requires word { count ≤ 64 }
    ensures { (s : List SignValue) → packed s ≡ word → length s ≡ count → IsZeroAt s k
        → result ≡ packed (slice_set s k t) }
{
    let weight: u128 = 1 << (2 * (count - 1 - k));
    match t {
        Sign::Neg => word.wrapping_sub(weight),
        Sign::Zero => word,
        Sign::Pos => word.wrapping_add(weight),
    }
}

// how many signs a word has, where so many are left
fn word_count(left: usize) -> usize
    ensures is { result ≡ min 64 left }
    ensures most { result ≤ 64 }
{
    if left < 64 { left } else { 64 }
}

// the word of the signs from a place on, of so many in all, with t in place of the zero at k
#[tactic(auto, using(crate::proofs::Words::word_given, crate::proofs::Words::word_kept))]
fn changed_part(word: u128, from: usize, count: usize, k: usize, t: Sign) -> u128
    requires { k < count }
    ensures { (s : List SignValue) → word ≡ packed (take 64 (drop from s)) → length s ≡ count → IsZeroAt s k
        → result ≡ packed (take 64 (drop from (slice_set s k t))) }
{
    if k < from {
        word
    } else if k - from < 64 {
        changed_word(word, word_count(count - from), k - from, t)
    } else {
        word
    }
}

/// The incidence with `t` in place of the zero at `k`, of so many signs.
pub(crate) fn changed(incidence: Incidence, count: usize, k: usize, t: Sign) -> Incidence
    requires { k < count }
    ensures { (s : List SignValue) → incidence ≡ incidence_of s incidence.of → length s ≡ count
        → IsZeroAt s k → result ≡ incidence_of (slice_set s k t) incidence.of }
{
    Incidence {
        a: changed_part(incidence.a, 0, count, k, t),
        b: changed_part(incidence.b, 64, count, k, t),
        c: changed_part(incidence.c, 128, count, k, t),
        d: changed_part(incidence.d, 192, count, k, t),
        of: incidence.of,
    }
}

fn is_zero(s: Sign) -> bool
    ensures { result ≡ is_zero s }
{
    match s {
        Sign::Zero => true,
        _ => false,
    }
}

/// The places of the zeros.
#[tactic(auto, using(crate::proofs::ZeroPlaces::zero_found, crate::proofs::ZeroPlaces::other_found, crate::proofs::ZeroPlaces::all_found))]
pub(crate) fn zeros_of(alloc: Global, signs: &[Sign]) -> Result<Vec<usize>, OutOfMemory>
    ensures { IfOk result (λ zeros. zeros.items ≡ zero_places 0 signs.now) }
{
    let mut zeros = Vec::new(alloc);
    for j in 0..signs.len() {
        if is_zero(signs[j]) {
            zeros.push(j)?;
        }
    }
    Ok(zeros)
}

/// The incidence towards `w` of the cell with these signs, the zeros at these places, whose own incidence is `base`:
/// in place of each zero stands the sign of the plane at `w`.
#[tactic(auto, using(crate::proofs::ZeroPlaces::towards_none))]
pub(crate) fn incidence_towards(
    planes: &[Normal],
    signs: &[Sign],
    zeros: &[usize],
    base: Incidence,
    w: V3,
) -> Incidence
    requires direction { IsWithin DIRECTION w }
    requires few { length planes.now ≤ 256 }
    requires signs { length signs.now ≡ length planes.now }
    requires zeros { zeros.now ≡ zero_places 0 signs.now }
    requires base { base ≡ incidence_of signs.now base.of }
    ensures { result ≡ incidence_of (composed signs.now (signs_of planes.now w)) base.of }
{
    let mut incidence = base;
    for i in 0..zeros.len() {
        let j = zeros[i];
        incidence = changed(incidence, signs.len(), j, sign_dot(planes[j].vector(), w));
    }
    incidence
}

/// A one in each digit of a word.
const ONES: u128 = 0x5555_5555_5555_5555_5555_5555_5555_5555;

// the word with t in place of each zero, which alone has an odd digit
#[tactic(auto, using(crate::proofs::Words::word_neg, crate::proofs::Words::word_zero, crate::proofs::Words::word_pos))]
fn filled_word(word: u128, t: Sign) -> u128
    ensures { (s : List SignValue) → packed s ≡ word → length s ≤ 64 → result ≡ packed (filled t s) }
{
    let zeros = word & ONES;
    match t {
        Sign::Neg => word.wrapping_sub(zeros),
        Sign::Zero => word,
        Sign::Pos => word.wrapping_add(zeros),
    }
}

/// The incidence with `t` in place of each zero.
pub(crate) fn incidence_filled(base: Incidence, t: Sign) -> Incidence
    ensures { (s : List SignValue) → base ≡ incidence_of s base.of
        → result ≡ incidence_of (filled t s) base.of }
{
    Incidence {
        a: filled_word(base.a, t),
        b: filled_word(base.b, t),
        c: filled_word(base.c, t),
        d: filled_word(base.d, t),
        of: base.of,
    }
}
