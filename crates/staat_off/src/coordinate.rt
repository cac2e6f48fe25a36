// The value of a coordinate.
ghost use Rattle.std.specs.Prelude.{◌≡◌, ◌<◌, ◌≤◌, ◌+◌, ◌-◌, ℕ, length, min, MatchOption};
ghost use Rattle.std.specs.Prelude.{if◌then◌else◌};
ghost use Rattle.staat_off.specs.Coordinates.{coordinate_of};
ghost use Rattle.staat_off.specs.Numerals.{IsNumeral};
ghost use Rattle.staat_off.specs.Values.{IsValueOf, IsMagnitude, down, signed, up};
ghost use Rattle.staat_off.specs.Views.{numeral_view, word_view};

use crate::digits::number_up_to;
use crate::numeral::{LONGEST_NUMBER, Numeral, read_numeral};
use crate::refusal::OffRefusal;
use crate::rest::Word;
use crate::trim::{BEYOND, trimmed_of, with_zeros};
use staat_limits::MOST_DIGITS;

/// Every exponent above this decides alike, since a word has fewer digits.
const FAR: u32 = 1000;

/// So many zeros behind a number other than 0 take it above `POINT`.
const TOO_MANY: u32 = 6;

// How far the point moves to the right.
fn right_of(is_down: bool, exponent: u32, digits: u32) -> u32
    requires exponent { exponent ≤ FAR }
    requires digits { digits ≤ MOST_DIGITS }
    ensures { result ≡ (if is_down then digits - exponent else exponent + digits) }
{
    if is_down {
        digits.saturating_sub(exponent)
    } else {
        exponent + digits
    }
}

// How far the point moves to the left.
fn left_of(is_down: bool, exponent: u32, digits: u32) -> u32
    ensures { result ≡ (if is_down then exponent - digits else 0) }
{
    if is_down {
        exponent.saturating_sub(digits)
    } else {
        0
    }
}

// How many zeros stand behind digits that have some already once the point has moved, up to `TOO_MANY`. There is no
// such number where the point comes to lie before the last digit.
fn zeros_behind(zeros: u32, numeral: Numeral<'_>, digits: u32) -> Option<u32>
    requires zeros { zeros ≤ LONGEST_NUMBER }
    requires numeral { IsNumeral (numeral_view numeral) }
    requires digits { digits ≤ MOST_DIGITS }
    ensures { let n = numeral_view numeral.entry in MatchOption result
        (zeros + up n digits < length n.fraction + down n digits)
        (λ x. (y : ℕ) × (y + (length n.fraction + down n digits) ≡ zeros + up n digits)
        × (x ≡ min y TOO_MANY)) }
{
    let exponent = number_up_to(FAR, numeral.exponent);
    let left = numeral.fraction.len() as u32 + left_of(numeral.is_down, exponent, digits);
    let right = zeros + right_of(numeral.is_down, exponent, digits);
    if right < left {
        None
    } else {
        Some((right - left).min(TOO_MANY))
    }
}

// The absolute value, up to `BEYOND`, where it is whole.
fn magnitude_of(numeral: Numeral<'_>, digits: u32) -> Option<u32>
    requires numeral { IsNumeral (numeral_view numeral) }
    requires digits { digits ≤ MOST_DIGITS }
    ensures { let n = numeral_view numeral.entry in MatchOption result
        ((v : ℕ) → IsMagnitude n digits v → ⊥)
        (λ m. (v : ℕ) × IsMagnitude n digits v × (m ≡ min v BEYOND)) }
{
    let trimmed = trimmed_of(numeral);
    if trimmed.mantissa == 0 {
        return Some(0);
    }
    match zeros_behind(trimmed.zeros, numeral, digits) {
        Some(zeros) => Some(with_zeros(trimmed.mantissa, zeros)),
        None => None,
    }
}

fn with_sign(is_negative: bool, magnitude: u32) -> i128
    ensures { result ≡ signed is_negative magnitude }
{
    if is_negative {
        -i128::from(magnitude)
    } else {
        i128::from(magnitude)
    }
}

fn value_of(numeral: Numeral<'_>, at: u64, digits: u32) -> Result<i128, OffRefusal>
    requires numeral { IsNumeral (numeral_view numeral) }
    requires digits { digits ≤ MOST_DIGITS }
    ensures { IsValueOf digits (numeral_view numeral.entry) at result }
{
    match magnitude_of(numeral, digits) {
        None => Err(OffRefusal::NotWhole(at)),
        Some(BEYOND) => Err(OffRefusal::TooBig(at)),
        Some(magnitude) => Ok(with_sign(numeral.is_negative, magnitude)),
    }
}

/// The whole number that a word spells, times 10 to the power of `digits`.
pub(crate) fn coordinate_of(word: Word<'_>, digits: u32) -> Result<i128, OffRefusal>
    requires { digits ≤ MOST_DIGITS }
    ensures { result ≡ coordinate_of digits (word_view word.entry) }
{
    match read_numeral(word.text) {
        None => Err(OffRefusal::BadNumber(word.at)),
        Some(numeral) => value_of(numeral, word.at, digits),
    }
}
