// Decimal numerals as words spell them.
ghost use Rattle.std.specs.Prelude.{◌≡◌, ◌≤◌, ◌+◌, length, true, option_map, IfSome};
ghost use Rattle.std.specs.Char.{is_ascii_digit};
ghost use Rattle.std.specs.List.{list_all, prefix_len};
ghost use Rattle.staat_off.specs.Numerals.{IsNumeral, after_digits, after_fraction, after_sign, are_digits};
ghost use Rattle.staat_off.specs.Numerals.{digits_in, exponent_of, fraction_in, is_minus_first, numeral_of};
ghost use Rattle.staat_off.specs.Numerals.{unsigned_of};
ghost use Rattle.staat_off.specs.Views.{numeral_view};

use crate::digits::all_digits;

/// How many bytes a word that spells a number has at most.
pub(crate) const LONGEST_NUMBER: usize = 64;

/// A decimal numeral with a point and an exponent.
#[derive(Clone, Copy)]
pub(crate) struct Numeral<'a> {
    pub(crate) is_negative: bool,
    /// The digits before the point.
    pub(crate) whole: &'a [u8],
    /// The digits behind the point.
    pub(crate) fraction: &'a [u8],
    /// A minus stands before the exponent.
    pub(crate) is_down: bool,
    pub(crate) exponent: &'a [u8],
}

fn digit_count(bytes: &[u8]) -> usize
    ensures count { result ≡ prefix_len is_ascii_digit bytes.now }
    ensures bound { result ≤ length bytes.now }
{
    for (i, byte) in bytes.iter().enumerate() {
        if !byte.is_ascii_digit() {
            return i;
        }
    }
    bytes.len()
}

// The digits in front, and what follows them.
#[tactic(auto, using(crate::proofs::DigitLemmas::all_in_front))]
fn split_digits(bytes: &[u8]) -> (&[u8], &[u8])
    ensures digits { result.0.now ≡ digits_in bytes.entry.now }
    ensures rest { result.1.now ≡ after_digits bytes.entry.now }
    ensures all { list_all is_ascii_digit result.0.now ≡ true }
    ensures len { length result.0.now + length result.1.now ≡ length bytes.entry.now }
{
    bytes.split_at(digit_count(bytes))
}

// Whether a minus stands in front, and what follows the sign.
fn split_sign(bytes: &[u8]) -> (bool, &[u8])
    ensures sign { result.0 ≡ is_minus_first bytes.entry.now }
    ensures rest { result.1.now ≡ after_sign bytes.entry.now }
    ensures len { length result.1.now ≤ length bytes.entry.now }
{
    match bytes {
        [b'-', rest @ ..] => (true, rest),
        [b'+', rest @ ..] => (false, rest),
        _ => (false, bytes),
    }
}

// The digits behind a point in front, and what follows them.
fn split_fraction(bytes: &[u8]) -> (&[u8], &[u8])
    ensures digits { result.0.now ≡ fraction_in bytes.entry.now }
    ensures rest { result.1.now ≡ after_fraction bytes.entry.now }
    ensures all { list_all is_ascii_digit result.0.now ≡ true }
    ensures len { length result.0.now + length result.1.now ≤ length bytes.entry.now }
{
    match bytes {
        [b'.', rest @ ..] => split_digits(rest),
        _ => (&[], bytes),
    }
}

fn are_digits(bytes: &[u8]) -> bool
    ensures { result ≡ are_digits bytes.now }
{
    !bytes.is_empty() && all_digits(bytes)
}

// Whether the exponent leads down, and its digits, where they are all that is left.
#[tactic(auto, unfolding(crate::specs::Numerals::exponent_of))]
fn read_exponent(bytes: &[u8]) -> Option<(bool, &[u8])>
    ensures exact { option_map (λ p. (p.0, p.1.now)) result ≡ exponent_of bytes.entry.now }
    ensures digits { IfSome result (λ p. list_all is_ascii_digit p.1.now ≡ true) }
{
    let [first, rest @ ..] = bytes else {
        return Some((false, bytes));
    };
    let (is_down, digits) = split_sign(rest);
    if (*first == b'e' || *first == b'E') && are_digits(digits) {
        Some((is_down, digits))
    } else {
        None
    }
}

#[tactic(auto, unfolding(crate::specs::Numerals::unsigned_of))]
fn read_unsigned(is_negative: bool, bytes: &[u8]) -> Option<Numeral<'_>>
    requires { length bytes.now ≤ LONGEST_NUMBER }
    ensures exact { option_map numeral_view result ≡ unsigned_of is_negative bytes.entry.now }
    ensures numeral { IfSome result (λ n. IsNumeral (numeral_view n)) }
{
    let (whole, rest) = split_digits(bytes);
    let (fraction, rest) = split_fraction(rest);
    if whole.is_empty() && fraction.is_empty() {
        return None;
    }
    let (is_down, exponent) = read_exponent(rest)?;
    Some(Numeral {
        is_negative,
        whole,
        fraction,
        is_down,
        exponent,
    })
}

/// The numeral that a word of at most 64 bytes spells.
#[tactic(auto, unfolding(crate::specs::Numerals::numeral_of))]
pub(crate) fn read_numeral(word: &[u8]) -> Option<Numeral<'_>>
    ensures exact { option_map numeral_view result ≡ numeral_of word.entry.now }
    ensures numeral { IfSome result (λ n. IsNumeral (numeral_view n)) }
{
    if word.len() > LONGEST_NUMBER {
        return None;
    }
    let (is_negative, rest) = split_sign(word);
    read_unsigned(is_negative, rest)
}
