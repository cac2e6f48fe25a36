// Digits without the zeros behind them.
ghost use Rattle.std.specs.Prelude.{◌≡◌, ◌≤◌, ◌<◌, ◌+◌, ◌*◌, ◌^◌, ◌++◌, ℕ, length};
ghost use Rattle.std.specs.Prelude.{min, true};
ghost use Rattle.std.specs.Char.{is_ascii_digit};
ghost use Rattle.std.specs.List.{list_all};
ghost use Rattle.std.specs.Str.Parse.{digits_value, digits_value_after};
ghost use Rattle.staat_off.specs.Numerals.{IsNumeral};
ghost use Rattle.staat_vec.specs.declared.vector.TheConstants.{POINT};
ghost use Rattle.staat_off.specs.Trims.{Trims};
ghost use Rattle.staat_off.specs.Views.{numeral_view};

use crate::numeral::{LONGEST_NUMBER, Numeral};
use staat_vec::POINT;

/// Stands for every number above `POINT`.
pub(crate) const BEYOND: u32 = POINT as u32 + 1;

/// What is kept of the number that digits write: what stands before its last zeros, up to `BEYOND`, and how many
/// zeros there are.
#[derive(Clone, Copy)]
pub(crate) struct Trimmed {
    pub(crate) mantissa: u32,
    pub(crate) zeros: u32,
    ghost capped: { mantissa ≤ POINT + 1 },
}

/// The number with so many zeros behind it, up to `BEYOND`.
pub(crate) fn with_zeros(mantissa: u32, places: u32) -> u32
    requires { mantissa ≤ BEYOND }
    ensures { result ≡ min (mantissa * 10 ^ places) BEYOND }
{
    let mut value = mantissa;
    for _ in 0..places {
        value = (value * 10).min(BEYOND);
    }
    value
}

// One digit more.
fn pushed(front: Trimmed, digit: u8) -> Trimmed
    requires digit { digit < 10 }
    requires few { front.zeros < 1000 }
    ensures trims { (value : ℕ) → Trims front.mantissa front.zeros value → Trims result.mantissa result.zeros
        (value * 10 + digit) }
    ensures zeros { result.zeros ≤ front.zeros + 1 }
{
    if digit != 0 {
        let raised = with_zeros(front.mantissa, front.zeros + 1);
        let mantissa = (raised + u32::from(digit)).min(BEYOND);
        return Trimmed { mantissa, zeros: 0 };
    }
    if front.mantissa == 0 {
        return front;
    }
    Trimmed {
        mantissa: front.mantissa,
        zeros: front.zeros + 1,
    }
}

fn pushed_all(front: Trimmed, digits: &[u8]) -> Trimmed
    requires all { list_all is_ascii_digit digits.now ≡ true }
    requires few { front.zeros + length digits.now < 1000 }
    ensures trims { (value : ℕ) → Trims front.mantissa front.zeros value → Trims result.mantissa result.zeros
        (digits_value_after 10 value digits.now) }
    ensures zeros { result.zeros ≤ front.zeros + length digits.now }
{
    let mut trimmed = front;
    for digit in digits {
        trimmed = pushed(trimmed, *digit - b'0');
    }
    trimmed
}

/// The digits of a numeral, without the zeros behind them.
pub(crate) fn trimmed_of(numeral: Numeral<'_>) -> Trimmed
    requires { IsNumeral (numeral_view numeral) }
    ensures trims { Trims result.mantissa result.zeros (digits_value 10 (numeral.entry.whole.now
        ++ numeral.entry.fraction.now)) }
    ensures zeros { result.zeros ≤ LONGEST_NUMBER }
{
    let none = Trimmed {
        mantissa: 0,
        zeros: 0,
    };
    pushed_all(pushed_all(none, numeral.whole), numeral.fraction)
}
