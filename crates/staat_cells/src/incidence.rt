// Incidences: the signs of a cell, packed so that they are compared at once, and the number of a lower cell on its
// border.
ghost use Rattle.std.specs.Prelude.{◌≡◌, ◌≤◌, ◌^◌, length, take, drop};
ghost use Rattle.staat_model.specs.Cells.{sign_place};
ghost use Rattle.staat_cells.specs.Packing.{packed, incidence_of};

use staat_vec::Sign;

/// How many signs a word of an incidence has at most.
const WORD: usize = 64;

/// How many signs are packed at once.
const HALF: usize = 32;

/// Signs of at most 256 planes, as the digits of four words, and a number.
#[derive(Clone, Copy, PartialEq, Eq, PartialOrd, Ord)]
pub(crate) struct Incidence {
    pub(crate) a: u128,
    pub(crate) b: u128,
    pub(crate) c: u128,
    pub(crate) d: u128,
    pub(crate) of: usize,
}

// where the sign stands in the order of signs
pub(crate) fn place(s: Sign) -> u64
    ensures is { result ≡ sign_place s }
    ensures small { result ≤ 2 }
{
    match s {
        Sign::Neg => 0,
        Sign::Zero => 1,
        Sign::Pos => 2,
    }
}

// at most half a word of signs as digits
fn half(signs: &[Sign]) -> u64
    requires { length signs.now ≤ 32 }
    ensures { result ≡ packed signs.now }
{
    let mut number: u64 = 0;
    for s in signs {
        number = number * 4 + place(*s);
    }
    number
}

// how much the digit before so many others counts
#[tactic(auto, using(crate::proofs::Words::power_is))]
fn power(count: usize) -> u128
    requires { count ≤ 32 }
    ensures { result ≡ 4 ^ count }
{
    1 << (2 * count)
}

// the signs as digits
fn word(signs: &[Sign]) -> u128
    requires { length signs.now ≤ 64 }
    ensures { result ≡ packed signs.now }
{
    if signs.len() <= HALF {
        return half(signs) as u128;
    }
    let second = &signs[HALF..];
    half(&signs[..HALF]) as u128 * power(second.len()) + half(second) as u128
}

// the signs from a place on, as many as a word has
fn part(signs: &[Sign], from: usize) -> &[Sign]
    ensures is { result.now ≡ take 64 (drop from signs.now) }
    ensures short { length result.now ≤ 64 }
{
    if signs.len() <= from {
        return &[];
    }
    let rest = &signs[from..];
    if rest.len() <= WORD {
        rest
    } else {
        &rest[..WORD]
    }
}

/// The signs, packed, with a number.
pub(crate) fn incidence_of(signs: &[Sign], of: usize) -> Incidence
    ensures { result ≡ incidence_of signs.now of }
{
    Incidence {
        a: word(part(signs, 0)),
        b: word(part(signs, WORD)),
        c: word(part(signs, 2 * WORD)),
        d: word(part(signs, 3 * WORD)),
        of,
    }
}
