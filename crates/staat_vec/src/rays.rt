// The primitive vector on a ray, and the canonical one of two opposite vectors.
ghost use Rattle.std.specs.Prelude.{◌≡◌, ◌≢◌, ◌≤◌, ◌≤ℤ◌, ◌*◌, ◌%◌, ◌^◌, ℕ, min, pos, int_div};
ghost use Rattle.std.specs.Int.{IsGcd, trailing_zeros, w64};
ghost use Rattle.staat_vec.specs.Vectors.{IsWithin, cross, origin};
ghost use Rattle.staat_vec.specs.Primitives.{
  IsPrimitiveOf,
  IsCanon,
  content,
  primitive,
  first_nonzero,
  canon,
};

use crate::products::{minor, neg};
use crate::vector::{DIRECTION, NORMAL, V3};

// the odd part of a number other than 0
fn odd_part(a: u64) -> u64
    requires { 1 ≤ a }
    ensures odd { result % 2 ≡ 1 }
    ensures whole { a ≡ result * 2 ^ trailing_zeros w64 a }
{
    a >> a.trailing_zeros()
}

// by differences of odd numbers (Stein 1967), without a division
fn gcd_with_odd(odd: u64, other: u64) -> u64
    requires { odd % 2 ≡ 1 }
    ensures { IsGcd odd other result }
{
    let mut x = odd;
    let mut y = other;
    while y != 0 && x != 1 {
        let z = odd_part(y);
        if x < z {
            y = z - x;
        } else {
            y = x - z;
            x = z;
        }
    }
    x
}

// how often 2 divides both numbers, which are not 0
fn common_twos(a: u64, b: u64) -> u32
    requires a { 1 ≤ a }
    requires b { 1 ≤ b }
    ensures { result ≡ min (trailing_zeros w64 a) (trailing_zeros w64 b) }
{
    let first = a.trailing_zeros();
    let second = b.trailing_zeros();
    if first <= second { first } else { second }
}

// on words of the machine
fn gcd_of_words(a: u64, b: u64) -> u64
    ensures { IsGcd a b result }
{
    if a == 0 {
        return b;
    }
    if b == 0 {
        return a;
    }
    gcd_with_odd(odd_part(a), odd_part(b)) << common_twos(a, b)
}

// by Euclid's algorithm; most vectors have small components
fn gcd(a: u128, b: u128) -> u128
    ensures { IsGcd a b result }
{
    if a <= u64::MAX as u128 && b <= u64::MAX as u128 {
        return gcd_of_words(a as u64, b as u64) as u128;
    }
    let mut x = a;
    let mut y = b;
    while y != 0 {
        let rest = x % y;
        x = y;
        y = rest;
    }
    x
}

// the greatest common divisor of the components
fn content(v: V3) -> u128
    requires some { v ≢ origin }
    requires size { IsWithin DIRECTION v }
    ensures value { result ≡ content v }
    ensures some { 1 ≤ result }
    ensures size { result ≤ DIRECTION }
{
    gcd(
        gcd(v.x.unsigned_abs(), v.y.unsigned_abs()),
        v.z.unsigned_abs(),
    )
}

// the greatest number of a signed word
const WORD: u128 = i64::MAX as u128;

// a component without the divisor, where both are words of the machine
fn quotient_of_words(a: i64, divisor: i64) -> i64
    requires { pos 1 ≤ℤ divisor }
    ensures { result ≡ int_div a divisor }
{
    a / divisor
}

// a component without the divisor; most vectors are primitive as they are, and most have small components
fn quotient(a: i128, divisor: u128) -> i128
    requires some { 1 ≤ divisor }
    requires size { divisor ≤ DIRECTION }
    ensures { result ≡ int_div a (pos divisor) }
{
    if divisor == 1 {
        return a;
    }
    if a.unsigned_abs() <= WORD && divisor <= WORD {
        return quotient_of_words(a as i64, divisor as i64) as i128;
    }
    a / divisor as i128
}

/// The primitive vector on the ray of `v`: `v` divided by the greatest common divisor of its
/// components, by Euclid's algorithm.
///
/// `v` is not the origin, and its components are at most [`DIRECTION`] in absolute value. The result
/// keeps each bound that `v` has.
pub fn primitive(v: V3) -> V3
    requires some { v ≢ origin }
    requires size { IsWithin DIRECTION v }
    ensures value { result ≡ primitive v }
    ensures ray { IsPrimitiveOf v result }
    ensures size { (bound : ℕ) → IsWithin bound v → IsWithin bound result }
{
    let divisor = content(v);
    V3 {
        x: quotient(v.x, divisor),
        y: quotient(v.y, divisor),
        z: quotient(v.z, divisor),
    }
}

/// The first component that is not 0, and 0 for the zero vector.
pub fn first_nonzero(v: V3) -> i128
    ensures { result ≡ first_nonzero v }
{
    if v.x != 0 {
        v.x
    } else if v.y != 0 {
        v.y
    } else {
        v.z
    }
}

/// The first component of the cross product of two normals that is not 0, and 0 where they are parallel.
///
/// The components of both are at most [`NORMAL`] in absolute value. The components behind it are not computed.
pub fn first_of_cross(a: V3, b: V3) -> i128
    requires a { IsWithin NORMAL a }
    requires b { IsWithin NORMAL b }
    ensures { result ≡ first_nonzero (cross a b) }
{
    let x = minor(a.y, a.z, b.y, b.z);
    if x != 0 {
        return x;
    }
    let y = minor(a.z, a.x, b.z, b.x);
    if y != 0 {
        return y;
    }
    minor(a.x, a.y, b.x, b.y)
}

/// The canonical one of `v` and its negative: the one whose first component other than 0 is
/// positive.
///
/// `v` is not the origin, and its components are at most [`DIRECTION`] in absolute value. The result
/// keeps each bound that `v` has.
pub fn canon(v: V3) -> V3
    requires some { v ≢ origin }
    requires size { IsWithin DIRECTION v }
    ensures value { result ≡ canon v }
    ensures first { IsCanon result }
    ensures size { (bound : ℕ) → IsWithin bound v → IsWithin bound result }
{
    if first_nonzero(v) > 0 { v } else { neg(v) }
}
