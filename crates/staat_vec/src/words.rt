// Products in words of 64 bits, where these hold them: each takes one multiplication of the machine.
ghost use Rattle.std.specs.Prelude.{◌≡◌, ◌≤◌, ◌*◌, ◌-ℤ◌, ◌*ℤ◌, ◌↔◌, All, IsTrue, unsigned_abs};
ghost use Rattle.staat_vec.specs.Vectors.{IsWithin, cross, det, dot, sign};

use crate::normal::Normal;
use crate::products::sign_of;
use crate::vector::{DIFF, NORMAL, Sign, V3};

/// How great a component of a small vector is at most: a word holds three of its products with components of a normal.
pub const SMALL: u128 = 1 << 22;

/// How great a component of two vectors is at most whose cross product words hold.
pub const BROAD: u128 = 1 << 30;

// how great a component of that cross product is at most
const MINOR: u128 = 1 << 61;

/// Whether no component is greater than the bound in absolute value.
pub fn is_within(v: V3, bound: u128) -> bool
    ensures { IsTrue result ↔ IsWithin bound v }
{
    v.x.unsigned_abs() <= bound && v.y.unsigned_abs() <= bound && v.z.unsigned_abs() <= bound
}

/// Whether no component of these normals is greater than the bound in absolute value.
pub fn are_within(normals: &[Normal], bound: u128) -> bool
    ensures { IsTrue result ↔ All (IsWithin bound) normals.now }
{
    for n in normals {
        if !is_within(n.vector(), bound) {
            return false;
        }
    }
    true
}

// a component, which fits a word
fn word(a: i128) -> i64
    requires { unsigned_abs a ≤ NORMAL }
    ensures { result ≡ a }
{
    a as i64
}

// the exact product of words
fn word_product(a: i64, b: i64) -> i64
    requires { unsigned_abs a * unsigned_abs b ≤ NORMAL * SMALL }
    ensures value { result ≡ a *ℤ b }
    ensures size { unsigned_abs result ≤ NORMAL * SMALL }
{
    a * b
}

impl Normal {
    /// The product of the normal and a small vector, exact. The components of `d` are at most [`SMALL`] in absolute
    /// value.
    pub fn small_dot(&self, d: V3) -> i64
        requires { IsWithin SMALL d }
        ensures value { result ≡ dot self.now d }
        ensures turned { result ≡ dot d self.now }
    {
        word_product(self.x, word(d.x))
            + word_product(self.y, word(d.y))
            + word_product(self.z, word(d.z))
    }
}

/// The product of a normal and a small vector, exact.
///
/// The components of `n` are at most [`NORMAL`] in absolute value, and those of `d` at most [`SMALL`].
pub fn small_dot(n: V3, d: V3) -> i64
    requires n { IsWithin NORMAL n }
    requires d { IsWithin SMALL d }
    ensures value { result ≡ dot n d }
    ensures turned { result ≡ dot d n }
{
    Normal::of(n).small_dot(d)
}

// a word as a component
fn long(a: i64) -> i128
    ensures { result ≡ a }
{
    a as i128
}

/// The sign of the product of a normal and a small vector, with the conditions of [`small_dot`].
pub fn small_sign(n: V3, d: V3) -> Sign
    requires n { IsWithin NORMAL n }
    requires d { IsWithin SMALL d }
    ensures value { result ≡ sign (dot n d) }
    ensures turned { result ≡ sign (dot d n) }
{
    sign_of(long(small_dot(n, d)))
}

// the minor of the rows (a, b) and (c, d)
fn word_minor(a: i64, b: i64, c: i64, d: i64) -> i64
    requires a { unsigned_abs a ≤ BROAD }
    requires b { unsigned_abs b ≤ BROAD }
    requires c { unsigned_abs c ≤ BROAD }
    requires d { unsigned_abs d ≤ BROAD }
    ensures value { result ≡ (a *ℤ d) -ℤ (b *ℤ c) }
    ensures size { unsigned_abs result ≤ MINOR }
{
    word_product(a, d) - word_product(b, c)
}

// a minor of components of two differences of points
fn minor_of(a: i128, b: i128, c: i128, d: i128) -> i128
    requires a { unsigned_abs a ≤ DIFF }
    requires b { unsigned_abs b ≤ DIFF }
    requires c { unsigned_abs c ≤ DIFF }
    requires d { unsigned_abs d ≤ DIFF }
    ensures { result ≡ (a *ℤ d) -ℤ (b *ℤ c) }
{
    long(word_minor(word(a), word(b), word(c), word(d)))
}

// the cross product of two differences of points
fn word_cross(a: V3, b: V3) -> V3
    requires a { IsWithin DIFF a }
    requires b { IsWithin DIFF b }
    ensures { result ≡ cross a b }
{
    V3 {
        x: minor_of(a.y, a.z, b.y, b.z),
        y: minor_of(a.z, a.x, b.z, b.x),
        z: minor_of(a.x, a.y, b.x, b.y),
    }
}

/// The cross product of two differences of points, exact.
///
/// The components of both are at most [`DIFF`] in absolute value, and those of the result at most
/// [`NORMAL`].
pub fn cross_diff(a: V3, b: V3) -> V3
    requires a { IsWithin DIFF a }
    requires b { IsWithin DIFF b }
    ensures value { result ≡ cross a b }
    ensures size { IsWithin NORMAL result }
{
    word_cross(a, b)
}

// the exact product of a normal's component and a minor
fn minor_product(a: i64, minor: i64) -> i128
    requires a { unsigned_abs a ≤ NORMAL }
    requires minor { unsigned_abs minor ≤ MINOR }
    ensures value { result ≡ a *ℤ minor }
    ensures size { unsigned_abs result ≤ NORMAL * MINOR }
{
    long(a) * long(minor)
}

impl Normal {
    /// The sign of `det(self, a, b)`, as [`order_on`](crate::order_on) has it. The components of `a` and `b` are at most
    /// [`BROAD`] in absolute value.
    pub fn broad_order(&self, a: &Normal, b: &Normal) -> Sign
        requires a { IsWithin BROAD a.now }
        requires b { IsWithin BROAD b.now }
        ensures { result ≡ sign (det self.now a.now b.now) }
    {
        sign_of(
            minor_product(self.x, word_minor(a.y, a.z, b.y, b.z))
                + minor_product(self.y, word_minor(a.z, a.x, b.z, b.x))
                + minor_product(self.z, word_minor(a.x, a.y, b.x, b.y)),
        )
    }
}
