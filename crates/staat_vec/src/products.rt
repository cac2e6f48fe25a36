// Sums, differences and products of vectors, each exact.
ghost use Rattle.std.specs.Prelude.{◌≡◌, ◌≤◌, ◌*◌, ◌-ℤ◌, ◌*ℤ◌, ℕ, unsigned_abs};
ghost use Rattle.staat_vec.specs.Vectors.{IsWithin, plus, minus, negative, cross, dot, det, sign};

use crate::vector::{DIFF, DIRECTION, EDGE, NORMAL, POINT, Sign, V3, VERTEX};

/// The difference `a - b` of two points, exact.
///
/// The components of both are at most [`POINT`] in absolute value, and those of the result at most
/// [`DIFF`].
pub fn sub(a: V3, b: V3) -> V3
    requires a { IsWithin POINT a }
    requires b { IsWithin POINT b }
    ensures value { result ≡ minus a b }
    ensures size { IsWithin DIFF result }
{
    V3 {
        x: a.x - b.x,
        y: a.y - b.y,
        z: a.z - b.z,
    }
}

/// The sum of two representatives of cells, exact.
///
/// The components of both are at most [`EDGE`] in absolute value, and those of the result at most
/// [`DIRECTION`]. The sum of two vertices is within [`EDGE`] again.
pub fn add(a: V3, b: V3) -> V3
    requires a { IsWithin EDGE a }
    requires b { IsWithin EDGE b }
    ensures value { result ≡ plus a b }
    ensures size { IsWithin DIRECTION result }
    ensures vertices { IsWithin VERTEX a → IsWithin VERTEX b → IsWithin EDGE result }
{
    V3 {
        x: a.x + b.x,
        y: a.y + b.y,
        z: a.z + b.z,
    }
}

/// The negative of a direction, exact and as great as `a`.
///
/// The components are at most [`DIRECTION`] in absolute value.
pub fn neg(a: V3) -> V3
    requires { IsWithin DIRECTION a }
    ensures value { result ≡ negative a }
    ensures size { (bound : ℕ) → IsWithin bound a → IsWithin bound result }
{
    V3 {
        x: -a.x,
        y: -a.y,
        z: -a.z,
    }
}

// the exact product of a normal's and a direction's component
fn product(a: i128, b: i128) -> i128
    requires a { unsigned_abs a ≤ NORMAL }
    requires b { unsigned_abs b ≤ DIRECTION }
    ensures value { result ≡ a *ℤ b }
    ensures size { unsigned_abs result ≤ NORMAL * DIRECTION }
{
    a * b
}

// the minor of the rows (a, b) and (c, d), of components of two normals
pub(crate) fn minor(a: i128, b: i128, c: i128, d: i128) -> i128
    requires a { unsigned_abs a ≤ NORMAL }
    requires b { unsigned_abs b ≤ NORMAL }
    requires c { unsigned_abs c ≤ NORMAL }
    requires d { unsigned_abs d ≤ NORMAL }
    ensures value { result ≡ (a *ℤ d) -ℤ (b *ℤ c) }
    ensures size { unsigned_abs result ≤ VERTEX }
{
    product(a, d) - product(b, c)
}

/// The cross product of two normals, exact.
///
/// The components of both are at most [`NORMAL`] in absolute value, and those of the result at most
/// [`VERTEX`].
pub fn cross_normal(a: V3, b: V3) -> V3
    requires a { IsWithin NORMAL a }
    requires b { IsWithin NORMAL b }
    ensures value { result ≡ cross a b }
    ensures size { IsWithin VERTEX result }
{
    V3 {
        x: minor(a.y, a.z, b.y, b.z),
        y: minor(a.z, a.x, b.z, b.x),
        z: minor(a.x, a.y, b.x, b.y),
    }
}

/// The product of a normal and a direction, exact.
///
/// The components of `n` are at most [`NORMAL`] in absolute value, those of `d` at most
/// [`DIRECTION`], and the result at most three times the product of the two.
pub fn dot(n: V3, d: V3) -> i128
    requires n { IsWithin NORMAL n }
    requires d { IsWithin DIRECTION d }
    ensures value { result ≡ dot n d }
    ensures size { unsigned_abs result ≤ 3 * (NORMAL * DIRECTION) }
{
    product(n.x, d.x) + product(n.y, d.y) + product(n.z, d.z)
}

/// The determinant `a . (b x c)` of three normals, exact.
///
/// Their components are at most [`NORMAL`] in absolute value, and the result at most three times the
/// product of [`NORMAL`] and [`VERTEX`].
pub fn det(a: V3, b: V3, c: V3) -> i128
    requires a { IsWithin NORMAL a }
    requires b { IsWithin NORMAL b }
    requires c { IsWithin NORMAL c }
    ensures value { result ≡ det a b c }
    ensures size { unsigned_abs result ≤ 3 * (NORMAL * VERTEX) }
{
    dot(a, cross_normal(b, c))
}

pub(crate) fn sign_of(value: i128) -> Sign
    ensures { result ≡ sign value }
{
    if value < 0 {
        Sign::Neg
    } else if value == 0 {
        Sign::Zero
    } else {
        Sign::Pos
    }
}

/// The sign of the product of a normal and a direction, with the conditions of [`dot`].
pub fn sign_dot(n: V3, d: V3) -> Sign
    requires n { IsWithin NORMAL n }
    requires d { IsWithin DIRECTION d }
    ensures { result ≡ sign (dot n d) }
{
    sign_of(dot(n, d))
}

/// The sign of `det(n, a, b)`, with the conditions of [`det`]: the order of the vectors `n x a` and
/// `n x b` on the circle of the plane `n`.
///
/// Since `(n x a) x (n x b) = det(n, a, b) * n`, the sign is positive where the second is less than a
/// half turn from the first, counterclockwise as seen from the tip of `n`, and zero where the two are
/// parallel. So no product of the vectors themselves is formed.
pub fn order_on(n: V3, a: V3, b: V3) -> Sign
    requires n { IsWithin NORMAL n }
    requires a { IsWithin NORMAL a }
    requires b { IsWithin NORMAL b }
    ensures { result ≡ sign (det n a b) }
{
    sign_of(det(n, a, b))
}
