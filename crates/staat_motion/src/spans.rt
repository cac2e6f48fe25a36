// How far the points of a piece reach along a normal.
ghost use Rattle.std.specs.Prelude.{◌≡◌, ◌⊎◌, ◌≤◌, ◌≤ℤ◌, All, length};
ghost use Rattle.staat_vec.specs.Vectors.{IsWithin, dot};
ghost use Rattle.staat_motion.specs.Spans.{IsJoinedSpan, IsSpan};

use staat_vec::{Course, DIRECTION, POINT, V3};

/// The least and the greatest place of a piece's points along a normal: their products with it.
#[derive(Clone, Copy)]
pub struct Span {
    pub low: i128,
    pub high: i128,
}

// how far a point reaches along a direction
fn point_span(course: &Course, point: V3) -> Span
    requires point { IsWithin POINT point }
    ensures low { result.low ≡ dot course.now point }
    ensures high { result.high ≡ dot course.now point }
{
    let place = course.dot(point);
    Span {
        low: place,
        high: place,
    }
}

fn lesser(a: i128, b: i128) -> i128
    ensures either { (result ≡ a) ⊎ (result ≡ b) }
    ensures first { result ≤ℤ a }
    ensures second { result ≤ℤ b }
{
    if a < b { a } else { b }
}

fn greater(a: i128, b: i128) -> i128
    ensures either { (result ≡ a) ⊎ (result ≡ b) }
    ensures first { a ≤ℤ result }
    ensures second { b ≤ℤ result }
{
    if a < b { b } else { a }
}

// the least span that has both in it
fn joined(a: Span, b: Span) -> Span
    ensures low { (result.low ≡ a.low) ⊎ (result.low ≡ b.low) }
    ensures high { (result.high ≡ a.high) ⊎ (result.high ≡ b.high) }
    ensures low_a { result.low ≤ℤ a.low }
    ensures low_b { result.low ≤ℤ b.low }
    ensures high_a { a.high ≤ℤ result.high }
    ensures high_b { b.high ≤ℤ result.high }
{
    Span {
        low: lesser(a.low, b.low),
        high: greater(a.high, b.high),
    }
}

/// How far two lists of points reach together along a normal along which each reaches so far.
pub fn joined_span(a: Span, b: Span) -> Span
    ensures { IsJoinedSpan a b result }
{
    joined(a, b)
}

/// How far the points reach along `n`, by one pass over them.
///
/// The components of `n` are at most [`DIRECTION`] in absolute value.
pub fn span_of(n: V3, points: &[V3]) -> Span
    requires normal { IsWithin DIRECTION n }
    requires some { 1 ≤ length points.now }
    requires points { All (IsWithin POINT) points.now }
    ensures { IsSpan n points.now result }
{
    let course = Course::of(n);
    let mut span = point_span(&course, points[0]);
    for p in points {
        span = joined(point_span(&course, *p), span);
    }
    span
}
