// Walls between two pieces, and whether a direction leads ahead of all of them.
ghost use Rattle.std.specs.Prelude.{◌≡◌, ◌≢◌, ◌↔◌, ◌⊎◌, ◌≤◌, ◌≤ℤ◌, ◌<ℤ◌};
ghost use Rattle.std.specs.Prelude.{pos, List, length, Contains, All, IsTrue, MatchBool};
ghost use Rattle.staat_vec.specs.declared.vector.V3.{V3 as Vector};
ghost use Rattle.staat_vec.specs.Vectors.{IsWithin, dot, origin};
ghost use Rattle.staat_model.specs.Cones.{IsAbove};
ghost use Rattle.staat_model.specs.Facets.{IsFacet};
ghost use Rattle.staat_model.specs.Meeting.{Meets};
ghost use Rattle.staat_model.specs.Pieces.{IsPiece};
ghost use Rattle.staat_model.specs.Walls.{IsBeyond};

use crate::behind::violator;
use staat_model::Piece;
use staat_vec::{Course, DIFF, DIRECTION, NORMAL, ORIGIN, POINT, V3, small_dot};

/// Whether v is a wall's normal: any vector but zero.
pub fn is_wall(v: V3) -> bool
    ensures { IsTrue result ↔ (v ≢ origin) }
{
    v != ORIGIN
}

/// How far v lies along n.
pub fn along(v: V3, n: V3) -> i64
    requires vector { IsWithin DIFF v }
    requires normal { IsWithin NORMAL n }
    ensures { result ≡ dot v n }
{
    small_dot(n, v)
}

/// Whether each of the vectors lies on the positive side of n, or across n.
///
/// The search ends at the first that does not.
pub fn is_above(n: V3, vs: &[V3]) -> bool
    requires normal { IsWithin NORMAL n }
    requires vectors { All (IsWithin DIFF) vs.now }
    ensures { IsTrue result ↔ IsAbove n vs.now }
{
    for v in vs {
        if along(*v, n) < 0 {
            return false;
        }
    }
    true
}

/// A point, and how far it lies along a normal.
#[derive(Clone, Copy)]
pub struct Placed {
    pub point: V3,
    pub along: i64,
}

fn place(n: V3, point: V3) -> Placed
    requires normal { IsWithin NORMAL n }
    requires point { IsWithin POINT point }
    ensures point { result.point ≡ point }
    ensures along { result.along ≡ dot n point }
{
    Placed {
        point,
        along: small_dot(n, point),
    }
}

fn nearer(a: Placed, b: Placed) -> Placed
    ensures either { (result ≡ a) ⊎ (result ≡ b) }
    ensures first { result.along ≤ℤ a.along }
    ensures second { result.along ≤ℤ b.along }
{
    if a.along < b.along { a } else { b }
}

fn farther(a: Placed, b: Placed) -> Placed
    ensures either { (result ≡ a) ⊎ (result ≡ b) }
    ensures first { a.along ≤ℤ result.along }
    ensures second { b.along ≤ℤ result.along }
{
    if a.along < b.along { b } else { a }
}

/// One of the points that lie least far along n.
pub fn lowest(n: V3, points: &[V3]) -> Placed
    requires normal { IsWithin NORMAL n }
    requires some { 1 ≤ length points.now }
    requires points { All (IsWithin POINT) points.now }
    ensures member { Contains points.now result.point }
    ensures along { result.along ≡ dot n result.point }
    ensures least { All (λ p. result.along ≤ℤ dot n p) points.now }
{
    let mut best = place(n, points[0]);
    for p in points {
        best = nearer(place(n, *p), best);
    }
    best
}

/// One of the points that lie farthest along n.
pub fn highest(n: V3, points: &[V3]) -> Placed
    requires normal { IsWithin NORMAL n }
    requires some { 1 ≤ length points.now }
    requires points { All (IsWithin POINT) points.now }
    ensures member { Contains points.now result.point }
    ensures along { result.along ≡ dot n result.point }
    ensures most { All (λ p. dot n p ≤ℤ result.along) points.now }
{
    let mut best = place(n, points[0]);
    for p in points {
        best = farther(place(n, *p), best);
    }
    best
}

/// Whether the first lies less far along its normal than the second.
pub fn is_nearer(a: Placed, b: Placed) -> bool
    ensures { MatchBool result (a.along <ℤ b.along) (b.along ≤ℤ a.along) }
{
    a.along < b.along
}

/// The points of a piece, with what the functions here ask of them.
pub fn points_of(p: &Piece) -> &[V3]
    ensures points { result.now ≡ p.now }
    ensures piece { IsPiece p.now }
    ensures some { 1 ≤ length result.now }
    ensures within { All (IsWithin POINT) result.now }
{
    p.points()
}

// whether all of q lies as far along n as all of p, or farther
fn is_beyond(n: V3, p: &Piece, q: &Piece) -> bool
    requires normal { IsWithin NORMAL n }
    ensures { IsTrue result ↔ IsBeyond p.now q.now n }
{
    violator(n, p, q).is_none()
}

/// Whether `n` is the normal of a wall between the pieces: not zero, and every point of `q` is as far along it as
/// every point of `p`, or farther.
///
/// The components of `n` are at most [`NORMAL`] in absolute value. The time is linear in the number of points.
pub fn separates(n: V3, p: &Piece, q: &Piece) -> bool
    requires normal { IsWithin NORMAL n }
    ensures { IsTrue result ↔ ((n ≢ origin) × IsBeyond p.now q.now n) }
{
    is_wall(n) && is_beyond(n, p, q)
}

// whether d leads ahead of all the normals
fn leads_ahead(facets: &[V3], d: V3) -> bool
    requires normals { All (IsWithin NORMAL) facets.now }
    requires direction { IsWithin DIRECTION d }
    ensures { IsTrue result ↔ All (λ n. pos 0 <ℤ dot n d) facets.now }
{
    let course = Course::of(d);
    for n in facets {
        if course.dot(*n) <= 0 {
            return false;
        }
    }
    true
}

/// Whether `d` leads ahead of all the facets. Of the facets of two pieces it says whether the first, moved along `d`,
/// meets the second (by Farkas' lemma).
///
/// The components of the facets are at most [`NORMAL`] in absolute value, and those of `d` at most [`DIRECTION`]. The
/// search ends at the first facet that `d` does not lead ahead of.
pub fn blocks(facets: &[V3], d: V3) -> bool
    requires normals { All (IsWithin NORMAL) facets.now }
    requires direction { IsWithin DIRECTION d }
    ensures ahead { IsTrue result ↔ All (λ n. pos 0 <ℤ dot n d) facets.now }
    ensures meets { (p q : List Vector) → IsPiece p → IsPiece q →
        ((n : Vector) → Contains facets.now n ↔ IsFacet p q n) → IsTrue result ↔ Meets p q d }
{
    leads_ahead(facets, d)
}
