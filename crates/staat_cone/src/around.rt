// The walls of the cone of a list of vectors that go through one of them, by two scans around it.
ghost use Rattle.std.specs.Prelude.{◌≢◌, ◌↔◌, pos, ◌<ℤ◌, All, Any, Contains, IsTrue, OnOk, IfSome};
ghost use Rattle.std.specs.Prelude.{IfNone};
ghost use Rattle.staat_vec.specs.Vectors.{IsWithin, det, dot};
ghost use Rattle.staat_cone.specs.Pairs.{AddsEdges};
ghost use Rattle.staat_cone.specs.Scans.{AreFurthest, IsApart, IsLeftmost};

use crate::edges::add_edges;
use crate::walls::{along, is_wall};
use staat_vec::{DIFF, NORMAL, OutOfMemory, V3, cross_diff, neg};

// whether x is not parallel to v
fn is_apart(x: V3, v: V3) -> bool
    requires vector { IsWithin DIFF x }
    requires around { IsWithin DIFF v }
    ensures { IsTrue result ↔ IsApart v x }
{
    is_wall(cross_diff(x, v))
}

// the first of the vectors that is not parallel to v
fn first_candidate(vs: &[V3], v: V3) -> Option<V3>
    requires vectors { All (IsWithin DIFF) vs.now }
    requires around { IsWithin DIFF v }
    ensures member { IfSome result (Contains vs.now) }
    ensures apart { IfSome result (IsApart v) }
    ensures none { IfNone result (¬ Any (IsApart v) vs.now) }
{
    for x in vs {
        if is_apart(*x, v) {
            return Some(*x);
        }
    }
    None
}

// whether x lies to the left of v and the vector whose cross product with v is the normal
fn is_farther(x: V3, normal: V3) -> bool
    requires vector { IsWithin DIFF x }
    requires normal { IsWithin NORMAL normal }
    ensures { IsTrue result ↔ (pos 0 <ℤ dot x normal) }
{
    along(x, normal) > 0
}

// The vector furthest to the left of v, by one scan that begins at first. The determinant of v, the best so far and a
// vector that is parallel to v is 0, so that such a vector is passed over.
fn leftmost(vs: &[V3], v: V3, first: V3) -> V3
    requires vectors { All (IsWithin DIFF) vs.now }
    requires around { IsWithin DIFF v }
    requires member { Contains vs.now first }
    requires apart { IsApart v first }
    ensures member { Contains vs.now result }
    ensures apart { IsApart v result }
    ensures furthest { IsLeftmost vs.now vs.now v first result }
{
    let mut best = first;
    let mut normal = cross_diff(best, v);
    for x in vs {
        if is_farther(*x, normal) {
            best = *x;
            normal = cross_diff(best, v);
        }
    }
    best
}

// the two scans, which begin at first
fn furthest_from(vs: &[V3], v: V3, first: V3) -> (V3, V3)
    requires vectors { All (IsWithin DIFF) vs.now }
    requires around { IsWithin DIFF v }
    requires member { Contains vs.now first }
    requires apart { IsApart v first }
    ensures { AreFurthest vs.now v result.0 result.1 }
{
    let left = leftmost(vs, v, first);
    let right = leftmost(vs, neg(v), first);
    (left, right)
}

/// The two of the differences that lie furthest to either side of `v`, by two scans. Each wall through `v` and a
/// difference that is not parallel to it goes through one of the two: where all of the differences lie on the positive
/// side of `n`, and `v` and such a difference lie on its plane, so does one of the two.
///
/// Some of the differences is not parallel to `v`, nor are the two. Components are at most [`DIFF`] in absolute value.
/// It takes no memory. The idea is that of wrapping a gift (Chand and Kapur, 1970): about an edge the hull is turned
/// to the point that lies furthest.
pub fn furthest(diffs: &[V3], v: V3) -> (V3, V3)
    requires differences { All (IsWithin DIFF) diffs.now }
    requires around { IsWithin DIFF v }
    requires some { Any (IsApart v) diffs.now }
    ensures { AreFurthest diffs.now v result.0 result.1 }
{
    match first_candidate(diffs, v) {
        Some(first) => furthest_from(diffs, v, first),
        None => unreachable!(),
    }
}

// whether v lies off the plane of u and w
fn is_off(v: V3, u: V3, w: V3) -> bool
    requires first { IsWithin DIFF v }
    requires second { IsWithin DIFF u }
    requires third { IsWithin DIFF w }
    ensures { IsTrue result ↔ (det v u w ≢ pos 0) }
{
    along(v, cross_diff(u, w)) != 0
}

// adds the edges through v and one of the two
fn add_through_either(
    vs: &[V3],
    v: V3,
    ends: (V3, V3),
    out: &mut Vec<V3>,
) -> Result<(), OutOfMemory>
    requires vectors { All (IsWithin DIFF) vs.now }
    requires around { IsWithin DIFF v }
    requires ends { AreFurthest vs.now v ends.0 ends.1 }
    ensures { OnOk result (AddsEdges vs.now v out.old.items out.new.items) }
{
    let (left, right) = ends;
    add_edges(vs, left, v, out)?;
    // else the two normals are one, or opposite
    if is_off(left, right, v) {
        add_edges(vs, right, v, out)?;
    }
    Ok(())
}

/// Adds the edges through v and the two of the vectors that lie furthest to either side of it, which are multiples of
/// all facets that go through v.
pub fn add_furthest(vs: &[V3], v: V3, out: &mut Vec<V3>) -> Result<(), OutOfMemory>
    requires vectors { All (IsWithin DIFF) vs.now }
    requires around { IsWithin DIFF v }
    ensures { OnOk result (AddsEdges vs.now v out.old.items out.new.items) }
{
    match first_candidate(vs, v) {
        Some(_) => add_through_either(vs, v, furthest(vs, v), out),
        None => Ok(()),
    }
}
