// Differences of the points of two pieces that span space.
ghost use Rattle.std.specs.Prelude.{◌≢◌, ◌<◌, ◌≤◌, pos, length, All, IfSome};
ghost use Rattle.staat_vec.specs.Vectors.{IsWithin, det, dot};
ghost use Rattle.staat_cone.specs.Few.{IsDifferenceStep};

use crate::behind::violator;
use crate::walls::{is_wall, points_of};
use staat_model::Piece;
use staat_vec::{DIFF, NORMAL, POINT, V3, cross_diff, neg, sub};

// a difference that lies farthest off the plane of n to one of the sides, if one lies off it
fn off_plane(n: V3, p: &Piece, q: &Piece) -> Option<V3>
    requires { IsWithin NORMAL n }
    ensures step { IfSome result (IsDifferenceStep p.now q.now) }
    ensures off { IfSome result (λ v. dot v n ≢ pos 0) }
{
    if let Some(v) = violator(n, p, q) {
        return Some(v);
    }
    if let Some(v) = violator(neg(n), p, q) {
        return Some(v);
    }
    None
}

// what leads from one of the points ps to one of the points qs
fn step(ps: &[V3], i: usize, qs: &[V3], j: usize) -> V3
    requires from { i < length ps.now }
    requires to { j < length qs.now }
    requires ps { All (IsWithin POINT) ps.now }
    requires qs { All (IsWithin POINT) qs.now }
    ensures step { IsDifferenceStep ps.now qs.now result }
    ensures within { IsWithin DIFF result }
{
    sub(qs[j], ps[i])
}

// the first step from the first of ps to one of qs, if that is not the same point
fn first_step(ps: &[V3], qs: &[V3]) -> Option<V3>
    requires some { 1 ≤ length ps.now }
    requires from { All (IsWithin POINT) ps.now }
    requires to { All (IsWithin POINT) qs.now }
    ensures step { IfSome result (IsDifferenceStep ps.now qs.now) }
    ensures within { IfSome result (IsWithin DIFF) }
{
    for j in 0..qs.len() {
        let v = step(ps, 0, qs, j);
        if is_wall(v) {
            return Some(v);
        }
    }
    None
}

// the first step from the first of ps to one of qs that is not parallel to u
fn first_apart(ps: &[V3], qs: &[V3], u: V3) -> Option<V3>
    requires some { 1 ≤ length ps.now }
    requires from { All (IsWithin POINT) ps.now }
    requires to { All (IsWithin POINT) qs.now }
    requires apart { IsWithin DIFF u }
    ensures { IfSome result (IsDifferenceStep ps.now qs.now) }
{
    for j in 0..qs.len() {
        let v = step(ps, 0, qs, j);
        if is_wall(cross_diff(u, v)) {
            return Some(v);
        }
    }
    None
}

// The least and the greatest difference, by the order of vectors, which lie on the border of all; or else two steps
// from one point.
fn two_steps(ps: &[V3], qs: &[V3]) -> Option<(V3, V3)>
    requires some_from { 1 ≤ length ps.now }
    requires some_to { 1 ≤ length qs.now }
    requires from { All (IsWithin POINT) ps.now }
    requires to { All (IsWithin POINT) qs.now }
    ensures first { IfSome result (λ s. IsDifferenceStep ps.now qs.now s.0) }
    ensures second { IfSome result (λ s. IsDifferenceStep ps.now qs.now s.1) }
{
    let u = step(ps, ps.len() - 1, qs, 0);
    let v = step(ps, 0, qs, qs.len() - 1);
    if is_wall(cross_diff(u, v)) {
        return Some((u, v));
    }
    let u = first_step(ps, qs)?;
    let v = first_apart(ps, qs, u)?;
    Some((u, v))
}

/// Three of the differences of q and p that span space, if such are found.
pub fn three_steps(p: &Piece, q: &Piece) -> Option<(V3, V3, V3)>
    ensures steps { IfSome result (λ s. IsDifferenceStep p.now q.now s.0
        × IsDifferenceStep p.now q.now s.1 × IsDifferenceStep p.now q.now s.2) }
    ensures within { IfSome result (λ s. IsWithin DIFF s.0 × IsWithin DIFF s.1 × IsWithin DIFF s.2) }
    ensures spanning { IfSome result (λ s. det s.2 s.0 s.1 ≢ pos 0) }
{
    let (u, v) = two_steps(points_of(p), points_of(q))?;
    let n = cross_diff(u, v);
    let w = off_plane(n, p, q)?;
    Some((u, v, w))
}
