// How far pieces reach along the axes and the normals across a direction.
ghost use Rattle.std.specs.Prelude.{◌≤◌, ◌≤ℤ◌, ◌↔◌, All, IfOk, IsTrue, length};
ghost use Rattle.std.specs.List.{AllZip};
ghost use Rattle.staat_motion.specs.Shadows.{
  AreFrameSizes,
  ArePartBounds,
  ArePartShadows,
  IsApartAlong,
  IsApartAcross,
  IsApartOnAxes,
  HasGap,
  IsBounds,
  IsJoinedShadow,
  IsShadow,
  IsWholeOf,
};

use crate::bounds::{Bounds, Boxes, joined_bounds, points_of};
use crate::frame::Frame;
use crate::spans::{Span, joined_span, span_of};
use staat_model::{Part, Piece};
use staat_vec::{Listed, OutOfMemory, V3};
use std::alloc::Global;

/// How far a piece or a part reaches along each axis (its box), and along each normal across a direction.
#[derive(Clone, Copy)]
pub struct Shadow {
    pub bounds: Bounds,
    pub across_x: Span,
    pub across_y: Span,
    pub across_z: Span,
}

/// The shadows of the pieces of a part.
pub type Shadows = Listed<Shadow>;

// the shadow of a piece, of which the box is known
fn shadow_of(frame: &Frame, piece: &Piece, bounds: &Bounds) -> Shadow
    requires frame { AreFrameSizes frame.now }
    requires bounds { IsBounds piece.now bounds.now }
    ensures { IsShadow frame.now piece.now result }
{
    let points = points_of(piece);
    Shadow {
        bounds: *bounds,
        across_x: span_of(frame.x, points),
        across_y: span_of(frame.y, points),
        across_z: span_of(frame.z, points),
    }
}

// the shadow of each piece
fn shadows_of(
    alloc: Global,
    frame: &Frame,
    pieces: &[Piece],
    boxes: &[Bounds],
) -> Result<Shadows, OutOfMemory>
    requires frame { AreFrameSizes frame.now }
    requires boxes { AllZip IsBounds pieces.now boxes.now }
    ensures { IfOk result (λ shadows. AllZip (IsShadow frame.now) pieces.now shadows) }
{
    // each piece has its box
    let _boxes = boxes.len();
    let mut shadows = Vec::new(alloc);
    for j in 0..pieces.len() {
        shadows.push(shadow_of(frame, &pieces[j], &boxes[j]))?;
    }
    Ok(Shadows::from_vec(shadows))
}

/// The shadows of the pieces of each part.
pub fn part_shadows(
    alloc: Global,
    frame: &Frame,
    parts: &[Part],
    boxes: &[Boxes],
) -> Result<Vec<Shadows>, OutOfMemory>
    requires frame { AreFrameSizes frame.now }
    requires boxes { ArePartBounds parts.now boxes.now }
    ensures { IfOk result (λ shadows. ArePartShadows frame.now parts.now shadows.items) }
{
    let mut all = Vec::new(alloc);
    for k in 0..parts.len() {
        let shadows = shadows_of(
            alloc,
            frame,
            parts[k].pieces.as_slice(),
            boxes[k].as_slice(),
        )?;
        all.push(shadows)?;
    }
    Ok(all)
}

// the shadow of all points of which these are two shadows
fn joined_shadow(a: &Shadow, b: &Shadow) -> Shadow
    ensures { IsJoinedShadow a.now b.now result }
{
    Shadow {
        bounds: joined_bounds(&a.bounds, &b.bounds),
        across_x: joined_span(a.across_x, b.across_x),
        across_y: joined_span(a.across_y, b.across_y),
        across_z: joined_span(a.across_z, b.across_z),
    }
}

// the shadow of all points of some pieces
fn whole_of(shadows: &[Shadow]) -> Shadow
    requires { 1 ≤ length shadows.now }
    ensures { IsWholeOf shadows.now result }
{
    let mut whole = shadows[0];
    for k in 1..shadows.len() {
        whole = joined_shadow(&whole, &shadows[k]);
    }
    whole
}

/// The shadow of all points of each part. Each part has a piece.
pub fn wholes_of(alloc: Global, shadows: &[Shadows]) -> Result<Vec<Shadow>, OutOfMemory>
    requires { All (λ pieces. 1 ≤ length pieces) shadows.now }
    ensures { IfOk result (λ wholes. AllZip IsWholeOf shadows.now wholes.items) }
{
    let mut wholes = Vec::new(alloc);
    for pieces in shadows {
        wholes.push(whole_of(pieces.as_slice()))?;
    }
    Ok(wholes)
}

fn lies_before(s: Span, t: Span) -> bool
    ensures { IsTrue result ↔ (s.high ≤ℤ t.low) }
{
    s.high <= t.low
}

// Whether a plane whose normal leads so far along a direction keeps apart what reaches so far along that normal: the
// second lies ahead of the first, and the direction does not lead ahead; or the other way round.
fn is_between(along: i128, s: Span, t: Span) -> bool
    ensures { IsTrue result ↔ HasGap along s t }
{
    along <= 0 && lies_before(s, t) || along >= 0 && lies_before(t, s)
}

fn is_apart_on_x(d: V3, s: &Bounds, t: &Bounds) -> bool
    ensures { IsTrue result ↔ HasGap d.x s.now.x t.now.x }
{
    is_between(d.x, s.x, t.x)
}

fn is_apart_on_y(d: V3, s: &Bounds, t: &Bounds) -> bool
    ensures { IsTrue result ↔ HasGap d.y s.now.y t.now.y }
{
    is_between(d.y, s.y, t.y)
}

fn is_apart_on_z(d: V3, s: &Bounds, t: &Bounds) -> bool
    ensures { IsTrue result ↔ HasGap d.z s.now.z t.now.z }
{
    is_between(d.z, s.z, t.z)
}

// whether their boxes show it
fn is_apart_on_axes(d: V3, s: &Bounds, t: &Bounds) -> bool
    ensures { IsTrue result ↔ IsApartOnAxes d s.now t.now }
{
    is_apart_on_x(d, s, t) || is_apart_on_y(d, s, t) || is_apart_on_z(d, s, t)
}

// whether their spans across the direction show it
fn is_apart_across(s: &Shadow, t: &Shadow) -> bool
    ensures { IsTrue result ↔ IsApartAcross s.now t.now }
{
    is_between(0, s.across_x, t.across_x)
        || is_between(0, s.across_y, t.across_y)
        || is_between(0, s.across_z, t.across_z)
}

/// Whether the shadows of two pieces show that the first does not meet the second along `d`.
pub fn is_apart(d: V3, s: &Shadow, t: &Shadow) -> bool
    ensures { IsTrue result ↔ IsApartAlong d s.now t.now }
{
    is_apart_on_axes(d, &s.bounds, &t.bounds) || is_apart_across(s, t)
}
