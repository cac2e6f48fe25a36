// Parts and how far they are moved.
ghost use Rattle.std.specs.Prelude.{◌≡◌, ◌≢◌, ◌<◌, ◌≤◌, ◌+◌, ◌*◌, ◌^◌, ◌+ℤ◌, All, length, unsigned_abs};
ghost use Rattle.staat_vec.specs.Vectors.{IsWithin, origin};
ghost use Rattle.staat_explode.specs.Boxes.{component};
ghost use Rattle.staat_explode.specs.Shifts.{end_along, extreme, gap_along, rounds, steps_apart, vector_of_part};
ghost use Rattle.staat_explode.specs.Sizes.{AreBounds, IsShifted};

use crate::axis::{Axis, axis_of, component};
use crate::boxes::{Bounds, End, further};
use crate::grow::FARTHEST;
use staat_vec::{POINT, V3};

/// A part, and the vector by which it is moved.
#[derive(Clone, Copy)]
pub struct Shifted {
    pub part: u32,
    pub by: V3,
}

// A number of a corner, moved by a vector.
fn moved(axis: Axis, corner: V3, by: V3) -> i128
    requires corner { IsWithin POINT corner }
    requires by { IsWithin FARTHEST by }
    ensures value { result ≡ component axis corner +ℤ component axis by }
    ensures size { unsigned_abs result ≤ POINT + FARTHEST }
{
    match axis {
        Axis::X => corner.x + by.x,
        Axis::Y => corner.y + by.y,
        Axis::Z => corner.z + by.z,
    }
}

// The number of the part's box at the end, moved by the part's vector.
fn end_along(boxes: &[Bounds], axis: Axis, end: End, p: Shifted) -> i128
    requires boxes { All AreBounds boxes.now }
    requires placed { IsShifted (length boxes.now) p }
    ensures value { result ≡ end_along boxes.now axis end p }
    ensures size { unsigned_abs result ≤ POINT + FARTHEST }
{
    let bounds = boxes[p.part as usize];
    match end {
        End::Low => moved(axis, bounds.low, p.by),
        End::High => moved(axis, bounds.high, p.by),
    }
}

// The number of the boxes of these parts that lies furthest to the end.
fn extreme(boxes: &[Bounds], axis: Axis, end: End, placed: &[Shifted]) -> i128
    requires boxes { All AreBounds boxes.now }
    requires placed { All (IsShifted (length boxes.now)) placed.now }
    requires some { 1 ≤ length placed.now }
    ensures value { result ≡ extreme boxes.now axis end placed.now }
    ensures size { unsigned_abs result ≤ POINT + FARTHEST }
{
    let mut furthest = end_along(boxes, axis, end, placed[0]);
    for p in placed {
        furthest = further(end, furthest, end_along(boxes, axis, end, *p));
    }
    furthest
}

// How far the moved parts have to go until they are past the resting ones.
fn gap_along(boxes: &[Bounds], axis: Axis, step: i128, moved: &[Shifted], rest: &[Shifted]) -> i128
    requires boxes { All AreBounds boxes.now }
    requires moved { All (IsShifted (length boxes.now)) moved.now }
    requires rest { All (IsShifted (length boxes.now)) rest.now }
    requires some { 1 ≤ length moved.now }
    requires others { 1 ≤ length rest.now }
    ensures value { result ≡ gap_along boxes.now axis step moved.now rest.now }
    ensures size { unsigned_abs result ≤ 2 * (POINT + FARTHEST) + 1 }
{
    if step > 0 {
        extreme(boxes, axis, End::High, rest) + 1 - extreme(boxes, axis, End::Low, moved)
    } else {
        extreme(boxes, axis, End::High, moved) + 1 - extreme(boxes, axis, End::Low, rest)
    }
}

// How many steps of a size make up a gap.
fn rounds(gap: i128, step: u128) -> u128
    requires { 1 ≤ step }
    ensures value { result ≡ rounds gap step }
    ensures size { result < 2 ^ 127 }
{
    if gap < 0 {
        0
    } else {
        (gap as u128).div_ceil(step)
    }
}

/// How often the moved parts go on by `d`: the least number that takes them past the resting ones.
#[tactic(auto, unfolding(crate::specs::Shifts::steps_apart))]
pub(crate) fn steps_apart(boxes: &[Bounds], d: V3, moved: &[Shifted], rest: &[Shifted]) -> u128
    requires boxes { All AreBounds boxes.now }
    requires direction { d ≢ origin }
    requires moved { All (IsShifted (length boxes.now)) moved.now }
    requires rest { All (IsShifted (length boxes.now)) rest.now }
    requires some { 1 ≤ length moved.now }
    requires others { 1 ≤ length rest.now }
    ensures value { result ≡ steps_apart boxes.now d moved.now rest.now }
    ensures size { result < 2 ^ 127 }
{
    let axis = axis_of(d);
    let step = component(axis, d);
    rounds(
        gap_along(boxes, axis, step, moved, rest),
        step.unsigned_abs(),
    )
}

/// The vector of the part.
pub(crate) fn vector_of_part(placed: &[Shifted], part: u32) -> V3
    ensures { result ≡ vector_of_part placed.now part }
{
    for p in placed {
        if p.part == part {
            return p.by;
        }
    }
    V3 { x: 0, y: 0, z: 0 }
}
