// The exploded view of a plan.
ghost use Rattle.std.specs.Prelude.{◌≡◌, ◌≢◌, ◌≤◌, ◌+◌, ◌*◌, All, IfOk, MatchResult, length, map};
ghost use Rattle.std.specs.List.{range_with_len};
ghost use Rattle.staat_vec.specs.Vectors.{IsWithin, origin};
ghost use Rattle.staat_model.specs.Plans.{IsGood, plan_of};
ghost use Rattle.staat_model.specs.Sets.{below};
ghost use Rattle.staat_explode.specs.Apart.{StandApart};
ghost use Rattle.staat_explode.specs.Shifts.{parted, shifted_of, vector_of_part};
ghost use Rattle.staat_explode.specs.Sizes.{AreBounds, IsShiftable, IsShifted};
ghost use Rattle.staat_explode.specs.Splits.{AllNear, AreSums, Explodes, HasFar, IsRefused, IsTooFarAt};
ghost use Rattle.staat_explode.specs.Splits.{node_count};

use crate::boxes::{Bounds, boxes_of};
use crate::grow::{FARTHEST, grown_vector};
use crate::refusal::ExplodeRefusal;
use crate::shifted::{Shifted, steps_apart, vector_of_part};
use crate::shifts::Shifts;
use staat_limits::MOST_PARTS;
use staat_model::{Assembly, Sound, Tree};
use staat_vec::V3;
use std::alloc::{AllocError, Global};

// The parts of both sides of a split, once it is done, unless one is too far.
fn parted(
    alloc: Global,
    boxes: &[Bounds],
    d: V3,
    node: u32,
    moved: &[Shifted],
    rest: &[Shifted],
) -> Result<Vec<Shifted>, ExplodeRefusal>
    requires boxes { All AreBounds boxes.now }
    requires direction { d ≢ origin }
    requires moved { All (IsShifted (length boxes.now)) moved.now }
    requires rest { All (IsShifted (length boxes.now)) rest.now }
    requires some { 1 ≤ length moved.now }
    requires others { 1 ≤ length rest.now }
    ensures { MatchResult result
        (λ ps. (ps.items ≡ parted boxes.now d moved.now rest.now) × All (λ p. IsWithin FARTHEST p.by) ps.items)
        (λ e. IsRefused (λ k. (k ≡ node) × HasFar (parted boxes.now d moved.now rest.now)) e) }
{
    let m = steps_apart(boxes, d, moved, rest);
    let mut placed = Vec::new(alloc);
    for p in moved {
        match grown_vector(p.by, m, d) {
            Some(by) => placed.push(Shifted { part: p.part, by })?,
            None => return Err(ExplodeRefusal::TooFar(node)),
        }
    }
    placed.extend_from_slice(rest)?;
    Ok(placed)
}

// The parts of a plan with their vectors, unless one is too far after some split. The plan's first node has this
// number.
pub(crate) fn shifted_of(
    alloc: Global,
    boxes: &[Bounds],
    tree: &Tree,
    node: u32,
) -> Result<Vec<Shifted>, ExplodeRefusal>
    requires boxes { All AreBounds boxes.now }
    requires plan { IsShiftable (length boxes.now) (plan_of tree.now) }
    requires nodes { node + node_count (plan_of tree.now) ≤ 2 * MOST_PARTS }
    ensures { MatchResult result
        (λ ps. (ps.items ≡ shifted_of boxes.now (plan_of tree.now))
        × All (IsShifted (length boxes.now)) ps.items
        × AllNear boxes.now node (plan_of tree.now)
        × (2 * length ps.items ≡ node_count (plan_of tree.now) + 1))
        (λ e. IsRefused (IsTooFarAt boxes.now node (plan_of tree.now)) e) }
{
    match tree {
        Tree::Leaf(part) => {
            let by = V3 { x: 0, y: 0, z: 0 };
            let mut placed = Vec::new(alloc);
            placed.push(Shifted { part: *part, by })?;
            Ok(placed)
        }
        Tree::Split { d, moved, rest } => {
            let moved = shifted_of(alloc, boxes, moved, node + 1)?;
            // a plan has a leaf for each part, and a split less
            let behind = node + 2 * moved.len() as u32;
            let rest = shifted_of(alloc, boxes, rest, behind)?;
            parted(alloc, boxes, *d, node, moved.as_slice(), rest.as_slice())
        }
    }
}

// The vector of each part, in the order of the parts.
#[tactic(auto, using(crate::proofs::Looking::shifts_more))]
pub(crate) fn shifts_of(
    alloc: Global,
    parts: u32,
    placed: &[Shifted],
) -> Result<Vec<V3>, AllocError>
    ensures { IfOk result (λ shifts. shifts.items ≡ map (vector_of_part placed.now) (range_with_len 0 parts)) }
{
    let mut shifts = Vec::new(alloc);
    for part in 0..parts {
        shifts.push(vector_of_part(placed, part))?;
    }
    Ok(shifts)
}

/// How far each part is moved, so that all parts stand apart: the vector of each, in the order of the parts.
///
/// At each split of the plan, once its two sides are done, the moved side goes on along the split's direction by the
/// least multiple that takes its boxes past those of the resting side, in the first component of the direction that is
/// not 0. A split after which a component exceeds [`FARTHEST`](crate::FARTHEST) in absolute value is refused: the
/// first to be done. Nodes are numbered in preorder from 0, leaves too; a split is done after its moved side and then
/// its resting side.
pub fn explode(alloc: Global, sound: &Sound, tree: &Tree) -> Result<Shifts, ExplodeRefusal>
    requires good { IsGood sound.now (below (length sound.now)) (plan_of tree.now) }
    ensures exact { Explodes sound.now (plan_of tree.now) result }
    ensures sums { IfOk result (AreSums (plan_of tree.now)) }
    ensures apart { IfOk result (StandApart sound.now) }
    ensures near { IfOk result (All (IsWithin FARTHEST)) }
{
    let assembly = sound.assembly();
    let parts = assembly.parts();
    let boxes = boxes_of(alloc, assembly)?;
    let placed = shifted_of(alloc, boxes.as_slice(), tree, 0)?;
    let shifts = shifts_of(alloc, parts, placed.as_slice())?;
    Ok(Shifts::from_vec(shifts))
}
