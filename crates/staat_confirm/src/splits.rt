// The splits of a plan, in preorder.
ghost use Rattle.std.specs.Prelude.{◌≡◌, ◌<◌, ◌≤◌, IfOk, MatchOption, OnOk, Some, length, slice_get};
ghost use Rattle.staat_vec.specs.Vectors.{IsWithin, origin};
ghost use Rattle.staat_motion.specs.Motions.{AreBodies, IsMotionOf};
ghost use Rattle.staat_short.specs.declared.short.ShortNode.TheVariants.{Split};
ghost use Rattle.staat_short.specs.ShortTexts.{GroupedPlan, taken_apart};
ghost use Rattle.staat_confirm.specs.Found.{FindsLeast};
ghost use Rattle.staat_confirm.specs.Members.{AreMembersOnce, StandsAt};
ghost use Rattle.staat_confirm.specs.Owners.{AreDirectionsWithin, AreFitNodes, AreOwners, AreOwned};
ghost use Rattle.staat_confirm.specs.Splits.{AreClearSplits, IsClearAt, IsUnclearAt, IsUnclearSplit, MeetsAcross};

use crate::ends::ends_of;
use crate::meeting::View;
use crate::sides::parts_within;
use crate::verdict::ShortReason;
use staat_cone::FacetSource;
use staat_model::{Arc, Part, Product};
use staat_motion::{Along, Bodies};
use staat_short::ShortNode;
use staat_vec::{DIRECTION, ORIGIN, OutOfMemory, V3, is_same};
use std::alloc::Global;

// A product with the boxes of its pieces, and the nodes of a plan: for each part the number of its node, and for each
// node the number behind the last one of the plan that begins with it.
#[derive(Clone, Copy)]
struct JudgedPlan<'a> {
    product: &'a Product,
    bodies: &'a Bodies,
    nodes: &'a [ShortNode],
    owners: &'a [Option<usize>],
    ends: &'a [usize],
}

// makes what is kept for a direction that for another one, unless they are one
fn turn(
    alloc: Global,
    parts: &[Part],
    bodies: &Bodies,
    along: &mut Along,
    d: V3,
) -> Result<(), OutOfMemory>
    requires bodies { AreBodies parts.now bodies.now }
    requires made { IsMotionOf parts.now along.old }
    requires size { IsWithin DIRECTION d }
    ensures direction { OnOk result (along.new.d ≡ d) }
    ensures made { OnOk result (IsMotionOf parts.now along.new) }
{
    if !is_same(along.direction(), d) {
        *along = Along::of(alloc, parts, bodies, d)?;
    }
    Ok(())
}

// the first two pieces that meet across the split at node k
fn meeting_at<F: FacetSource>(
    alloc: Global,
    source: &F,
    along: &Along,
    judged: &JudgedPlan,
    k: usize,
) -> Result<Option<Arc>, OutOfMemory>
    requires made { IsMotionOf judged.now.product.now along.now }
    requires read { AreOwned judged.now.product.now judged.now.nodes.now judged.now.owners.now judged.now.ends.now }
    requires split { slice_get judged.now.nodes.now k ≡ Some (Split along.now.d) }
    ensures { IfOk result (λ answer. (moved rest : GroupedPlan)
        → StandsAt judged.now.nodes.now k (taken_apart along.now.d moved rest)
        → FindsLeast (MeetsAcross judged.now.product.now moved rest along.now.d) answer) }
{
    // a product has few parts
    let _parts = judged.product.parts();
    let middle = judged.ends[k + 1];
    let end = judged.ends[middle];
    let moved = parts_within(alloc, judged.owners, k + 1, middle)?;
    let rest = parts_within(alloc, judged.owners, middle, end)?;
    let view = View {
        alloc,
        source,
        product: judged.product,
        along,
    };
    view.first_meeting(moved.as_slice(), rest.as_slice())
}

// the rule that the split at node k breaks, of which d is the direction
fn split_reason<F: FacetSource>(
    alloc: Global,
    source: &F,
    along: &mut Along,
    judged: &JudgedPlan,
    k: usize,
    d: V3,
) -> Result<Option<ShortReason>, OutOfMemory>
    requires made { IsMotionOf judged.now.product.now along.old }
    requires bodies { AreBodies judged.now.product.now judged.now.bodies.now }
    requires read { AreOwned judged.now.product.now judged.now.nodes.now judged.now.owners.now judged.now.ends.now }
    requires split { slice_get judged.now.nodes.now k ≡ Some (Split d) }
    ensures made { IfOk result (λ reason. IsMotionOf judged.now.product.now along.new) }
    ensures reason { IfOk result (λ reason. MatchOption reason (IsClearAt judged.now.product.now judged.now.nodes.now k)
        (IsUnclearAt judged.now.product.now judged.now.nodes.now k)) }
{
    if is_same(d, ORIGIN) {
        return Ok(Some(ShortReason::ZeroDirection(k)));
    }
    turn(alloc, judged.product.as_slice(), judged.bodies, along, d)?;
    match meeting_at(alloc, source, along, judged, k)? {
        Some(Arc { a, i, b, j }) => Ok(Some(ShortReason::Meet {
            a,
            i,
            b,
            j,
            node: k,
        })),
        None => Ok(None),
    }
}

// so with node k, if it is a split
fn node_reason<F: FacetSource>(
    alloc: Global,
    source: &F,
    along: &mut Along,
    judged: &JudgedPlan,
    k: usize,
) -> Result<Option<ShortReason>, OutOfMemory>
    requires made { IsMotionOf judged.now.product.now along.old }
    requires bodies { AreBodies judged.now.product.now judged.now.bodies.now }
    requires read { AreOwned judged.now.product.now judged.now.nodes.now judged.now.owners.now judged.now.ends.now }
    requires within { k < length judged.now.nodes.now }
    ensures made { IfOk result (λ reason. IsMotionOf judged.now.product.now along.new) }
    ensures reason { IfOk result (λ reason. MatchOption reason (IsClearAt judged.now.product.now judged.now.nodes.now k)
        (IsUnclearAt judged.now.product.now judged.now.nodes.now k)) }
{
    match &judged.nodes[k] {
        ShortNode::Split(d) => split_reason(alloc, source, along, judged, k, *d),
        _ => Ok(None),
    }
}

// the first rule that a split breaks; along is what is kept for any direction
fn first_reason<F: FacetSource>(
    alloc: Global,
    source: &F,
    along: &mut Along,
    judged: &JudgedPlan,
) -> Result<Option<ShortReason>, OutOfMemory>
    requires made { IsMotionOf judged.now.product.now along.old }
    requires bodies { AreBodies judged.now.product.now judged.now.bodies.now }
    requires read { AreOwned judged.now.product.now judged.now.nodes.now judged.now.owners.now judged.now.ends.now }
    ensures { IfOk result (λ reason. MatchOption reason (AreClearSplits judged.now.product.now judged.now.nodes.now)
        (IsUnclearSplit judged.now.product.now judged.now.nodes.now)) }
{
    for k in 0..judged.nodes.len() {
        match node_reason(alloc, source, along, judged, k)? {
            Some(reason) => return Ok(Some(reason)),
            None => {}
        }
    }
    Ok(None)
}

// the direction of the first node, if it is a split
fn first_direction(nodes: &[ShortNode]) -> V3
    requires some { 1 ≤ length nodes.now }
    requires sizes { AreDirectionsWithin nodes.now }
    ensures { IsWithin DIRECTION result }
{
    match &nodes[0] {
        ShortNode::Split(d) => *d,
        _ => ORIGIN,
    }
}

/// The first split that breaks a rule, and that rule: its direction is zero, or else two pieces meet across.
///
/// The nodes are those of a plan, and each part is a member of the node that the list has for it. What is kept of all
/// pieces for a direction is kept for the splits that follow in the same one.
pub fn unclear_split<F: FacetSource>(
    alloc: Global,
    source: &F,
    product: &Product,
    nodes: &[ShortNode],
    owners: &[Option<usize>],
) -> Result<Option<ShortReason>, OutOfMemory>
    requires fit { AreFitNodes nodes.now }
    requires once { AreMembersOnce product.now nodes.now }
    requires owners { AreOwners product.now nodes.now (length nodes.now) owners.now }
    ensures { IfOk result (λ reason. MatchOption reason (AreClearSplits product.now nodes.now)
        (IsUnclearSplit product.now nodes.now)) }
{
    let ends = ends_of(alloc, nodes)?;
    let parts = product.as_slice();
    let bodies = Bodies::of(alloc, parts)?;
    let mut along = Along::of(alloc, parts, &bodies, first_direction(nodes))?;
    let judged = JudgedPlan {
        product,
        bodies: &bodies,
        nodes,
        owners,
        ends: ends.as_slice(),
    };
    first_reason(alloc, source, &mut along, &judged)
}
