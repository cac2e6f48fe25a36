// The lines of plans, one by one.
ghost use Rattle.std.specs.Prelude.{◌≡◌, ℕ, IfOk, MatchOption, None, Some};
ghost use Rattle.staat_cert.specs.TextLines.{MakesState};
ghost use Rattle.staat_short.specs.declared.stage.PlanKind.{PlanKind as Kind};
ghost use Rattle.staat_short.specs.declared.stage.PlanKind.TheVariants.{Rest};
ghost use Rattle.staat_short.specs.Fronts.{after_group, after_leaf, after_split, grouped_in, planning};
ghost use Rattle.staat_short.specs.ShortViews.{PlanGoesOn, front_of, holding_of};

use crate::hold_lines::close_hold;
use crate::nodes::push_node;
use crate::short::ShortNode;
use crate::stage::{Growth, Holding, Place, PlanKind, Stage, advance};
use staat_vec::{Listed, V3};
use std::alloc::{AllocError, Global};
use std::mem;

// The plan with a node more, where the holds are a group that has a hold.
fn with_group(alloc: Global, holding: &mut Holding) -> Result<Option<Growth>, AllocError>
    ensures { IfOk result (λ o. MatchOption o
        ((n : ℕ) → holding_of n holding.new ≡ grouped_in (holding_of n holding.old))
        (λ g. (n : ℕ) → planning n Rest g.nodes.items g.wanted ≡ grouped_in (holding_of n holding.old))) }
{
    if holding.last.is_none() {
        return Ok(None);
    }
    match mem::replace(&mut holding.place, Place::Whole) {
        Place::Whole => Ok(None),
        Place::InPlan(mut growth) => {
            close_hold(holding)?;
            let holds = mem::replace(&mut holding.holds, Vec::new(alloc));
            push_node(&mut growth.nodes, ShortNode::Group(Listed::from_vec(holds)))?;
            Ok(Some(growth))
        }
    }
}

/// Closes a group that has a hold.
pub fn close_group(alloc: Global, stage: &mut Stage) -> Result<(), AllocError>
    ensures { IfOk result (λ _. front_of stage.new ≡ grouped_in (front_of stage.old)) }
{
    match stage {
        Stage::Holding { parts, holding } => {
            let parts = *parts;
            let kind = PlanKind::Rest;
            if let Some(growth) = with_group(alloc, holding)? {
                advance(
                    stage,
                    Stage::Planning {
                        parts,
                        kind,
                        growth,
                    },
                );
            }
            Ok(())
        }
        _ => Ok(()),
    }
}

// A leaf more, where a tree is wanted.
fn take_leaf(growth: &mut Growth, p: u32) -> Result<bool, AllocError>
    ensures { IfOk result (λ b. PlanGoesOn (λ s. after_leaf s p) growth.old b growth.new) }
{
    if growth.wanted == 0 {
        return Ok(false);
    }
    push_node(&mut growth.nodes, ShortNode::Leaf(p))?;
    growth.wanted -= 1;
    Ok(true)
}

/// A leaf, where a tree is wanted.
pub fn leaf(stage: &mut Stage, p: u32) -> Result<bool, AllocError>
    ensures { IfOk result (λ b. MakesState (after_leaf (front_of stage.old) p) b (front_of stage.new)) }
{
    match stage {
        Stage::Planning { growth, .. } => take_leaf(growth, p),
        _ => Ok(false),
    }
}

// A split more, where a tree is wanted and so many parts have as many nodes.
fn take_split(growth: &mut Growth, parts: u32, d: V3) -> Result<bool, AllocError>
    ensures { IfOk result (λ b. (k : Kind) →
        MakesState (after_split (planning parts k growth.old.nodes.items growth.old.wanted) d) b
        (planning parts k growth.new.nodes.items growth.new.wanted)) }
{
    if growth.wanted == 0 {
        return Ok(false);
    }
    if growth.nodes.len() as u128 + (growth.wanted - 1) as u128 + 4 > 2 * parts as u128 {
        return Ok(false);
    }
    push_node(&mut growth.nodes, ShortNode::Split(d))?;
    growth.wanted += 1;
    Ok(true)
}

/// A split, where a tree is wanted.
pub fn split(stage: &mut Stage, d: V3) -> Result<bool, AllocError>
    ensures { IfOk result (λ b. MakesState (after_split (front_of stage.old) d) b (front_of stage.new)) }
{
    match stage {
        Stage::Planning { parts, growth, .. } => take_split(growth, *parts, d),
        _ => Ok(false),
    }
}

// The holds of a group that begins, where a tree is wanted.
fn begun_group(alloc: Global, growth: &mut Growth) -> Option<Holding>
    ensures { MatchOption result
        ((n : ℕ) → after_group (planning n Rest growth.old.nodes.items growth.old.wanted) ≡ None)
        (λ h. (n : ℕ) → after_group (planning n Rest growth.old.nodes.items growth.old.wanted)
        ≡ Some (holding_of n h)) }
{
    if growth.wanted == 0 {
        return None;
    }
    let wanted = growth.wanted - 1;
    let nodes = mem::replace(&mut growth.nodes, Vec::new(alloc));
    Some(Holding {
        place: Place::InPlan(Growth { nodes, wanted }),
        holds: Vec::new(alloc),
        last: None,
    })
}

/// The beginning of a group, where a tree is wanted that may be one.
pub fn group(alloc: Global, stage: &mut Stage) -> bool
    ensures { MakesState (after_group (front_of stage.old)) result (front_of stage.new) }
{
    match stage {
        Stage::Planning {
            parts,
            kind: PlanKind::Rest,
            growth,
        } => {
            let parts = *parts;
            match begun_group(alloc, growth) {
                None => false,
                Some(holding) => {
                    advance(stage, Stage::Holding { parts, holding });
                    true
                }
            }
        }
        _ => false,
    }
}
