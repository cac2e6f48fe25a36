// A plan down to groups.
ghost use Rattle.std.specs.Prelude.{◌≤◌, ◌<◌, ◌^◌, All, IfOk, length};
ghost use Rattle.staat_model.specs.Assemblies.{IsPart};
ghost use Rattle.staat_model.specs.Sets.{below};
ghost use Rattle.staat_holds.specs.Partials.{IsShownRest};
ghost use Rattle.staat_decide.specs.Decided.{IsDecision};
ghost use Rattle.staat_rest.specs.Merging.{AreMerged};
ghost use Rattle.staat_rest.specs.Nodes.{AreShown};
ghost use Rattle.staat_rest.specs.Turning.{IsRound};

use crate::groups::Groups;
use crate::merging::{Merged, merged_of};
use crate::turning::{turned_hold, turned_tree};
use staat_cone::FacetSource;
use staat_decide::{Decision, decide};
use staat_holds::{GroupedTree, Hold};
use staat_model::Part;
use staat_vec::OutOfMemory;
use std::alloc::Global;

/// What a round comes to: a plan down to groups, or a hold of some of the nodes.
#[derive(Drop)]
pub enum Round {
    Rest(GroupedTree),
    Held(Hold),
}

// what the decision on the merged product comes to
fn turned(
    alloc: Global,
    parts: &[Part],
    groups: &Groups,
    merged: &Merged,
    decision: &Decision,
) -> Result<Round, OutOfMemory>
    requires parts { All IsPart parts.now }
    requires count { length parts.now < 2 ^ 32 }
    requires shown { AreShown parts.now groups.now.names.items groups.now.lists.items }
    requires merged { AreMerged parts.now groups.now.names.items merged.now.heads merged.now.origins
        merged.now.parts }
    requires decided { IsDecision merged.now.parts (below (length merged.now.parts)) decision.now }
    ensures { IfOk result (IsRound parts.now groups.now.names.items groups.now.lists.items) }
{
    let heads = merged.heads.as_slice();
    match decision {
        Decision::Apart(tree) => {
            let shown = groups.lists.as_slice();
            let rest = turned_tree(alloc, parts, heads, shown, tree)?;
            Ok(Round::Rest(rest))
        }
        Decision::Held(hold) => {
            let origins = merged.origins.as_slice();
            let turned = turned_hold(alloc, heads, origins, hold)?;
            Ok(Round::Held(turned))
        }
    }
}

// a round: the merged product of these nodes is decided
fn next_round<F: FacetSource>(
    alloc: Global,
    source: &F,
    parts: &[Part],
    groups: &Groups,
) -> Result<Round, OutOfMemory>
    requires parts { All IsPart parts.now }
    requires some { 1 ≤ length parts.now }
    requires count { length parts.now < 2 ^ 32 }
    requires pieces { All (λ part. length part.pieces < 2 ^ 32) parts.now }
    requires shown { AreShown parts.now groups.now.names.items groups.now.lists.items }
    ensures { IfOk result (IsRound parts.now groups.now.names.items groups.now.lists.items) }
{
    let now = groups.names.as_slice();
    let merged = merged_of(alloc, parts, now)?;
    let whole = merged.parts.as_slice();
    let decision = decide(alloc, source, whole)?;
    turned(alloc, parts, groups, &merged, &decision)
}

/// A plan that takes the parts apart down to groups that are stuck, each shown by holds.
pub fn plan_to_groups<F: FacetSource>(
    alloc: Global,
    source: &F,
    parts: &[Part],
) -> Result<GroupedTree, OutOfMemory>
    requires parts { All IsPart parts.now }
    requires some { 1 ≤ length parts.now }
    requires count { length parts.now < 2 ^ 32 }
    requires pieces { All (λ part. length part.pieces < 2 ^ 32) parts.now }
    ensures { IfOk result (IsShownRest parts.now) }
{
    let mut groups = Groups::apart(alloc, parts.len() as u32)?;
    'rounds: loop {
        match next_round(alloc, source, parts, &groups)? {
            Round::Rest(rest) => return Ok(rest),
            Round::Held(hold) => groups.join(alloc, hold)?,
        }
    }
}
