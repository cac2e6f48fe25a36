// Plans for sets of parts.
ghost use Rattle.std.specs.Prelude.{◌≡◌, ◌<◌, ◌≤◌, ◌^◌, All, IfOk, length};
ghost use Rattle.std.specs.List.{range_with_len};
ghost use Rattle.std.specs.List.Sorted.{IsStrictlySortedBy};
ghost use Rattle.std.specs.Ordering.{nat_cmp};
ghost use Rattle.staat_model.specs.Assemblies.{IsPart};
ghost use Rattle.staat_model.specs.SetLists.{set_of};
ghost use Rattle.staat_model.specs.Sets.{below};
ghost use Rattle.staat_motion.specs.Motions.{AreBodies};
ghost use Rattle.staat_decide.specs.Asking.{AreAskedRows};
ghost use Rattle.staat_decide.specs.Decided.{IsDecision, IsLeaving, IsParting};

use crate::asking::asked_of;
use crate::decision::{Decision, Leaving, Parting};
use crate::likely::{AskedRows, likely_leaving, numbers};
use crate::scene::Scene;
use crate::settling::{parting_by_all, parting_by_guess};
use crate::turns::joined;
use staat_cone::FacetSource;
use staat_model::{Part, Tree};
use staat_motion::Bodies;
use staat_vec::{ORIGIN, OutOfMemory, V3};
use std::alloc::Global;

// how w goes on: along a likely direction, or by a guess that is right, or by all pairs of its pieces
fn parting<F: FacetSource>(
    scene: &Scene<F>,
    asked: &[AskedRows],
    w: &[u32],
    before: V3,
) -> Result<Parting, OutOfMemory>
    requires bodies { AreBodies scene.now.parts.now scene.now.bodies.now }
    requires count { length scene.now.parts.now < 2 ^ 32 }
    requires pieces { All (λ part. length part.pieces < 2 ^ 32) scene.now.parts.now }
    requires asked { All (AreAskedRows scene.now.parts.now) asked.now }
    requires members { All (λ p. p < length scene.now.parts.now) w.now }
    requires ascending { IsStrictlySortedBy nat_cmp w.now }
    requires two { 2 ≤ length w.now }
    requires few { length w.now < 2 ^ 32 }
    ensures { IfOk result (IsParting scene.now.parts.now w.now) }
{
    if let Some(leaving) = likely_leaving(scene.alloc, scene.parts, asked, w, before)? {
        return Ok(Parting::Leaves(leaving));
    }
    if let Some(found) = parting_by_guess(scene, asked, w)? {
        return Ok(found);
    }
    parting_by_all(scene, w)
}

// a plan of the parts of w, which leave along one direction, set by set, or parts that are stuck
#[cycle(deciding)]
fn planned<F: FacetSource>(
    scene: &Scene<F>,
    asked: &[AskedRows],
    w: &[u32],
    leaving: &Leaving,
) -> Result<Decision, OutOfMemory>
    requires bodies { AreBodies scene.now.parts.now scene.now.bodies.now }
    requires count { length scene.now.parts.now < 2 ^ 32 }
    requires pieces { All (λ part. length part.pieces < 2 ^ 32) scene.now.parts.now }
    requires asked { All (AreAskedRows scene.now.parts.now) asked.now }
    requires members { All (λ p. p < length scene.now.parts.now) w.now }
    requires ascending { IsStrictlySortedBy nat_cmp w.now }
    requires few { length w.now < 2 ^ 32 }
    requires leaves { IsLeaving scene.now.parts.now w.now leaving.now }
    ensures { IfOk result (IsDecision scene.now.parts.now (set_of w.now)) }
{
    let sets = leaving.sets.as_slice();
    let mut trees = Vec::new(scene.alloc);
    for s in sets {
        match decision_of(scene, asked, s.as_slice(), leaving.d)? {
            Decision::Held(stuck) => return Ok(Decision::Held(stuck)),
            Decision::Apart(tree) => trees.push(tree)?,
        }
    }
    let whole = joined(scene.alloc, leaving.d, trees)?;
    Ok(Decision::Apart(whole))
}

// a plan of the parts of w, or parts that are stuck
#[cycle(deciding)]
fn decision_of<F: FacetSource>(
    scene: &Scene<F>,
    asked: &[AskedRows],
    w: &[u32],
    before: V3,
) -> Result<Decision, OutOfMemory>
    requires bodies { AreBodies scene.now.parts.now scene.now.bodies.now }
    requires count { length scene.now.parts.now < 2 ^ 32 }
    requires pieces { All (λ part. length part.pieces < 2 ^ 32) scene.now.parts.now }
    requires asked { All (AreAskedRows scene.now.parts.now) asked.now }
    requires members { All (λ p. p < length scene.now.parts.now) w.now }
    requires ascending { IsStrictlySortedBy nat_cmp w.now }
    requires some { 1 ≤ length w.now }
    requires few { length w.now < 2 ^ 32 }
    ensures { IfOk result (IsDecision scene.now.parts.now (set_of w.now)) }
{
    if w.len() == 1 {
        return Ok(Decision::Apart(Tree::Leaf(w[0])));
    }
    match parting(scene, asked, w, before)? {
        Parting::Stays(held) => Ok(Decision::Held(held)),
        Parting::Leaves(leaving) => planned(scene, asked, w, &leaving),
    }
}

// a plan of all parts, whose numbers are given, or parts that are stuck
fn decision_of_all<F: FacetSource>(scene: &Scene<F>, all: &[u32]) -> Result<Decision, OutOfMemory>
    requires bodies { AreBodies scene.now.parts.now scene.now.bodies.now }
    requires some { 1 ≤ length scene.now.parts.now }
    requires count { length scene.now.parts.now < 2 ^ 32 }
    requires pieces { All (λ part. length part.pieces < 2 ^ 32) scene.now.parts.now }
    requires all { all.now ≡ range_with_len 0 (length scene.now.parts.now) }
    ensures { IfOk result (IsDecision scene.now.parts.now (below (length scene.now.parts.now))) }
{
    let asked = asked_of(scene, all)?;
    decision_of(scene, asked.as_slice(), all, ORIGIN)
}

/// A plan that takes all parts apart, or parts that are stuck.
pub fn decide<F: FacetSource>(
    alloc: Global,
    source: &F,
    parts: &[Part],
) -> Result<Decision, OutOfMemory>
    requires parts { All IsPart parts.now }
    requires some { 1 ≤ length parts.now }
    requires count { length parts.now < 2 ^ 32 }
    requires pieces { All (λ part. length part.pieces < 2 ^ 32) parts.now }
    ensures { IfOk result (IsDecision parts.now (below (length parts.now))) }
{
    let bodies = Bodies::of(alloc, parts)?;
    let all = numbers(alloc, parts.len() as u32)?;
    let scene = Scene {
        alloc,
        source,
        parts,
        bodies: &bodies,
    };
    decision_of_all(&scene, all.as_slice())
}
