// How a set of parts goes on where no likely direction serves: what is guessed is judged, and where no guess is right
// all pairs of pieces decide.
ghost use Rattle.std.specs.Prelude.{◌≢◌, ◌<◌, ◌≤◌, ◌^◌, ℕ, List, All, IfNone, IfOk, IfSome, length};
ghost use Rattle.std.specs.List.Sorted.{IsStrictlySortedBy};
ghost use Rattle.std.specs.Ordering.{nat_cmp};
ghost use Rattle.staat_vec.specs.Vectors.{IsWithin, origin};
ghost use Rattle.staat_model.specs.Assemblies.{IsPart};
ghost use Rattle.staat_model.specs.SetLists.{set_of};
ghost use Rattle.staat_motion.specs.Motions.{AreBodies};
ghost use Rattle.staat_decide.specs.Decided.{IsLeaving, IsParting};
ghost use Rattle.staat_decide.specs.Peelings.{IsHeldAlong};

use crate::decision::{Leaving, Parting};
use crate::every::all_pairs;
use crate::growing::Guess;
use crate::guess::guess_of;
use crate::holding::{are_held, copied, places_in};
use crate::likely::{AskedRows, is_direction};
use crate::peeling::peel;
use crate::scene::Scene;
use staat_cone::FacetSource;
use staat_holds::{Hold, first_gap};
use staat_model::{Arcs, Part};
use staat_motion::{Along, Bodies};
use staat_vec::{DIRECTION, OutOfMemory, V3};
use std::alloc::Global;

// how w comes apart along the direction, if it does
fn leaving_at<F: FacetSource>(
    scene: &Scene<F>,
    w: &[u32],
    d: V3,
) -> Result<Option<Leaving>, OutOfMemory>
    requires bodies { AreBodies scene.now.parts.now scene.now.bodies.now }
    requires members { All (λ p. p < length scene.now.parts.now) w.now }
    requires ascending { IsStrictlySortedBy nat_cmp w.now }
    requires moves { d ≢ origin }
    requires size { IsWithin DIRECTION d }
    ensures some { IfOk result (λ answer. IfSome answer (IsLeaving scene.now.parts.now w.now)) }
    ensures none { IfOk result (λ answer. IfNone answer (IsHeldAlong scene.now.parts.now d (set_of w.now))) }
{
    let along = Along::of(scene.alloc, scene.parts, scene.bodies, d)?;
    match peel(scene.alloc, scene.source, scene.parts, &along, w)? {
        None => Ok(None),
        Some(sets) => Ok(Some(Leaving { d, sets })),
    }
}

// how w comes apart along the vector, if it is a direction and does so
fn leaving_if_free<F: FacetSource>(
    scene: &Scene<F>,
    w: &[u32],
    d: V3,
) -> Result<Option<Parting>, OutOfMemory>
    requires bodies { AreBodies scene.now.parts.now scene.now.bodies.now }
    requires members { All (λ p. p < length scene.now.parts.now) w.now }
    requires ascending { IsStrictlySortedBy nat_cmp w.now }
    ensures { IfOk result (λ answer. IfSome answer (IsParting scene.now.parts.now w.now)) }
{
    if !is_direction(d) {
        return Ok(None);
    }
    match leaving_at(scene, w, d)? {
        None => Ok(None),
        Some(leaving) => Ok(Some(Parting::Leaves(leaving))),
    }
}

// that parts are stuck, if their pairs hold them together
fn staying_if_held<F: FacetSource>(
    alloc: Global,
    source: &F,
    parts: &[Part],
    hold: Hold,
) -> Result<Option<Parting>, OutOfMemory>
    requires parts { All IsPart parts.now }
    requires count { length parts.now < 2 ^ 32 }
    ensures { (w : List ℕ) → IfOk result (λ answer. IfSome answer (IsParting parts.now w)) }
{
    if are_held(alloc, source, parts, &hold)? {
        return Ok(Some(Parting::Stays(hold)));
    }
    Ok(None)
}

/// How `w` goes on by a guess, if that is right.
pub fn parting_by_guess<F: FacetSource>(
    scene: &Scene<F>,
    asked: &[AskedRows],
    w: &[u32],
) -> Result<Option<Parting>, OutOfMemory>
    requires bodies { AreBodies scene.now.parts.now scene.now.bodies.now }
    requires count { length scene.now.parts.now < 2 ^ 32 }
    requires members { All (λ p. p < length scene.now.parts.now) w.now }
    requires ascending { IsStrictlySortedBy nat_cmp w.now }
    requires two { 2 ≤ length w.now }
    requires few { length w.now < 2 ^ 32 }
    ensures { IfOk result (λ answer. IfSome answer (IsParting scene.now.parts.now w.now)) }
{
    match guess_of(scene, asked, w)? {
        Guess::None => Ok(None),
        Guess::Free(d) => leaving_if_free(scene, w, d),
        Guess::Stuck(hold) => staying_if_held(scene.alloc, scene.source, scene.parts, hold),
    }
}

/// How `w` goes on, by all pairs of its pieces.
pub fn parting_by_all<F: FacetSource>(scene: &Scene<F>, w: &[u32]) -> Result<Parting, OutOfMemory>
    requires bodies { AreBodies scene.now.parts.now scene.now.bodies.now }
    requires count { length scene.now.parts.now < 2 ^ 32 }
    requires pieces { All (λ part. length part.pieces < 2 ^ 32) scene.now.parts.now }
    requires members { All (λ p. p < length scene.now.parts.now) w.now }
    requires ascending { IsStrictlySortedBy nat_cmp w.now }
    requires two { 2 ≤ length w.now }
    requires few { length w.now < 2 ^ 32 }
    ensures { IfOk result (IsParting scene.now.parts.now w.now) }
{
    let places = places_in(scene.alloc, w, scene.parts.len() as u32)?;
    let count = w.len() as u32;
    let pairs = all_pairs(scene.alloc, scene.parts, places.as_slice(), w)?;
    match first_gap(
        scene.alloc,
        scene.source,
        scene.parts,
        places.as_slice(),
        count,
        pairs.as_slice(),
    )? {
        None => {
            let nodes = copied(scene.alloc, w)?;
            let pairs = Arcs::from_vec(pairs);
            Ok(Parting::Stays(Hold { nodes, pairs }))
        }
        Some(d) => match leaving_at(scene, w, d)? {
            None => unreachable!(),
            Some(leaving) => Ok(Parting::Leaves(leaving)),
        },
    }
}
