// The command `explode`: how far each part moves, so that all parts stand apart for a drawing.
ghost use Rattle.std.specs.Prelude.{◌≡◌, ◌≤◌, ◌<◌, Ok, IfOk, IfErr, List, All, length, true};
ghost use Rattle.std.specs.Prelude.{[]};
ghost use Rattle.staat_input.specs.Opened.{OpensSomeOf};
ghost use Rattle.staat_input.specs.declared.limits.TheConstants.Limits.{ASSEMBLY};
ghost use Rattle.staat_vec.specs.Vectors.{IsWithin};
ghost use Rattle.staat_limits.specs.declared.limits.TheConstants.{MOST_PIECES};
ghost use Rattle.staat_model.specs.Outcomes.{finding_of};
ghost use Rattle.staat_model.specs.Plans.{IsGood, plan_of};
ghost use Rattle.staat_manifest.specs.declared.listing.ListedPart.{ListedPart as ListedPartValue};
ghost use Rattle.staat_explode.specs.declared.grow.TheConstants.{FARTHEST};
ghost use Rattle.staat_certify.specs.Certifying.{CanBeCertified};
ghost use Rattle.staat_text.specs.PlanTexts.{CanBeShown};
ghost use Rattle.staat_words.specs.Requests.{IsExplodeRequest};
ghost use Rattle.staat_input.specs.Work.{Files, Follows};
ghost use Rattle.staat_input.specs.Inputs.{IsListingOf};
ghost use Rattle.staat_input.specs.Drawing.{AreSmall, solids_of};
ghost use Rattle.staat_planning.specs.Exploding.{explode_fault, AreShifted, ExplodeWork, IsCountedView};
ghost use Rattle.staat_planning.specs.Exploding.{IsPlanViewed, IsOutcomeViewed, IsViewed};
ghost use Rattle.staat_input.specs.Counting.{all_parts};
ghost use Rattle.staat_input.specs.Causes.{HasCause, ShelfSide};
ghost use Rattle.staat_input.specs.Taking.{DoesWork};

use crate::plan::outcome_of;
use staat_edge::Shelf;
use staat_explode::{ExplodeRefusal, Shifts, Solids, scene_text, shifts_text};
use staat_fault::Fault;
use staat_input::{Answer, Sketch, read_sketched, text_fault};
use staat_model::{Outcome, Sound, Tree};
use staat_text::plan_text;
use staat_vec::Bytes;
use staat_words::ExplodeRequest;
use std::alloc::Global;

// The fault of a plan whose parts are moved too far.
fn explode_fault(refusal: ExplodeRefusal) -> Fault
    ensures { result ≡ explode_fault refusal }
{
    match refusal {
        ExplodeRefusal::TooFar(node) => Fault::TooFar(node),
        ExplodeRefusal::OutOfMemory => Fault::OutOfMemory,
    }
}

// The vector of each part of a plan.
#[tactic(auto, using(crate::proofs::ExplodeLemmas::shifting))]
fn shifts_of(alloc: Global, sound: &Sound, tree: &Tree) -> Result<Shifts, Fault>
    requires good { IsGood sound.now (all_parts sound.now) (plan_of tree.now) }
    ensures shifted { Follows (AreShifted sound.now (plan_of tree.now)) result }
    ensures each { IfOk result (λ shifts. length shifts ≡ length sound.now) }
    ensures near { IfOk result (All (IsWithin FARTHEST)) }
    ensures cause { (shelf : ShelfSide) → IfErr result (HasCause shelf) }
{
    match staat_explode::explode(alloc, sound, tree) {
        Ok(shifts) => Ok(shifts),
        Err(refusal) => Err(explode_fault(refusal)),
    }
}

// The scene of the solids, each moved by its part's vector.
#[tactic(auto, using(crate::proofs::ExplodeLemmas::viewing))]
fn drawn(alloc: Global, solids: &Solids, shifts: &Shifts) -> Result<Bytes, Fault>
    requires small { AreSmall (length shifts.now) MOST_PIECES solids.now }
    requires near { All (IsWithin FARTHEST) shifts.now }
    ensures viewed { Follows (IsViewed solids.now shifts.now true) result }
    ensures cause { (shelf : ShelfSide) → IfErr result (HasCause shelf) }
{
    match scene_text(alloc, solids, shifts) {
        Ok(text) => Ok(text),
        Err(refusal) => Err(text_fault(refusal)),
    }
}

// The vectors, or the scene.
fn viewed(alloc: Global, solids: &Solids, shifts: &Shifts, off: bool) -> Result<Bytes, Fault>
    requires small { AreSmall (length shifts.now) MOST_PIECES solids.now }
    requires near { All (IsWithin FARTHEST) shifts.now }
    ensures viewed { Follows (IsViewed solids.now shifts.now off) result }
    ensures cause { (shelf : ShelfSide) → IfErr result (HasCause shelf) }
{
    if off {
        return drawn(alloc, solids, shifts);
    }
    let text = shifts_text(alloc, shifts)?;
    Ok(text)
}

// The view of a plan.
fn plan_viewed(
    alloc: Global,
    sound: &Sound,
    tree: &Tree,
    solids: &Solids,
    off: bool,
) -> Result<Bytes, Fault>
    requires small { AreSmall (length sound.now) MOST_PIECES solids.now }
    requires good { IsGood sound.now (all_parts sound.now) (plan_of tree.now) }
    ensures viewed { Follows (IsPlanViewed sound.now solids.now off (plan_of tree.now)) result }
    ensures cause { (shelf : ShelfSide) → IfErr result (HasCause shelf) }
{
    let shifts = shifts_of(alloc, sound, tree)?;
    viewed(alloc, solids, &shifts, off)
}

// The answer for an outcome: the parts that are stuck, or the view of the plan.
fn shown(
    alloc: Global,
    sound: &Sound,
    outcome: &Outcome,
    solids: &Solids,
    off: bool,
) -> Result<Answer, Fault>
    requires small { AreSmall (length sound.now) MOST_PIECES solids.now }
    requires shown { CanBeShown (finding_of outcome.now) }
    requires certified { CanBeCertified sound.now (finding_of outcome.now) }
    ensures status { IfOk result (λ a. a.status < 2) }
    ensures shown { Follows (IsOutcomeViewed sound.now solids.now off (finding_of outcome.now)) result }
    ensures cause { (shelf : ShelfSide) → IfErr result (HasCause shelf) }
{
    match outcome {
        Outcome::Stuck(_) => {
            let text = plan_text(alloc, outcome)?;
            Ok(Answer { status: 1, text })
        }
        Outcome::Plan { tree, .. } => {
            let text = plan_viewed(alloc, sound, tree, solids, off)?;
            Ok(Answer { status: 0, text })
        }
    }
}

// The answer for a sound assembly and its solids.
fn exploded(
    alloc: Global,
    sound: &Sound,
    request: &ExplodeRequest,
    solids: &Solids,
) -> Result<Answer, Fault>
    requires request { IsExplodeRequest request.now }
    requires small { AreSmall (length sound.now) MOST_PIECES solids.now }
    ensures status { IfOk result (λ a. a.status < 2) }
    ensures exploded { (files : Files) (named : List ListedPartValue)
        → IsListingOf files request.now.asked.input (Ok named)
        → (request.now.off ≡ true → solids.now ≡ solids_of files request.now.asked.digits named)
        → Follows (IsCountedView files request.now sound.now) result }
    ensures cause { (shelf : ShelfSide) → IfErr result (HasCause shelf) }
{
    let (outcome, _table) = outcome_of(alloc, sound, request.planes, false)?;
    shown(alloc, sound, &outcome, solids, request.off)
}

/// The answer to the command `explode`: the vectors that move the parts of a plan apart, or the scene of the parts so
/// moved; or the parts that no plan takes apart.
pub fn explode<H: Shelf>(
    alloc: Global,
    request: &ExplodeRequest,
    shelf: &mut H,
) -> Result<Answer, Fault>
    requires { IsExplodeRequest request.now }
    ensures { DoesWork (ExplodeWork request.now) (OpensSomeOf ASSEMBLY request.now.asked.input []) HasCause
        (H.told shelf.old) (H.told shelf.new) result }
{
    let mut sketch = Sketch::new(alloc, request.off);
    let sound = read_sketched(alloc, shelf, &request.asked, &mut sketch)?;
    let solids = Solids::from_vec(sketch.solids);
    exploded(alloc, &sound, request, &solids)
}
