// The command `decide`: a plan that takes a product of any size apart, or parts of it that are stuck.
ghost use Rattle.std.specs.Prelude.{◌≡◌, ◌≤◌, ◌<◌, IfOk, IfErr, false, true};
ghost use Rattle.std.specs.Prelude.{[]};
ghost use Rattle.staat_input.specs.Opened.{OpensSomeOf};
ghost use Rattle.staat_input.specs.declared.limits.TheConstants.Limits.{PRODUCT};
ghost use Rattle.staat_limits.specs.declared.limits.TheConstants.{MOST_PRODUCT_PARTS};
ghost use Rattle.staat_model.specs.Assemblies.{IsProduct};
ghost use Rattle.staat_holds.specs.Partials.{IsShownRest};
ghost use Rattle.staat_decide.specs.Decided.{IsDecision};
ghost use Rattle.staat_words.specs.Requests.{IsAskedWithin};
ghost use Rattle.staat_input.specs.Work.{Follows};
ghost use Rattle.staat_input.specs.Counting.{all_parts};
ghost use Rattle.staat_input.specs.Causes.{HasCause, ShelfSide};
ghost use Rattle.staat_input.specs.Taking.{DoesWork, IsWorkedOut};
ghost use Rattle.staat_deciding.specs.Deciding.{DecideWork, IsDecided, IsDecidedAs, IsDecidedDown, IsDecidedShort};

use crate::certificate::{
    hold_certificate, plan_answer, plan_certificate, refusal_answer, rest_certificate,
    whole_certificate,
};
use crate::rest_text::{has_groups, rest_text};
use staat_cone::Scan;
use staat_decide::Decision;
use staat_edge::Shelf;
use staat_fault::Fault;
use staat_holds::GroupedTree;
use staat_input::{Answer, read_product};
use staat_model::{Part, SoundProduct};
use staat_rest::plan_to_groups;
use staat_text::{steps_text, stuck_text};
use staat_words::DecideRequest;
use std::alloc::Global;

// The answer for what the parts of a product come to.
#[tactic(auto, using(crate::proofs::DecidedLemmas::deciding))]
fn answer_of(alloc: Global, parts: &[Part], decision: &Decision) -> Result<Answer, Fault>
    requires product { IsProduct parts.now }
    requires decision { IsDecision parts.now (all_parts parts.now) decision.now }
    ensures status { IfOk result (λ a. a.status < 2) }
    ensures decided { Follows (IsDecided parts.now) result }
    ensures cause { (shelf : ShelfSide) → IfErr result (HasCause shelf) }
{
    match decision {
        Decision::Apart(tree) => {
            let text = steps_text(alloc, tree)?;
            Ok(Answer { status: 0, text })
        }
        Decision::Held(hold) => {
            let text = stuck_text(alloc, hold.nodes.as_slice())?;
            Ok(Answer { status: 1, text })
        }
    }
}

// The answer for the plan that parts come to where all is taken apart that comes apart.
#[tactic(auto, using(crate::proofs::DownLemmas::writing))]
fn down_answer(alloc: Global, parts: &[Part], tree: &GroupedTree) -> Result<Answer, Fault>
    requires product { IsProduct parts.now }
    requires shown { IsShownRest parts.now tree.now }
    ensures status { IfOk result (λ a. a.status < 2) }
    ensures decided { Follows (IsDecidedDown parts.now) result }
    ensures cause { (shelf : ShelfSide) → IfErr result (HasCause shelf) }
{
    let text = rest_text(alloc, tree)?;
    if has_groups(tree) {
        Ok(Answer { status: 1, text })
    } else {
        Ok(Answer { status: 0, text })
    }
}

// The certificate of what the parts of a product come to, as an answer.
fn certificate_answer(
    alloc: Global,
    product: &SoundProduct,
    decision: Decision,
) -> Result<Answer, Fault>
    requires { IsDecision product.now (all_parts product.now) decision }
    ensures { IsWorkedOut (IsDecidedShort false product.now) result }
{
    match decision {
        Decision::Apart(tree) => {
            let plan = plan_certificate(alloc, product, &tree)?;
            plan_answer(alloc, &plan)
        }
        Decision::Held(hold) => {
            let refusal = hold_certificate(alloc, product, hold)?;
            refusal_answer(alloc, &refusal)
        }
    }
}

// The answer for a product: the steps of a plan that takes all parts apart, or parts that are stuck; or the
// certificate of either.
#[tactic(auto, using(crate::proofs::DecidedLemmas::bounds))]
fn decided(alloc: Global, product: &SoundProduct, certificate: bool) -> Result<Answer, Fault>
    ensures { IsWorkedOut (IsDecidedAs false certificate product.now) result }
{
    let parts = product.product().as_slice();
    let decision = staat_decide::decide(alloc, &Scan, parts)?;
    if certificate {
        certificate_answer(alloc, product, decision)
    } else {
        answer_of(alloc, parts, &decision)
    }
}

// The certificate of a plan down to groups, as an answer.
fn down_certificate_answer(
    alloc: Global,
    product: &SoundProduct,
    tree: GroupedTree,
) -> Result<Answer, Fault>
    requires { IsShownRest product.now tree }
    ensures { IsWorkedOut (IsDecidedShort true product.now) result }
{
    if has_groups(&tree) {
        let refusal = rest_certificate(alloc, product, tree)?;
        refusal_answer(alloc, &refusal)
    } else {
        let plan = whole_certificate(alloc, product, tree)?;
        plan_answer(alloc, &plan)
    }
}

// The answer for a product where all is taken apart that comes apart: the steps, and the groups that are stuck; or
// the certificate of them.
#[tactic(auto, using(crate::proofs::DecidedLemmas::bounds))]
fn decided_down(alloc: Global, product: &SoundProduct, certificate: bool) -> Result<Answer, Fault>
    ensures { IsWorkedOut (IsDecidedAs true certificate product.now) result }
{
    let parts = product.product().as_slice();
    let tree = plan_to_groups(alloc, &Scan, parts)?;
    if certificate {
        down_certificate_answer(alloc, product, tree)
    } else {
        down_answer(alloc, parts, &tree)
    }
}

// The answer for a product, as the flags ask.
fn answer_as(
    alloc: Global,
    product: &SoundProduct,
    rest: bool,
    certificate: bool,
) -> Result<Answer, Fault>
    ensures { IsWorkedOut (IsDecidedAs rest certificate product.now) result }
{
    if rest {
        decided_down(alloc, product, certificate)
    } else {
        decided(alloc, product, certificate)
    }
}

/// The answer to the command `decide`: the steps of a plan that takes all parts of a product apart, or parts that are
/// stuck, so that none does; where the rest is asked for, all that comes apart and the groups that are stuck; where a
/// certificate is asked for, the text of one.
pub fn decide<H: Shelf>(
    alloc: Global,
    request: &DecideRequest,
    shelf: &mut H,
) -> Result<Answer, Fault>
    requires { IsAskedWithin MOST_PRODUCT_PARTS request.now.asked }
    ensures { DoesWork (DecideWork request.now) (OpensSomeOf PRODUCT request.now.asked.input []) HasCause
        (H.told shelf.old) (H.told shelf.new) result }
{
    let product = read_product(alloc, shelf, &request.asked)?;
    answer_as(alloc, &product, request.rest, request.certificate)
}
