// The certificates of what a product comes to, and their texts as answers.
ghost use Rattle.std.specs.Prelude.{◌≡◌, ◌≤◌, ◌<◌, Bool, false, true, List, IfOk, IfErr, length};
ghost use Rattle.staat_limits.specs.declared.limits.TheConstants.{TEXT_LIMIT};
ghost use Rattle.staat_model.specs.declared.assembly.Part.{Part as PartValue};
ghost use Rattle.staat_model.specs.Assemblies.{IsProduct};
ghost use Rattle.staat_model.specs.Plans.{IsGood, plan_of};
ghost use Rattle.staat_holds.specs.Partials.{HasSmallDirections, HasTogether, IsShownRest, partial_of};
ghost use Rattle.staat_decide.specs.Decided.{IsStuckHold};
ghost use Rattle.staat_short.specs.ShortTexts.{IsShortInOrder, short_text};
ghost use Rattle.staat_confirm.specs.declared.verdict.ShortVerdict.TheVariants.{ValidPlan, ValidRefusal};
ghost use Rattle.staat_confirm.specs.ShortVerdicts.{IsShortVerdict};
ghost use Rattle.staat_input.specs.Causes.{HasCause, ShelfSide};
ghost use Rattle.staat_input.specs.Counting.{all_parts};
ghost use Rattle.staat_input.specs.Work.{Follows};
ghost use Rattle.staat_deciding.specs.Certificates.{IsShownPlan, IsShownRefusal};
ghost use Rattle.staat_deciding.specs.Deciding.{IsDecidedShort, IsShortRefusal};

use staat_fault::Fault;
use staat_holds::{GroupedTree, Hold, Holds, ordered};
use staat_input::{Answer, text_fault};
use staat_model::{SoundProduct, Tree};
use staat_short::{ShortAnswer, ShortCertificate, grouped_nodes, plan_nodes, short_text};
use staat_vec::OutOfMemory;
use std::alloc::Global;

// The certificate with this answer, which states how many parts the product has.
fn stated(product: &SoundProduct, answer: ShortAnswer) -> ShortCertificate
    ensures is { result ≡ record { parts = length product.now; answer = answer } }
    ensures product { IsProduct product.now }
{
    let parts = product.product().parts();
    ShortCertificate { parts, answer }
}

/// The certificate of a plan that takes all parts apart.
pub fn plan_certificate(
    alloc: Global,
    product: &SoundProduct,
    tree: &Tree,
) -> Result<ShortCertificate, OutOfMemory>
    requires good { IsGood product.now (all_parts product.now) (plan_of tree.now) }
    requires directions { HasSmallDirections (plan_of tree.now) }
    ensures { IfOk result (IsShownPlan product.now) }
{
    let nodes = plan_nodes(alloc, tree)?;
    Ok(stated(product, ShortAnswer::Plan(nodes)))
}

/// The certificate of parts that are stuck.
pub fn hold_certificate(
    alloc: Global,
    product: &SoundProduct,
    hold: Hold,
) -> Result<ShortCertificate, OutOfMemory>
    requires { IsStuckHold product.now hold }
    ensures { IfOk result (IsShownRefusal false product.now) }
{
    let mut holds = Vec::new(alloc);
    holds.push(ordered(hold))?;
    Ok(stated(product, ShortAnswer::Stuck(Holds::from_vec(holds))))
}

/// The certificate of a plan down to groups, of which there are some.
pub fn rest_certificate(
    alloc: Global,
    product: &SoundProduct,
    tree: GroupedTree,
) -> Result<ShortCertificate, OutOfMemory>
    requires shown { IsShownRest product.now tree }
    requires some { HasTogether (partial_of tree) }
    ensures { IfOk result (IsShownRefusal true product.now) }
{
    let nodes = grouped_nodes(alloc, tree)?;
    Ok(stated(product, ShortAnswer::Rest(nodes)))
}

/// The certificate of a plan down to groups, of which there are none.
pub fn whole_certificate(
    alloc: Global,
    product: &SoundProduct,
    tree: GroupedTree,
) -> Result<ShortCertificate, OutOfMemory>
    requires shown { IsShownRest product.now tree }
    requires none { HasTogether (partial_of tree) → ⊥ }
    ensures { IfOk result (IsShownPlan product.now) }
{
    let nodes = grouped_nodes(alloc, tree)?;
    Ok(stated(product, ShortAnswer::Plan(nodes)))
}

/// The answer that is the certificate of a plan. Its text is not too long.
#[tactic(auto, using(crate::proofs::CertificateLemmas::writing))]
pub fn plan_answer(alloc: Global, c: &ShortCertificate) -> Result<Answer, Fault>
    requires order { IsShortInOrder c.now }
    requires few { length (short_text c.now) ≤ TEXT_LIMIT }
    ensures status { IfOk result (λ a. a.status < 2) }
    ensures decided { (rest : Bool) (parts : List PartValue) → IsShortVerdict parts c.now ValidPlan
        → Follows (IsDecidedShort rest parts) result }
    ensures cause { (shelf : ShelfSide) → IfErr result (HasCause shelf) }
{
    match short_text(alloc, c) {
        Ok(text) => Ok(Answer { status: 0, text }),
        Err(refusal) => Err(text_fault(refusal)),
    }
}

/// The answer that is the certificate of a refusal, or that its text is too long.
#[tactic(auto, using(crate::proofs::CertificateLemmas::writing))]
pub fn refusal_answer(alloc: Global, c: &ShortCertificate) -> Result<Answer, Fault>
    requires { IsShortInOrder c.now }
    ensures status { IfOk result (λ a. a.status < 2) }
    ensures decided { (rest : Bool) (parts : List PartValue) → IsShortVerdict parts c.now ValidRefusal
        → IsShortRefusal rest c.now.answer → Follows (IsDecidedShort rest parts) result }
    ensures cause { (shelf : ShelfSide) → IfErr result (HasCause shelf) }
{
    match short_text(alloc, c) {
        Ok(text) => Ok(Answer { status: 1, text }),
        Err(refusal) => Err(text_fault(refusal)),
    }
}
