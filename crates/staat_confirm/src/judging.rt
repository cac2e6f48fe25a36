// The verdict on a short certificate.
ghost use Rattle.std.specs.Prelude.{◌≡◌, ◌≤◌, All, IfOk, Ok, length};
ghost use Rattle.staat_short.specs.ShortTexts.{AreHoldsInOrder, IsShortInOrder};
ghost use Rattle.staat_confirm.specs.declared.verdict.ShortVerdict.{ShortVerdict as VerdictValue};
ghost use Rattle.staat_confirm.specs.Owners.{AreFitNodes};
ghost use Rattle.staat_confirm.specs.Splits.{KeepsHolds};
ghost use Rattle.staat_confirm.specs.ShortVerdicts.{
  IsAnswerVerdict,
  IsFitAnswer,
  IsHoldsVerdict,
  IsNodesVerdict,
  IsShortVerdict,
  ShowsPlan,
  ShowsRefusal,
};

use crate::groups::{are_ungrouped, broken_group};
use crate::owners::owners_of;
use crate::splits::unclear_split;
use crate::verdict::{ShortReason, ShortVerdict};
use staat_cone::FacetSource;
use staat_holds::{Hold, first_broken_hold};
use staat_model::{Product, SoundProduct};
use staat_short::{ShortAnswer, ShortCertificate, ShortNode};
use staat_vec::OutOfMemory;
use std::alloc::Global;

// the verdict on nodes of which the groups keep the rules
fn plan_verdict<F: FacetSource>(
    alloc: Global,
    source: &F,
    product: &Product,
    nodes: &[ShortNode],
) -> Result<ShortVerdict, OutOfMemory>
    requires fit { AreFitNodes nodes.now }
    requires keep { All (KeepsHolds product.now) nodes.now }
    ensures { IfOk result (IsNodesVerdict product.now nodes.now) }
{
    match owners_of(alloc, product.as_slice(), nodes)? {
        Err(node) => Ok(ShortVerdict::Not(ShortReason::BadLeaves(node))),
        Ok(owners) => match unclear_split(alloc, source, product, nodes, owners.as_slice())? {
            Some(reason) => Ok(ShortVerdict::Not(reason)),
            None => {
                if are_ungrouped(nodes) {
                    Ok(ShortVerdict::ValidPlan)
                } else {
                    Ok(ShortVerdict::ValidRefusal)
                }
            }
        },
    }
}

// the verdict on nodes
fn nodes_verdict<F: FacetSource>(
    alloc: Global,
    source: &F,
    product: &Product,
    nodes: &[ShortNode],
) -> Result<ShortVerdict, OutOfMemory>
    requires { AreFitNodes nodes.now }
    ensures { IfOk result (IsNodesVerdict product.now nodes.now) }
{
    // a product has few parts
    let _parts = product.parts();
    match broken_group(alloc, source, product.as_slice(), nodes)? {
        Some(group) => Ok(ShortVerdict::Not(ShortReason::GroupBreaks {
            node: group.node,
            broken: group.broken,
        })),
        None => plan_verdict(alloc, source, product, nodes),
    }
}

// the verdict on a stuck set
fn holds_verdict<F: FacetSource>(
    alloc: Global,
    source: &F,
    product: &Product,
    holds: &[Hold],
) -> Result<ShortVerdict, OutOfMemory>
    requires { AreHoldsInOrder holds.now }
    ensures { IfOk result (IsHoldsVerdict product.now holds.now) }
{
    // a product has few parts
    let _parts = product.parts();
    match first_broken_hold(alloc, source, product.as_slice(), holds)? {
        Some(broken) => Ok(ShortVerdict::Not(ShortReason::HoldBreaks(broken))),
        None => Ok(ShortVerdict::ValidRefusal),
    }
}

// the verdict on an answer
fn answer_verdict<F: FacetSource>(
    alloc: Global,
    source: &F,
    product: &Product,
    answer: &ShortAnswer,
) -> Result<ShortVerdict, OutOfMemory>
    requires { IsFitAnswer answer.now }
    ensures { IfOk result (IsAnswerVerdict product.now answer.now) }
{
    match answer {
        ShortAnswer::Plan(nodes) => nodes_verdict(alloc, source, product, nodes.as_slice()),
        ShortAnswer::Stuck(holds) => holds_verdict(alloc, source, product, holds.as_slice()),
        ShortAnswer::Rest(nodes) => nodes_verdict(alloc, source, product, nodes.as_slice()),
    }
}

/// Whether a short certificate is valid for a product, or the first rule that it breaks.
///
/// The certificate's numbers are within the bounds of its text and its lists in the order of the text, as they are
/// where it was read. A plan that is valid takes all parts apart, and at no split do the two sides ever meet. A refusal
/// that is valid names sets of parts that are stuck, and no plan takes all parts apart.
///
/// At a split each part that moves is compared with each one that rests, first by what is kept of whole parts.
pub fn confirm<F: FacetSource>(
    alloc: Global,
    source: &F,
    product: &SoundProduct,
    c: &ShortCertificate,
) -> Result<ShortVerdict, OutOfMemory>
    requires { IsShortInOrder c.now }
    ensures verdict { IfOk result (IsShortVerdict product.now c.now) }
    ensures only { IfOk result (λ v. (u : VerdictValue) → IsShortVerdict product.now c.now u → v ≡ u) }
    ensures plan { result ≡ Ok ShortVerdict.ValidPlan → ShowsPlan product.now c.now.answer }
    ensures refusal { result ≡ Ok ShortVerdict.ValidRefusal → ShowsRefusal product.now c.now.answer }
{
    let product = product.product();
    if c.parts != product.parts() {
        return Ok(ShortVerdict::Not(ShortReason::WrongParts(c.parts)));
    }
    answer_verdict(alloc, source, product, &c.answer)
}
