// The command `confirm`: whether a short certificate is valid for a product of any size.
ghost use Rattle.std.specs.Prelude.{◌≡◌, ◌<◌, IfOk, IfErr};
ghost use Rattle.std.specs.Prelude.{◌∷◌, []};
ghost use Rattle.staat_fault.specs.declared.fault.Fault.TheVariants.{OutOfMemory};
ghost use Rattle.staat_input.specs.Opened.{OpensSomeOf};
ghost use Rattle.staat_input.specs.declared.limits.TheConstants.Limits.{PRODUCT};
ghost use Rattle.staat_limits.specs.declared.limits.TheConstants.{MOST_PRODUCT_PARTS};
ghost use Rattle.staat_short.specs.ShortTexts.{IsShortInOrder};
ghost use Rattle.staat_words.specs.Requests.{IsAskedWithin};
ghost use Rattle.staat_words.specs.declared.request.CheckRequest.{CheckRequest};
ghost use Rattle.staat_input.specs.Work.{Follows};
ghost use Rattle.staat_input.specs.Causes.{ShelfSide};
ghost use Rattle.staat_input.specs.Taking.{DoesWork};
ghost use Rattle.staat_judging.specs.Causes.{HasConfirmCause};
ghost use Rattle.staat_judging.specs.Confirming.{ConfirmWork, IsConfirmed, short_verdict_answer};

use crate::lines::short_verdict_text;
use crate::short_certificate::read_short_certificate;
use staat_cone::Scan;
use staat_confirm::ShortVerdict;
use staat_edge::Shelf;
use staat_fault::Fault;
use staat_input::{Answer, read_product};
use staat_model::SoundProduct;
use staat_short::{ShortAnswer, ShortCertificate};
use staat_words::CheckRequest;
use std::alloc::Global;

// The answer that a verdict on a certificate with this answer is.
fn answer_of(alloc: Global, answer: &ShortAnswer, verdict: &ShortVerdict) -> Result<Answer, Fault>
    ensures status { IfOk result (λ a. a.status < 2) }
    ensures is { IfOk result (λ a. a ≡ short_verdict_answer answer.now verdict.now) }
    ensures memory { IfErr result (λ fault. fault ≡ OutOfMemory) }
{
    let text = short_verdict_text(alloc, answer, verdict)?;
    match verdict {
        ShortVerdict::Not(_) => Ok(Answer { status: 1, text }),
        ShortVerdict::ValidPlan => Ok(Answer { status: 0, text }),
        ShortVerdict::ValidRefusal => Ok(Answer { status: 0, text }),
    }
}

// The answer that the verdict on the certificate is.
fn judged(
    alloc: Global,
    product: &SoundProduct,
    certificate: &ShortCertificate,
) -> Result<Answer, Fault>
    requires { IsShortInOrder certificate.now }
    ensures status { IfOk result (λ a. a.status < 2) }
    ensures confirmed { Follows (IsConfirmed product.now certificate.now) result }
    ensures cause { (request : CheckRequest) (shelf : ShelfSide) → IfErr result (HasConfirmCause request shelf) }
{
    let verdict = staat_confirm::confirm(alloc, &Scan, product, certificate)?;
    answer_of(alloc, &certificate.answer, &verdict)
}

/// The answer to the command `confirm`: whether the short certificate is valid for the parts, or the first rule that
/// it breaks. The parts are read and tested before the certificate's file is opened.
pub fn confirm<H: Shelf>(
    alloc: Global,
    request: &CheckRequest,
    shelf: &mut H,
) -> Result<Answer, Fault>
    requires { IsAskedWithin MOST_PRODUCT_PARTS request.now.asked }
    ensures { DoesWork (ConfirmWork request.now)
        (OpensSomeOf PRODUCT request.now.asked.input (request.now.certificate ∷ [])) (HasConfirmCause request.now)
        (H.told shelf.old) (H.told shelf.new) result }
{
    let product = read_product(alloc, shelf, &request.asked)?;
    let certificate = read_short_certificate(alloc, shelf, &request.certificate)?;
    judged(alloc, &product, &certificate)
}
