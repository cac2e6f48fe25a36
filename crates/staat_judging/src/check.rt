// The command `check`: whether a certificate is valid for the parts.
ghost use Rattle.std.specs.Prelude.{◌≡◌, ◌<◌, IfOk, IfErr};
ghost use Rattle.std.specs.Prelude.{◌∷◌, []};
ghost use Rattle.staat_fault.specs.declared.fault.Fault.TheVariants.{OutOfMemory};
ghost use Rattle.staat_input.specs.Opened.{OpensSomeOf};
ghost use Rattle.staat_input.specs.declared.limits.TheConstants.Limits.{ASSEMBLY};
ghost use Rattle.staat_model.specs.Texts.{IsWellFormed};
ghost use Rattle.staat_words.specs.Requests.{IsAsked};
ghost use Rattle.staat_words.specs.declared.request.CheckRequest.{CheckRequest};
ghost use Rattle.staat_input.specs.Work.{Follows};
ghost use Rattle.staat_judging.specs.Checking.{IsChecked, verdict_answer, CheckWork};
ghost use Rattle.staat_judging.specs.Causes.{HasCheckCause};
ghost use Rattle.staat_input.specs.Causes.{ShelfSide};
ghost use Rattle.staat_input.specs.Taking.{DoesWork};

use crate::certificate::read_certificate;
use staat_edge::Shelf;
use staat_fault::Fault;
use staat_input::{Answer, read_sound};
use staat_model::{Certificate, Sound, Verdict};
use staat_text::verdict_text;
use staat_words::CheckRequest;
use std::alloc::Global;

// The answer that a verdict is.
fn answer_of(alloc: Global, verdict: &Verdict) -> Result<Answer, Fault>
    ensures status { IfOk result (λ a. a.status < 2) }
    ensures is { IfOk result (λ a. a ≡ verdict_answer verdict.now) }
    ensures memory { IfErr result (λ fault. fault ≡ OutOfMemory) }
{
    let text = verdict_text(alloc, verdict)?;
    match verdict {
        Verdict::Not(_) => Ok(Answer { status: 1, text }),
        Verdict::ValidPlan => Ok(Answer { status: 0, text }),
        Verdict::ValidRefusal => Ok(Answer { status: 0, text }),
    }
}

// The answer that the verdict on the certificate is.
fn judged(alloc: Global, sound: &Sound, certificate: &Certificate) -> Result<Answer, Fault>
    requires { IsWellFormed certificate.now }
    ensures status { IfOk result (λ a. a.status < 2) }
    ensures checked { Follows (IsChecked sound.now certificate.now) result }
    ensures cause { (request : CheckRequest) (shelf : ShelfSide) → IfErr result (HasCheckCause request shelf) }
{
    let verdict = staat_check::check(alloc, sound, certificate)?;
    answer_of(alloc, &verdict)
}

/// The answer to the command `check`: whether the certificate is valid for the parts, or the first rule that it
/// breaks. The parts are read and tested before the certificate's file is opened.
pub fn check<H: Shelf>(
    alloc: Global,
    request: &CheckRequest,
    shelf: &mut H,
) -> Result<Answer, Fault>
    requires { IsAsked request.now.asked }
    ensures { DoesWork (CheckWork request.now)
        (OpensSomeOf ASSEMBLY request.now.asked.input (request.now.certificate ∷ [])) (HasCheckCause request.now)
        (H.told shelf.old) (H.told shelf.new) result }
{
    let sound = read_sound(alloc, shelf, &request.asked)?;
    let certificate = read_certificate(alloc, shelf, &request.certificate)?;
    judged(alloc, &sound, &certificate)
}
