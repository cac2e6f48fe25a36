// The command `plan`: how all parts come apart, or which parts do not.
ghost use Rattle.std.specs.Prelude.{◌≡◌, ◌≤◌, ◌<◌, Ok, Some, IfOk, IfErr, IfSome, true};
ghost use Rattle.std.specs.Prelude.{[]};
ghost use Rattle.staat_input.specs.Opened.{OpensSomeOf};
ghost use Rattle.staat_input.specs.declared.limits.TheConstants.Limits.{ASSEMBLY};
ghost use Rattle.staat_model.specs.Assemblies.{IsAssembly};
ghost use Rattle.staat_limits.specs.Versions.{IsVersion};
ghost use Rattle.staat_model.specs.declared.certificate.Certificate.{Certificate as CertificateValue};
ghost use Rattle.staat_model.specs.Certify.{IsCertificateOf};
ghost use Rattle.staat_model.specs.Outcomes.{IsOutcome, finding_of};
ghost use Rattle.staat_limits.specs.declared.limits.TheConstants.{LEAST_PLANES, MOST_CELL_PLANES, MOST_PLANES};
ghost use Rattle.staat_pairs.specs.Tables.{WasMadeFrom};
ghost use Rattle.staat_cert.specs.Writing.{IsTextAnswer};
ghost use Rattle.staat_certify.specs.Certifying.{CanBeCertified, HasFewPlanes};
ghost use Rattle.staat_text.specs.PlanTexts.{CanBeShown};
ghost use Rattle.staat_words.specs.Requests.{IsPlanRequest};
ghost use Rattle.staat_input.specs.Work.{Follows, Then};
ghost use Rattle.staat_input.specs.Counting.{AreCounted, all_parts};
ghost use Rattle.staat_planning.specs.Planning.{IsCountedPlan, IsPrinted, outcome_answer, PlanWork};
ghost use Rattle.staat_input.specs.Causes.{HasCause, ShelfSide};
ghost use Rattle.staat_input.specs.Taking.{DoesWork, IsWorkedOut};

use staat_cert::cert_text;
use staat_cone::Scan;
use staat_edge::Shelf;
use staat_fault::Fault;
use staat_input::{Answer, planes_fault, read_sound, text_fault};
use staat_model::{Outcome, Sound};
use staat_plan::{Options, Tabulated, certify, plan_with_table};
use staat_planes::PlaneTable;
use staat_text::plan_text;
use staat_vec::Bytes;
use staat_words::PlanRequest;
use std::alloc::Global;

// The parts are those of an assembly.
fn know(sound: &Sound)
    ensures { IsAssembly sound.now }
{
    let _ = sound.assembly().parts();
}

/// The outcome of an assembly that has at most so many planes, robust or not, and the table of all its parts.
#[tactic(auto, using(crate::proofs::PlanLemmas::planning))]
pub fn outcome_of(
    alloc: Global,
    sound: &Sound,
    planes: u32,
    robust: bool,
) -> Result<(Outcome, PlaneTable), Fault>
    requires least { LEAST_PLANES ≤ planes }
    requires most { planes ≤ MOST_PLANES }
    requires cells { robust ≡ true → planes ≤ MOST_CELL_PLANES }
    ensures outcome { IfOk result (λ o. IsOutcome robust sound.now (all_parts sound.now) (finding_of o.0)) }
    ensures few { IfOk result (λ _. HasFewPlanes sound.now (all_parts sound.now) planes) }
    ensures shown { IfOk result (λ o. CanBeShown (finding_of o.0)) }
    ensures certified { IfOk result (λ o. CanBeCertified sound.now (finding_of o.0)) }
    ensures made { IfOk result (λ o. WasMadeFrom sound.now o.1) }
    ensures refused { IfErr result (λ fault. Follows (AreCounted sound.now planes) (Err fault)) }
    ensures cause { (shelf : ShelfSide) → IfErr result (HasCause shelf) }
{
    let options = Options { planes, robust };
    know(sound);
    match plan_with_table(alloc, &Scan, sound, options) {
        Ok(found) => Ok(found),
        Err(refusal) => Err(planes_fault(refusal)),
    }
}

/// The text of the certificate of an outcome.
#[tactic(auto, using(crate::proofs::PlanLemmas::writing))]
pub(crate) fn certificate_text(
    alloc: Global,
    sound: &Sound,
    table: &PlaneTable,
    outcome: &Outcome,
    version: u32,
) -> Result<Bytes, Fault>
    requires version { IsVersion version }
    requires made { WasMadeFrom sound.now table.now }
    requires certified { CanBeCertified sound.now (finding_of outcome.now) }
    ensures written { Follows (IsPrinted sound.now (finding_of outcome.now) (Some version)) result }
    ensures certificate { IfOk result (λ text. (c : CertificateValue)
        × IsCertificateOf sound.now version (finding_of outcome.now) c × IsTextAnswer c (Ok text)) }
    ensures cause { (shelf : ShelfSide) → IfErr result (HasCause shelf) }
{
    let source = Tabulated::of(&Scan, sound, table);
    let certificate = certify(alloc, &source, sound, outcome, version)?;
    match cert_text(alloc, &certificate) {
        Ok(text) => Ok(text),
        Err(refusal) => Err(text_fault(refusal)),
    }
}

// The steps of an outcome, or the text of its certificate.
#[tactic(auto, using(crate::proofs::PlanLemmas::writing))]
fn text_of(
    alloc: Global,
    sound: &Sound,
    table: &PlaneTable,
    outcome: &Outcome,
    certificate: Option<u32>,
) -> Result<Bytes, Fault>
    requires version { IfSome certificate IsVersion }
    requires made { WasMadeFrom sound.now table.now }
    requires shown { CanBeShown (finding_of outcome.now) }
    requires certified { CanBeCertified sound.now (finding_of outcome.now) }
    ensures written { Follows (IsPrinted sound.now (finding_of outcome.now) certificate) result }
    ensures cause { (shelf : ShelfSide) → IfErr result (HasCause shelf) }
{
    match certificate {
        None => {
            let text = plan_text(alloc, outcome)?;
            Ok(text)
        }
        Some(version) => certificate_text(alloc, sound, table, outcome, version),
    }
}

// The answer for an outcome: its steps, or the text of its certificate.
fn answer_of(
    alloc: Global,
    sound: &Sound,
    table: &PlaneTable,
    outcome: &Outcome,
    certificate: Option<u32>,
) -> Result<Answer, Fault>
    requires version { IfSome certificate IsVersion }
    requires made { WasMadeFrom sound.now table.now }
    requires shown { CanBeShown (finding_of outcome.now) }
    requires certified { CanBeCertified sound.now (finding_of outcome.now) }
    ensures status { IfOk result (λ a. a.status < 2) }
    ensures written { Follows (Then (IsPrinted sound.now (finding_of outcome.now) certificate)
        (λ text found. found ≡ Ok (outcome_answer (finding_of outcome.now) text))) result }
    ensures cause { (shelf : ShelfSide) → IfErr result (HasCause shelf) }
{
    let text = text_of(alloc, sound, table, outcome, certificate)?;
    match outcome {
        Outcome::Plan { .. } => Ok(Answer { status: 0, text }),
        Outcome::Stuck(_) => Ok(Answer { status: 1, text }),
    }
}

// The answer for a sound assembly.
fn planned(alloc: Global, sound: &Sound, request: &PlanRequest) -> Result<Answer, Fault>
    requires { IsPlanRequest request.now }
    ensures { IsWorkedOut (IsCountedPlan request.now sound.now) result }
{
    let (outcome, table) = outcome_of(alloc, sound, request.planes, request.robust)?;
    answer_of(alloc, sound, &table, &outcome, request.certificate)
}

/// The answer to the command `plan`: the steps of a plan that takes all parts apart, or the parts that no plan takes
/// apart; or the certificate of either.
pub fn plan<H: Shelf>(alloc: Global, request: &PlanRequest, shelf: &mut H) -> Result<Answer, Fault>
    requires { IsPlanRequest request.now }
    ensures { DoesWork (PlanWork request.now) (OpensSomeOf ASSEMBLY request.now.asked.input []) HasCause
        (H.told shelf.old) (H.told shelf.new) result }
{
    let sound = read_sound(alloc, shelf, &request.asked)?;
    planned(alloc, &sound, request)
}
