// The command `drill`: the program tried on a product of its own.
ghost use Rattle.std.specs.Prelude.{◌≡◌, ◌<◌, Ok, IfOk, IfErr, false};
ghost use Rattle.staat_model.specs.declared.certificate.Certificate.{Certificate as CertificateValue};
ghost use Rattle.staat_model.specs.Outcomes.{IsOutcome, finding_of};
ghost use Rattle.staat_model.specs.Reasons.{IsVerdict};
ghost use Rattle.staat_cert.specs.Writing.{IsTextAnswer};
ghost use Rattle.staat_pairs.specs.Tables.{WasMadeFrom};
ghost use Rattle.staat_certify.specs.Certifying.{CanBeCertified};
ghost use Rattle.staat_text.specs.PlanTexts.{CanBeShown};
ghost use Rattle.staat_words.specs.Requests.{IsNamedProduct};
ghost use Rattle.staat_input.specs.Work.{Files, Follows};
ghost use Rattle.staat_planning.specs.Drills.{IsCountedDrill, IsDrilled, drill_line, parts_of_product, DrillWork};
ghost use Rattle.staat_input.specs.Counting.{all_parts};
ghost use Rattle.staat_input.specs.Causes.{HasCause, ShelfSide};
ghost use Rattle.staat_input.specs.Taking.{IsWorkedOut};

use crate::plan::{certificate_text, outcome_of};
use staat_cert::{CertRefusal, read_cert};
use staat_check::check;
use staat_drill::{nested_boxes, row_of_cubes};
use staat_fault::Fault;
use staat_input::{Answer, tested};
use staat_limits::MOST_PLANES;
use staat_model::{Assembly, Certificate, Outcome, Sound, Verdict};
use staat_planes::PlaneTable;
use staat_text::drill_text;
use staat_vec::{Bytes, OutOfMemory};
use staat_words::DrillProduct;
use std::alloc::Global;

// The product.
fn product(alloc: Global, product: DrillProduct) -> Result<Assembly, OutOfMemory>
    requires { IsNamedProduct product }
    ensures { IfOk result (λ a. a ≡ parts_of_product product) }
{
    match product {
        DrillProduct::Cubes(n) => row_of_cubes(alloc, n),
        DrillProduct::Boxes(n) => nested_boxes(alloc, n),
    }
}

// The certificate that a text was written of, read in it.
fn read_again(alloc: Global, text: &Bytes) -> Result<Certificate, OutOfMemory>
    requires { (c : CertificateValue) × IsTextAnswer c (Ok text.now) }
    ensures { (c : CertificateValue) → IsTextAnswer c (Ok text.now) → IfOk result (λ read. read ≡ c) }
{
    match read_cert(alloc, text.as_slice()) {
        Ok(certificate) => Ok(certificate),
        Err(CertRefusal::OutOfMemory) => Err(OutOfMemory),
        Err(CertRefusal::BadLine(_)) => unreachable!(),
        Err(CertRefusal::ShortCert) => unreachable!(),
        Err(CertRefusal::TooLong) => unreachable!(),
    }
}

// The verdict on the certificate that is read in a text.
fn judged(alloc: Global, sound: &Sound, text: &Bytes) -> Result<Verdict, OutOfMemory>
    requires { (c : CertificateValue) × IsTextAnswer c (Ok text.now) }
    ensures { (c : CertificateValue) → IsTextAnswer c (Ok text.now) → IfOk result (IsVerdict sound.now c) }
{
    let read = read_again(alloc, text)?;
    check(alloc, sound, &read)
}

// The line of a product, with the verdict on the certificate that is read in the text.
fn line(
    alloc: Global,
    product: DrillProduct,
    outcome: &Outcome,
    bytes: usize,
    verdict: &Verdict,
) -> Result<Bytes, OutOfMemory>
    requires { CanBeShown (finding_of outcome.now) }
    ensures { IfOk result (λ text. text ≡ drill_line product (finding_of outcome.now) bytes verdict.now) }
{
    match product {
        DrillProduct::Cubes(n) => drill_text(alloc, "row", n, outcome, bytes, verdict),
        DrillProduct::Boxes(n) => drill_text(alloc, "box", n, outcome, bytes, verdict),
    }
}

// The answer for an outcome: its certificate is written, read again and judged.
fn drilled(
    alloc: Global,
    name: DrillProduct,
    sound: &Sound,
    table: &PlaneTable,
    outcome: &Outcome,
) -> Result<Answer, Fault>
    requires made { WasMadeFrom sound.now table.now }
    requires outcome { IsOutcome false sound.now (all_parts sound.now) (finding_of outcome.now) }
    requires shown { CanBeShown (finding_of outcome.now) }
    requires certified { CanBeCertified sound.now (finding_of outcome.now) }
    ensures { IsWorkedOut (IsDrilled name sound.now) result }
{
    let certificate = certificate_text(alloc, sound, table, outcome, 2)?;
    let verdict = judged(alloc, sound, &certificate)?;
    let text = line(alloc, name, outcome, certificate.as_slice().len(), &verdict)?;
    Ok(Answer { status: 0, text })
}

// The answer for a sound product.
fn counted(alloc: Global, name: DrillProduct, sound: &Sound) -> Result<Answer, Fault>
    ensures { IsWorkedOut (IsCountedDrill name sound.now) result }
{
    let (outcome, table) = outcome_of(alloc, sound, MOST_PLANES, false)?;
    drilled(alloc, name, sound, &table, &outcome)
}

/// The answer to the command `drill`: a product that the program makes itself is planned, its certificate is written,
/// read again and judged, and a line says what came of it. No file is read.
pub fn drill(alloc: Global, name: DrillProduct) -> Result<Answer, Fault>
    requires { IsNamedProduct name }
    ensures status { IfOk result (λ a. a.status < 2) }
    ensures found { (files : Files) → Follows (DrillWork name files) result }
    ensures cause { (shelf : ShelfSide) → IfErr result (HasCause shelf) }
{
    let assembly = product(alloc, name)?;
    let sound = tested(alloc, assembly)?;
    counted(alloc, name, &sound)
}
