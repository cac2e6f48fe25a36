// The text of a verdict on a certificate.
ghost use Rattle.std.specs.Prelude.{◌≡◌, ◌++◌, IfOk, codes, decimal, string_bytes};
ghost use Rattle.staat_model.specs.Lines.{vector_numbers};
ghost use Rattle.staat_text.specs.PlanTexts.{numbers_before};
ghost use Rattle.staat_text.specs.Verdicts.{reason_text, verdict_text};

use staat_model::{Reason, Verdict};
use staat_vec::{Bytes, OutOfMemory, V3};
use std::alloc::{AllocError, Global};

// A broken rule with the number that tells where.
fn rule_at(alloc: Global, rule: &str, n: u32) -> Result<String, AllocError>
    ensures { IfOk result (λ s. string_bytes s ≡ codes "not valid: " ++ rule.now ++ decimal n ++ codes "\n") }
{
    format!(in alloc; "not valid: {rule}{n}\n")
}

fn missing_separator(alloc: Global, a: u32, i: u32, b: u32, j: u32) -> Result<String, AllocError>
    ensures { IfOk result (λ s. string_bytes s ≡ codes "not valid: " ++ codes "missing separator "
        ++ decimal a ++ codes " " ++ decimal i ++ codes " " ++ decimal b ++ codes " " ++ decimal j ++ codes "\n") }
{
    format!(in alloc; "not valid: missing separator {a} {i} {b} {j}\n")
}

fn missing_direction(alloc: Global, d: V3) -> Result<String, AllocError>
    ensures { IfOk result (λ s. string_bytes s ≡ codes "not valid: " ++ codes "missing direction"
        ++ numbers_before (vector_numbers d) (codes "\n")) }
{
    let V3 { x, y, z } = d;
    format!(in alloc; "not valid: missing direction {x} {y} {z}\n")
}

// The line of a certificate that is not valid.
#[tactic(auto, unfolding(crate::specs::Verdicts::reason_text))]
fn reason_line(alloc: Global, reason: &Reason) -> Result<String, AllocError>
    ensures { IfOk result (λ s. string_bytes s ≡ codes "not valid: " ++ reason_text reason.now) }
{
    match reason {
        Reason::WrongParts(stated) => rule_at(alloc, "wrong parts ", *stated),
        Reason::BadLeaves(node) => rule_at(alloc, "bad leaves at node ", *node),
        Reason::ZeroDirection(node) => rule_at(alloc, "zero direction at node ", *node),
        Reason::BadSeparator(line) => rule_at(alloc, "bad separator on line ", *line),
        Reason::MissingSeparator(a, i, b, j) => missing_separator(alloc, *a, *i, *b, *j),
        Reason::BadStuckSet => String::from_str(alloc, "not valid: bad stuck set\n"),
        Reason::BadArc(line) => rule_at(alloc, "bad arc on line ", *line),
        Reason::BadTree(witness) => rule_at(alloc, "bad tree in witness ", *witness),
        Reason::MissingDirection(d) => missing_direction(alloc, *d),
    }
}

/// The line of a verdict: `valid plan`, `valid refusal`, or `not valid: ` and the first rule that is broken, with the
/// numbers that tell where.
#[tactic(auto, unfolding(crate::specs::Verdicts::verdict_text))]
pub fn verdict_text(alloc: Global, verdict: &Verdict) -> Result<Bytes, OutOfMemory>
    ensures { IfOk result (λ text. text ≡ verdict_text verdict.now) }
{
    let line = match verdict {
        Verdict::ValidPlan => String::from_str(alloc, "valid plan\n")?,
        Verdict::ValidRefusal => String::from_str(alloc, "valid refusal\n")?,
        Verdict::Not(reason) => reason_line(alloc, reason)?,
    };
    Ok(Bytes::from_vec(line.into_bytes()))
}
