// The text of a trial on a product that the program makes itself.
ghost use Rattle.std.specs.Prelude.{◌≡◌, ◌++◌, IfOk, codes, decimal};
ghost use Rattle.staat_model.specs.Outcomes.{finding_of};
ghost use Rattle.staat_model.specs.Plans.{plan_of};
ghost use Rattle.staat_text.specs.DrillTexts.{drill_text, outcome_words, verdict_words};
ghost use Rattle.staat_text.specs.PlanTexts.{CanBeShown, HasLeaves, steps_of};

use crate::plans::steps_of;
use crate::verdicts::verdict_text;
use staat_model::{Outcome, Verdict};
use staat_number::push_number;
use staat_vec::{Bytes, OutOfMemory};
use std::alloc::{AllocError, Global};

// Adds a number between two words.
#[tactic(auto, using(std::proofs::Common::append_assoc))]
fn push_counted(text: &mut Vec<u8>, before: &[u8], n: u64, behind: &[u8]) -> Result<(), AllocError>
    ensures { IfOk result (λ _. text.new.items ≡ text.old.items ++ (before.now ++ decimal n ++ behind.now)) }
{
    text.extend_from_slice(before)?;
    push_number(text, n as i128)?;
    text.extend_from_slice(behind)?;
    Ok(())
}

// Adds how many splits a plan has, or how many parts are stuck.
fn push_outcome(text: &mut Vec<u8>, outcome: &Outcome) -> Result<(), AllocError>
    requires { CanBeShown (finding_of outcome.now) }
    ensures { IfOk result (λ _. text.new.items ≡ text.old.items ++ outcome_words (finding_of outcome.now)) }
{
    match outcome {
        Outcome::Plan { tree, .. } => push_counted(text, b"", steps_of(tree) as u64, b" splits"),
        Outcome::Stuck(w) => push_counted(text, b"stuck ", w.count() as u64, b" parts"),
    }
}

// Adds the end of the line.
fn push_verdict(alloc: Global, text: &mut Vec<u8>, verdict: &Verdict) -> Result<(), OutOfMemory>
    ensures { IfOk result (λ _. text.new.items ≡ text.old.items ++ verdict_words verdict.now) }
{
    match verdict {
        Verdict::ValidPlan | Verdict::ValidRefusal => text.extend_from_slice(b"valid\n")?,
        Verdict::Not(_) => {
            let words = verdict_text(alloc, verdict)?;
            text.extend_from_slice(words.as_slice())?;
        }
    }
    Ok(())
}

/// The line of a trial: `drill KIND N: `, then `K splits` or `stuck K parts`, `, B bytes, ` and the verdict on the
/// certificate, which has so many bytes: `valid`, or the rule that it breaks.
///
/// The leaves of a plan are different parts below [`MOST_PARTS`](staat_model::MOST_PARTS).
pub fn drill_text(
    alloc: Global,
    kind: &str,
    n: u32,
    outcome: &Outcome,
    bytes: usize,
    verdict: &Verdict,
) -> Result<Bytes, OutOfMemory>
    requires { CanBeShown (finding_of outcome.now) }
    ensures { IfOk result (λ text.
        text ≡ drill_text kind.now n (finding_of outcome.now) bytes verdict.now) }
{
    let mut text = b"drill ".to_vec(alloc)?;
    text.extend_from_slice(kind.as_bytes())?;
    push_counted(&mut text, b" ", n as u64, b": ")?;
    push_outcome(&mut text, outcome)?;
    push_counted(&mut text, b", ", bytes as u64, b" bytes, ")?;
    push_verdict(alloc, &mut text, verdict)?;
    Ok(Bytes::from_vec(text))
}
