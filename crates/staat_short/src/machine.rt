// Whether the next line may stand there.
ghost use Rattle.std.specs.Prelude.{◌≡◌, ℕ, IfOk, option_map};
ghost use Rattle.staat_cert.specs.TextLines.{MakesState};
ghost use Rattle.staat_short.specs.Fronts.{after_end, after_kind, after_parts, after_stuck, after_title, complete};
ghost use Rattle.staat_short.specs.Fronts.{planning, short_answer};
ghost use Rattle.staat_short.specs.ShortStanding.{EndsGroup, IsShortLineText, TakesShortLine};
ghost use Rattle.staat_short.specs.ShortTexts.{IsShortTextOf};
ghost use Rattle.staat_short.specs.ShortViews.{HasTakenShort, front_of, holding_of};

use crate::hold_lines::{close_hold, hold, pair, part};
use crate::line::ShortLine;
use crate::line_reading::line_of;
use crate::plan_lines::{close_group, group, leaf, split};
use crate::short::{ShortAnswer, ShortCertificate, ShortNode};
use crate::stage::{Growth, Holding, Place, PlanKind, Stage, advance};
use staat_cert::TextStage;
use staat_vec::Listed;
use std::alloc::{AllocError, Global};
use std::mem;

fn title(stage: &mut Stage) -> bool
    ensures { MakesState (after_title (front_of stage.old)) result (front_of stage.new) }
{
    match stage {
        Stage::Untitled => {
            advance(stage, Stage::Titled);
            true
        }
        _ => false,
    }
}

fn parts(stage: &mut Stage, n: u32) -> bool
    ensures { MakesState (after_parts (front_of stage.old) n) result (front_of stage.new) }
{
    match stage {
        Stage::Titled => {
            advance(stage, Stage::Counting(n));
            true
        }
        _ => false,
    }
}

fn plan(alloc: Global, kind: PlanKind, stage: &mut Stage) -> bool
    ensures { MakesState (after_kind kind (front_of stage.old)) result (front_of stage.new) }
{
    match stage {
        Stage::Counting(parts) => {
            let parts = *parts;
            let growth = Growth {
                nodes: Vec::new(alloc),
                wanted: 1,
            };
            advance(
                stage,
                Stage::Planning {
                    parts,
                    kind,
                    growth,
                },
            );
            true
        }
        _ => false,
    }
}

fn stuck(alloc: Global, stage: &mut Stage) -> bool
    ensures { MakesState (after_stuck (front_of stage.old)) result (front_of stage.new) }
{
    match stage {
        Stage::Counting(parts) => {
            let parts = *parts;
            let holding = Holding {
                place: Place::Whole,
                holds: Vec::new(alloc),
                last: None,
            };
            advance(stage, Stage::Holding { parts, holding });
            true
        }
        _ => false,
    }
}

fn answer_of(kind: PlanKind, nodes: Vec<ShortNode>) -> ShortAnswer
    ensures { result ≡ short_answer kind nodes.items }
{
    match kind {
        PlanKind::Plan => ShortAnswer::Plan(Listed::from_vec(nodes)),
        PlanKind::Rest => ShortAnswer::Rest(Listed::from_vec(nodes)),
    }
}

// The holds, where they are the whole answer and there is one at least.
fn whole_holds(alloc: Global, holding: &mut Holding) -> Result<Option<ShortAnswer>, AllocError>
    ensures { IfOk result (λ o. (n : ℕ)
        → option_map (λ answer. complete (record { parts = n; answer = answer })) o
        ≡ after_end (holding_of n holding.old)) }
{
    match (&holding.place, &holding.last) {
        (Place::Whole, Some(_)) => {
            close_hold(holding)?;
            let holds = mem::replace(&mut holding.holds, Vec::new(alloc));
            Ok(Some(ShortAnswer::Stuck(Listed::from_vec(holds))))
        }
        _ => Ok(None),
    }
}

// The nodes, where no tree is wanted.
fn whole_plan(alloc: Global, kind: PlanKind, growth: &mut Growth) -> Option<ShortAnswer>
    ensures { (n : ℕ) → option_map (λ answer. complete (record { parts = n; answer = answer })) result
        ≡ after_end (planning n kind growth.old.nodes.items growth.old.wanted) }
{
    if growth.wanted != 0 {
        return None;
    }
    let nodes = mem::replace(&mut growth.nodes, Vec::new(alloc));
    Some(answer_of(kind, nodes))
}

// The certificate that ends there.
fn ending(alloc: Global, stage: &mut Stage) -> Result<Option<ShortCertificate>, AllocError>
    ensures { IfOk result (λ o. option_map complete o ≡ after_end (front_of stage.old)) }
{
    let (parts, answer) = match stage {
        Stage::Planning {
            parts,
            kind,
            growth,
        } => (*parts, whole_plan(alloc, *kind, growth)),
        Stage::Holding { parts, holding } => (*parts, whole_holds(alloc, holding)?),
        _ => return Ok(None),
    };
    match answer {
        None => Ok(None),
        Some(answer) => Ok(Some(ShortCertificate { parts, answer })),
    }
}

fn end(alloc: Global, stage: &mut Stage) -> Result<bool, AllocError>
    ensures { IfOk result (λ b. MakesState (after_end (front_of stage.old)) b (front_of stage.new)) }
{
    match ending(alloc, stage)? {
        Some(certificate) => {
            advance(stage, Stage::Complete(certificate));
            Ok(true)
        }
        None => Ok(false),
    }
}

// A line that belongs to no hold.
fn line_behind(alloc: Global, stage: &mut Stage, line: ShortLine) -> Result<bool, AllocError>
    requires { EndsGroup line }
    ensures { IfOk result (λ b. TakesShortLine (front_of stage.old) line b (front_of stage.new)) }
{
    close_group(alloc, stage)?;
    match line {
        ShortLine::Leaf(p) => leaf(stage, p),
        ShortLine::Split(d) => split(stage, d),
        ShortLine::Group => Ok(group(alloc, stage)),
        _ => end(alloc, stage),
    }
}

// Whether the line may stand there. If so it is taken.
fn take_line(alloc: Global, stage: &mut Stage, line: ShortLine) -> Result<bool, AllocError>
    ensures { IfOk result (λ b. TakesShortLine (front_of stage.old) line b (front_of stage.new)) }
{
    match line {
        ShortLine::Title => Ok(title(stage)),
        ShortLine::Parts(n) => Ok(parts(stage, n)),
        ShortLine::Plan => Ok(plan(alloc, PlanKind::Plan, stage)),
        ShortLine::Stuck => Ok(stuck(alloc, stage)),
        ShortLine::Rest => Ok(plan(alloc, PlanKind::Rest, stage)),
        ShortLine::Hold => hold(alloc, stage),
        ShortLine::Part(p) => part(stage, p),
        ShortLine::Pair(arc) => pair(stage, arc),
        _ => line_behind(alloc, stage, line),
    }
}

impl TextStage for Stage {
    type Line = ShortLine;

    type Whole = ShortCertificate;

    ghost says = { IsShortLineText };

    ghost spells = { IsShortTextOf };

    ghost has_taken = { HasTakenShort };

    fn line_of(numbers: &mut Vec<i128>, bytes: &[u8]) -> Result<Option<ShortLine>, AllocError> {
        line_of(numbers, bytes)
    }

    fn take_line(&mut self, alloc: Global, said: ShortLine) -> Result<bool, AllocError> {
        take_line(alloc, self, said)
    }

    fn is_whole(&self) -> bool {
        matches!(self, Stage::Complete(_))
    }

    fn whole(self) -> Option<ShortCertificate> {
        match self {
            Stage::Complete(certificate) => Some(certificate),
            _ => None,
        }
    }
}
