// What the lines so far have said.
ghost use Rattle.std.specs.Prelude.{◌≡◌, ◌<◌, ◌^◌};

use crate::short::{ShortCertificate, ShortNode};
use staat_holds::Hold;
use staat_model::Arc;

/// Whether a plan takes all parts apart, or may end in groups.
#[derive(Clone, Copy)]
pub enum PlanKind {
    Plan,
    Rest,
}

/// The nodes so far, and how many trees are wanted after them.
#[derive(Drop)]
pub struct Growth {
    pub nodes: Vec<ShortNode>,
    pub wanted: u64,
    ghost small: { wanted < 2 ^ 40 },
}

/// The nodes and pairs of a hold so far.
#[derive(Drop)]
pub struct OpenHold {
    pub nodes: Vec<u32>,
    pub pairs: Vec<Arc>,
}

/// Where holds stand: they are the whole answer, or a group of a plan, whose nodes and wanted trees are those without
/// the group.
#[derive(Drop)]
pub enum Place {
    Whole,
    InPlan(Growth),
}

/// The holds before the last one, and the last one.
#[derive(Drop)]
pub struct Holding {
    pub place: Place,
    pub holds: Vec<Hold>,
    pub last: Option<OpenHold>,
}

/// What the lines so far have said, of so many parts.
#[derive(Drop)]
pub enum Stage {
    Untitled,
    Titled,
    Counting(u32),
    Planning {
        parts: u32,
        kind: PlanKind,
        growth: Growth,
    },
    Holding {
        parts: u32,
        holding: Holding,
    },
    Complete(ShortCertificate),
}

/// The next stage takes the place of this one.
pub fn advance(stage: &mut Stage, next: Stage)
    ensures { stage.new ≡ next }
{
    *stage = next;
}
