// The calls of a shelf or a sink in memory, of which some are to fail.
ghost use Rattle.std.specs.Prelude.{◌≡◌, ◌≤◌};
ghost use Rattle.staat_edge.specs.Causes.{raised};
ghost use Rattle.staat_edge.specs.Calls.{is_due};

use crate::Calls;

/// The numbers of the calls that fail, the number of the next call, and the count of faults. The
/// number and the count stay at the greatest u64 once they are there.
#[derive(Drop)]
pub struct Schedule {
    failing: Calls,
    next: u64,
    faults: u64,
}

impl Schedule {
    /// Calls that are numbered from 0, with a count of 0.
    pub fn new(failing: Calls) -> Schedule
        ensures failing { result.failing ≡ failing }
        ensures next { result.next ≡ 0 }
        ensures faults { result.faults ≡ 0 }
    {
        Schedule {
            failing,
            next: 0,
            faults: 0,
        }
    }

    /// Numbers one more call, and says whether it is to fail.
    pub fn begin(&mut self) -> bool
        ensures due { result ≡ is_due self.old }
        ensures next { self.new ≡ record self.old { next = raised self.old.next } }
    {
        let is_due = self.failing.as_slice().contains(&self.next);
        self.next = self.next.saturating_add(1);
        is_due
    }

    /// Raises the count of faults.
    pub fn fault(&mut self)
        ensures raised { self.new ≡ record self.old { faults = raised self.old.faults } }
        ensures risen { self.old.faults ≤ self.new.faults }
    {
        self.faults = self.faults.saturating_add(1);
    }
}
