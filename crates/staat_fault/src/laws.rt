// What is proved of the lines and the statuses of faults.
ghost use Rattle.std.specs.Prelude.{◌≡◌, ◌≤◌};
ghost use Rattle.staat_fault.specs.declared.fault.Fault.TheVariants as fault;
ghost use Rattle.staat_fault.specs.Faults.{line_of, status_of};

use crate::line::{MEMORY_LINE, USAGE_LINE, WRITE_LINE};

/// The line that is said on err without memory where the words make no request.
#[tactic(auto, unfolding(crate::specs::Faults::line_of, crate::specs::Faults::body_of))]
pub fn usage_line() -> &'static [u8]
    ensures { result.now ≡ line_of fault.Usage }
{
    USAGE_LINE
}

/// The line that is said on err without memory where a sink failed.
#[tactic(auto, unfolding(crate::specs::Faults::line_of, crate::specs::Faults::body_of))]
pub fn write_line() -> &'static [u8]
    ensures { result.now ≡ line_of fault.WriteFault }
{
    WRITE_LINE
}

/// The line that is said on err without memory where there is none.
#[tactic(auto, unfolding(crate::specs::Faults::line_of, crate::specs::Faults::body_of))]
pub fn memory_line() -> &'static [u8]
    ensures { result.now ≡ line_of fault.OutOfMemory }
{
    MEMORY_LINE
}
