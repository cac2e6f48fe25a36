// The status that the program ends with.
ghost use Rattle.std.specs.Prelude.{◌≡◌, ◌≤◌};
ghost use Rattle.staat_fault.specs.Faults.{status_of};

use crate::fault::Fault;

/// The status that the program ends with: 2 to 7.
pub fn status_of(fault: &Fault) -> u8
    ensures value { result ≡ status_of fault.now }
    ensures least { 2 ≤ result }
    ensures most { result ≤ 7 }
{
    match fault {
        Fault::Usage => 2,
        Fault::TooLong(_) | Fault::TooManyPlanes(_) | Fault::TooFar(_) | Fault::TextTooLong(_) => 4,
        Fault::ReadFault(_) => 5,
        Fault::WriteFault => 6,
        Fault::OutOfMemory => 7,
        _ => 3,
    }
}
