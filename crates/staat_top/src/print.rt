// The writing: an answer's text on out, or a fault's line on err.
ghost use Rattle.std.specs.Prelude.{◌≡◌, ◌≢◌, ◌⊎◌, ◌<◌, ◌≤◌};
ghost use Rattle.staat_fault.specs.declared.fault.Fault.TheVariants as faults;
ghost use Rattle.staat_fault.specs.Faults.{line_of};
ghost use Rattle.staat_top.specs.Runs.{SaysPart, SaysWhole, Took, TookPart};
ghost use Rattle.staat_input.specs.Causes.{over};

use staat_edge::{Sink, write_whole};
use staat_fault::{Fault, MEMORY_LINE, USAGE_LINE, WRITE_LINE, fault_line, status_of};
use staat_input::Answer;
use std::alloc::Global;

// Writes a line, and gives the status with it, or the one of a write fault.
fn say<E: Sink>(err: &mut E, line: &[u8], status: u8) -> u8
    requires { status ≢ 6 }
    ensures count { (E.told err.old).faults ≤ (E.told err.new).faults }
    ensures whole { result ≢ 6 → (result ≡ status) × Took
        (over (E.told err.old) (E.told err.new)) line.now }
    ensures part { result ≡ 6 → TookPart
        (over (E.told err.old) (E.told err.new)) line.now }
{
    match write_whole(err, line) {
        Ok(()) => status,
        Err(_) => 6,
    }
}

/// Says on err that there was no memory, which takes none, and gives the status of that, or that of a write fault.
#[tactic(auto, unfolding(staat_fault::specs::Faults::line_of, staat_fault::specs::Faults::body_of))]
pub fn want_memory<E: Sink>(err: &mut E) -> u8
    ensures count { (E.told err.old).faults ≤ (E.told err.new).faults }
    ensures whole { result ≢ 6 → SaysWhole faults.OutOfMemory
        (over (E.told err.old) (E.told err.new)) result }
    ensures part { result ≡ 6 → SaysPart faults.OutOfMemory
        (over (E.told err.old) (E.told err.new)) }
{
    say(err, MEMORY_LINE, 7)
}

/// Writes a fault's line on err, and gives its status, or that of a write fault. The lines of usage and of want of
/// memory take no memory.
#[tactic(auto, unfolding(staat_fault::specs::Faults::line_of, staat_fault::specs::Faults::body_of))]
pub fn refuse<E: Sink>(alloc: Global, fault: &Fault, err: &mut E) -> u8
    requires { fault.now ≢ faults.WriteFault }
    ensures count { (E.told err.old).faults ≤ (E.told err.new).faults }
    ensures whole { result ≢ 6 → SaysWhole fault.now
        (over (E.told err.old) (E.told err.new)) result }
    ensures part { result ≡ 6 → SaysPart fault.now
        (over (E.told err.old) (E.told err.new)) }
{
    match fault {
        Fault::Usage => say(err, USAGE_LINE, 2),
        Fault::OutOfMemory => want_memory(err),
        _ => match fault_line(alloc, fault) {
            Ok(line) => say(err, line.as_slice(), status_of(fault)),
            Err(_) => want_memory(err),
        },
    }
}

/// Writes an answer's text on out, and gives its status, or that of a write fault. Then the line that says so is
/// offered to err.
#[tactic(auto, unfolding(staat_fault::specs::Faults::line_of, staat_fault::specs::Faults::body_of))]
pub fn print<O: Sink, E: Sink>(answer: &Answer, out: &mut O, err: &mut E) -> u8
    requires { answer.now.status < 2 }
    ensures out_count { (O.told out.old).faults ≤ (O.told out.new).faults }
    ensures err_count { (E.told err.old).faults ≤ (E.told err.new).faults }
    ensures whole { result ≢ 6 → (result ≡ answer.now.status) ×
        ((E.told err.new).wrote ≡ (E.told err.old).wrote) ×
        Took (over (O.told out.old) (O.told out.new)) answer.now.text }
    ensures part { result ≡ 6 → TookPart
        (over (O.told out.old) (O.told out.new)) answer.now.text }
    ensures line { result ≡ 6 → Took
        (over (E.told err.old) (E.told err.new)) (line_of faults.WriteFault)
        ⊎ TookPart
        (over (E.told err.old) (E.told err.new)) (line_of faults.WriteFault) }
{
    match write_whole(out, answer.text.as_slice()) {
        Ok(()) => answer.status,
        Err(_) => {
            let _ = write_whole(err, WRITE_LINE);
            6
        }
    }
}
