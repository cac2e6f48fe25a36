// A sink in memory, which fails at the calls that it is told.
ghost use Rattle.std.specs.Prelude.{◌≡◌, ◌≤◌, ◌<◌, ◌-◌, ◌||◌, ◌&&◌, ◌==◌, nat_lt, min};
ghost use Rattle.std.specs.Prelude.{ℕ, [], length, Some, IfOk, is_err, vec_len, vec_capacity};
ghost use Rattle.staat_edge.specs.Calls.{is_due, after_call};

use crate::schedule::Schedule;
use crate::{Calls, Failed, Sink};
use staat_vec::OutOfMemory;
use std::alloc::Global;

/// A sink in memory, with room for a number of bytes that is reserved when it is made.
///
/// Its calls are numbered from 0. A call fails exactly where its number is in the list of failing
/// calls, or where there are bytes and no room is left, and then the count of faults rises. Every
/// other call takes as many bytes as the least of their number, `chunk` and the room left.
#[derive(Drop)]
pub struct MemorySink {
    taken: Vec<u8>,
    room: usize,
    chunk: usize,
    schedule: Schedule,
    ghost within: { vec_len taken ≤ room },
    ghost reserved: { room ≤ vec_capacity taken },
    ghost steps: { 0 < chunk },
}

impl MemorySink {
    /// An empty sink with room for that many bytes, which takes at most `chunk` of them at a call
    /// and fails at the calls of the list. The room is reserved at once.
    pub fn new(
        alloc: Global,
        room: usize,
        failing: Calls,
        chunk: usize,
    ) -> Result<MemorySink, OutOfMemory>
        requires { 0 < chunk }
        ensures taken { IfOk result (λ s. s.taken.items ≡ []) }
        ensures room { IfOk result (λ s. s.room ≡ room) }
        ensures chunk { IfOk result (λ s. s.chunk ≡ chunk) }
        ensures failing { IfOk result (λ s. s.schedule.failing ≡ failing) }
        ensures next { IfOk result (λ s. s.schedule.next ≡ 0) }
        ensures faults { IfOk result (λ s. s.schedule.faults ≡ 0) }
    {
        Ok(MemorySink {
            taken: Vec::with_capacity(alloc, room)?,
            room,
            chunk,
            schedule: Schedule::new(failing),
        })
    }

    /// The bytes taken so far.
    pub fn taken(&self) -> &[u8]
        ensures { result.now ≡ self.now.taken.items }
    {
        self.taken.as_slice()
    }
}

impl Sink for MemorySink {
    ghost told = { λ s. record { wrote = Some s.taken.items; faults = s.schedule.faults } };

    // exactly when a call fails, what it raises and how much it takes
    ghost writes = { λ s bytes r t.
        let left = s.room - vec_len s.taken in
        (is_err r ≡ (is_due s.schedule || (nat_lt 0 (length bytes) && (left == 0))))
        × IfOk r (λ n. n ≡ min (min (length bytes) s.chunk) left)
        × (t.schedule ≡ after_call (is_err r) s.schedule)
        × (t.room ≡ s.room)
        × (t.chunk ≡ s.chunk) };

    fn write(&mut self, bytes: &[u8]) -> Result<usize, Failed> {
        let is_due = self.schedule.begin();
        let left = self.room - self.taken.len();
        if is_due || (!bytes.is_empty() && left == 0) {
            self.schedule.fault();
            return Err(Failed);
        }
        let count = bytes.len().min(self.chunk).min(left);
        self.taken.extend_from_slice(&bytes[..count]).unwrap();
        Ok(count)
    }
}
