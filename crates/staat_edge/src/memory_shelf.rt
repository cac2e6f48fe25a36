// A shelf in memory, which fails at the calls that it is told.
ghost use Rattle.std.specs.Prelude.{min, ◌^◌, ◌≡◌, ◌≤◌, ◌<◌, ◌+◌, ◌||◌, ◌&&◌, ℕ, []};
ghost use Rattle.std.specs.Prelude.{List, length, take, drop, Option, Some, None, IsOk, IfOk, is_err, is_some, not};
ghost use Rattle.std.specs.Prelude.{IfNone, IfSome, option_map, slice_get};
ghost use Rattle.std.specs.Option.{ForSome};
ghost use Rattle.std.specs.Io.KnownBytes.{Consumes, IsAtEnd};
ghost use Rattle.staat_edge.specs.Calls.{is_due, after_call};
ghost use Rattle.staat_edge.specs.Files.{bytes_of, name_of_file, left_at, length_of, IsFirstOfName};
ghost use Rattle.staat_edge.specs.Steps.{readings};

use crate::schedule::Schedule;
use crate::trace::Trace;
use crate::{Calls, Failed, Files, Shelf};
use staat_vec::{Bytes, Name, OutOfMemory};
use std::alloc::Global;

/// A shelf in memory, which holds the files that it is given.
///
/// Its calls of `open` and `read` are numbered together from 0. A call fails exactly where its
/// number is in the list of failing calls, or where it opens a name that is not held. The count of
/// faults rises exactly at a call whose number is in the list, unless that call opens a name that
/// is not held. A read gives as many bytes as the least of the buffer's length, `chunk` and what is
/// left of the file.
#[derive(Drop)]
pub struct MemoryShelf {
    files: Files,
    chunk: usize,
    schedule: Schedule,
    // the index of the open file, and the place in it
    current: Option<(usize, usize)>,
    // the index of the file at which a call failed last
    failed: Option<usize>,
    trace: Trace,
    ghost steps: { 0 < chunk },
    ghost known: { ForSome current (λ p. IsFirstOfName files p.0) },
}

// The index of the first file of that name.
fn find(files: &[(Name, Bytes)], name: &str) -> Option<usize>
    ensures none { IfNone result (bytes_of name.now files.now ≡ None) }
    ensures some { IfSome result (λ i. IsFirstOfName files.now i) }
    ensures named { IfSome result (λ i. name_of_file files.now (Some i) ≡ Some name.now) }
{
    for (i, file) in files.iter().enumerate() {
        if file.0.as_str() == name {
            return Some(i);
        }
    }
    None
}

// Copies as many bytes as both have, and answers how many.
fn copy_front(from: &[u8], to: &mut [u8]) -> usize
    ensures count { result ≡ min (length from.now) (length to.old) }
    ensures copied { take result to.new ≡ take result from.now }
{
    let count = from.len().min(to.len());
    to[..count].copy_from_slice(&from[..count]);
    count
}

// Copies what comes next of a file, and answers how much.
fn read_part(files: &[(Name, Bytes)], index: usize, place: usize, buf: &mut [u8]) -> usize
    ensures count { let left = left_at files.now (Some (index, place)) in
        result ≡ min (length buf.old) (length_of left) }
    ensures bytes { let left = left_at files.now (Some (index, place)) in
        let next = Some (index, place + result) in
        Consumes left (left_at files.now next) (take result buf.new) }
    ensures end { let next = Some (index, place + result) in
        result ≡ 0 → 0 < length buf.new → IsAtEnd (left_at files.now next) }
    ensures fits { place + result < 2 ^ 64 }
{
    match files.get(index) {
        None => 0,
        Some(file) => {
            let bytes = file.1.as_slice();
            if place < bytes.len() {
                copy_front(&bytes[place..], buf)
            } else {
                0
            }
        }
    }
}

impl MemoryShelf {
    /// A shelf that holds these files, with none open. A read gives at most `chunk` bytes, and the
    /// calls of the list fail. It keeps the lists that it is given, so it never wants memory.
    pub fn new(
        alloc: Global,
        files: Files,
        failing: Calls,
        chunk: usize,
    ) -> Result<MemoryShelf, OutOfMemory>
        requires { 0 < chunk }
        ensures made { IsOk result }
        ensures files { IfOk result (λ s. s.files ≡ files) }
        ensures chunk { IfOk result (λ s. s.chunk ≡ chunk) }
        ensures failing { IfOk result (λ s. s.schedule.failing ≡ failing) }
        ensures next { IfOk result (λ s. s.schedule.next ≡ 0) }
        ensures faults { IfOk result (λ s. s.schedule.faults ≡ 0) }
        ensures closed { IfOk result (λ s. s.current ≡ None) }
        ensures failed { IfOk result (λ s. s.failed ≡ None) }
        ensures nothing { IfOk result (λ s. s.trace.steps ≡ []) }
    {
        let _ = alloc;
        Ok(MemoryShelf {
            files,
            chunk,
            schedule: Schedule::new(failing),
            current: None,
            failed: None,
            trace: Trace::new(),
        })
    }
}

impl Shelf for MemoryShelf {
    ghost told = { λ s. record {
      holds = Some s.files;
      faults = s.schedule.faults;
      failed = name_of_file s.files s.failed;
      opened = name_of_file s.files (option_map (λ at. at.0) s.current);
      place = option_map (λ at. at.1) s.current;
      given = readings s.trace.steps;
    } };

    ghost left = { λ s. left_at s.files s.current };

    // exactly when a call fails, and what it raises
    ghost opens = { λ s name failed t.
        let held = is_some (bytes_of name s.files) in
        (failed ≡ (not held || is_due s.schedule))
        × (t.schedule ≡ after_call (held && is_due s.schedule) s.schedule)
        × (t.chunk ≡ s.chunk) };

    // exactly when a call fails, what it raises and how much it gives
    ghost reads = { λ s buf r t.
        (is_err r ≡ is_due s.schedule)
        × IfOk r (λ n. n ≡ min (min (length buf) s.chunk) (length_of (left_at s.files s.current)))
        × (t.schedule ≡ after_call (is_due s.schedule) s.schedule)
        × (t.chunk ≡ s.chunk) };

    fn open(&mut self, name: &str) -> Result<(), Failed> {
        let is_due = self.schedule.begin();
        self.current = None;
        match find(self.files.as_slice(), name) {
            None => Err(Failed),
            Some(index) if is_due => {
                self.schedule.fault();
                self.failed = Some(index);
                Err(Failed)
            }
            Some(index) => {
                self.current = Some((index, 0));
                self.trace.keep_opened(name);
                Ok(())
            }
        }
    }

    fn read(&mut self, buf: &mut [u8]) -> Result<usize, Failed> {
        let is_due = self.schedule.begin();
        let Some((index, place)) = self.current else {
            unreachable!();
        };
        if is_due {
            self.schedule.fault();
            self.failed = Some(index);
            return Err(Failed);
        }
        let most = buf.len().min(self.chunk);
        let count = read_part(self.files.as_slice(), index, place, &mut buf[..most]);
        self.current = Some((index, place + count));
        self.trace.keep_read(count, buf);
        Ok(count)
    }

    ghost use Rattle.staat_edge.specs.Held.{held_in, left_is_told, no_name, no_untold};

    ghost left_is = { λ s. left_is_told s.files s.current s.known };

    ghost held_is = { λ s held same place is_open. held_in s.files held s.current s.known same place is_open };

    ghost closed_is = { λ s. no_name s.files s.current };

    ghost untold_is = { λ s h. no_untold s.files h };
}
