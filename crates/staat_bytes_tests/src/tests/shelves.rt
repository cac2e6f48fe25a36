// Shelves and sinks: whole files and whole texts, where calls fail and where they do not.

use crate::tests::comparing::{same_bytes, same_count, same_text, same_truth, text_of};
use crate::tests::inputs::{bytes, name};
use staat_edge::{
    Calls, DiskShelf, Failed, Files, MemoryShelf, MemorySink, ReadRefusal, Shelf, Sink, StreamSink,
    read_whole, write_whole,
};
use staat_vec::{Bytes, Name};
use std::alloc::Global;
use std::io::Write;
use std::process::Abort;
use std::{fs, io};

/// A call that no run reaches.
pub const NEVER: u64 = u64::MAX;

const CANNOT: &str = "the file cannot be read";

const TOO_LONG: &str = "the file is too long";

// A name, the call that fails, how many bytes the shelf gives at a time, and the limit; and what is read. With one
// byte at a time the whole of `greeting` takes the calls 0 to 6: one that opens it, five for its bytes and one that
// finds its end.
const READINGS: [(&str, u64, u16, u16, &str); 14] = [
    ("greeting", NEVER, 1, 5, "hello"),
    ("greeting", NEVER, 2, 5, "hello"),
    ("greeting", NEVER, 8, 1000, "hello"),
    ("greeting", NEVER, 8, 4, TOO_LONG),
    ("greeting", NEVER, 1, 0, TOO_LONG),
    ("greeting", 0, 1, 5, CANNOT),
    ("greeting", 1, 1, 5, CANNOT),
    ("greeting", 5, 1, 5, CANNOT),
    ("greeting", 6, 1, 5, CANNOT),
    ("greeting", 7, 1, 5, "hello"),
    ("greeting", 6, 1, 4, TOO_LONG),
    ("empty", NEVER, 1, 0, ""),
    ("absent", NEVER, 1, 5, CANNOT),
    ("", NEVER, 1, 5, CANNOT),
];

fn file(rt: &impl Abort, alloc: Global, file: &str, text: &str) -> (Name, Bytes) {
    (name(rt, alloc, file), bytes(rt, alloc, text))
}

fn files(rt: &impl Abort, alloc: Global) -> Files {
    let greeting = file(rt, alloc, "greeting", "hello");
    let empty = file(rt, alloc, "empty", "");
    Files::from_vec(Vec::from_array(alloc, [greeting, empty]).expect(rt, "memory"))
}

/// The one call that fails.
pub fn calls(rt: &impl Abort, alloc: Global, failing: u64) -> Calls {
    Calls::from_vec([failing].to_vec(alloc).expect(rt, "memory"))
}

// The text that was read, or why there is none.
fn told(rt: &impl Abort, alloc: Global, read: Result<Bytes, ReadRefusal>) -> String {
    match read {
        Ok(bytes) => String::from_utf8(bytes.into_vec()).expect(rt, "a text"),
        Err(refusal) => text_of(rt, alloc, &refusal),
    }
}

// Reads a whole file, of at most so many bytes.
fn read<S: Shelf>(
    rt: &impl Abort,
    alloc: Global,
    shelf: &mut S,
    file: &str,
    limit: u16,
    want: &str,
) {
    let got = told(rt, alloc, read_whole(alloc, shelf, file, limit as usize));
    same_text(rt, got.as_str(), want, file);
}

// A shelf in memory of which this call fails, and that gives so many bytes at a time.
fn shelf(rt: &impl Abort, alloc: Global, failing: u64, chunk: u16) -> MemoryShelf {
    let (files, failing) = (files(rt, alloc), calls(rt, alloc, failing));
    MemoryShelf::new(alloc, files, failing, (chunk as usize).max(1)).expect(rt, "memory")
}

#[test]
fn a_whole_file_is_read_unless_a_call_fails(rt: HostRuntime) {
    for row in &READINGS {
        let mut shelf = shelf(&rt, rt.alloc(), row.1, row.2);
        read(&rt, rt.alloc(), &mut shelf, row.0, row.3, row.4);
    }
}

// The room of a sink, the call that fails, how many bytes it takes at a time, and a text; and what it takes of it.
const WRITINGS: [(usize, u64, u16, &str, &str); 8] = [
    (5, NEVER, 8, "hello", "hello"),
    (5, NEVER, 1, "hello", "hello"),
    (4, NEVER, 8, "hello", "hell"),
    (0, NEVER, 8, "hello", ""),
    (5, 0, 8, "hello", ""),
    (5, 1, 2, "hello", "he"),
    (5, 3, 2, "hello", "hello"),
    (0, 0, 1, "", ""),
];

// Writes a whole text, of which the sink takes this.
fn write(rt: &impl Abort, mut sink: MemorySink, text: &str, taken: &str) {
    let got = write_whole(&mut sink, text.as_bytes());
    same_truth(rt, got.is_ok(), taken == text, taken);
    same_bytes(rt, sink.taken(), taken.as_bytes(), taken);
}

fn sink(rt: &impl Abort, alloc: Global, room: usize, failing: u64, chunk: u16) -> MemorySink {
    let failing = calls(rt, alloc, failing);
    MemorySink::new(alloc, room, failing, (chunk as usize).max(1)).expect(rt, "memory")
}

#[test]
fn a_sink_takes_what_fits_until_a_call_fails(rt: HostRuntime) {
    for row in &WRITINGS {
        let sink = sink(&rt, rt.alloc(), row.0, row.1, row.2);
        write(&rt, sink, row.3, row.4);
    }
}

// A writer over memory that can be told to take nothing, or to fail to flush.
#[derive(Drop)]
struct Teller {
    told: Vec<u8>,
    flushed: usize,
    takes: bool,
    flushes: bool,
}

impl Write for Teller {
    fn write(&mut self, buf: &[u8]) -> io::Result<usize> {
        if !self.takes {
            return Ok(0);
        }
        self.told.extend_from_slice(buf)?;
        Ok(buf.len())
    }

    fn flush(&mut self) -> io::Result<()> {
        if !self.flushes {
            return Err(io::Error::from(io::ErrorKind::Other));
        }
        self.flushed = self.told.len();
        Ok(())
    }
}

// Writes five bytes to a writer that takes bytes or not, and flushes or not, and counts those that are flushed.
fn tell(rt: &impl Abort, alloc: Global, takes: bool, flushes: bool, flushed: usize) {
    let mut teller = Teller {
        told: Vec::new(alloc),
        flushed: 0,
        takes,
        flushes,
    };
    let got = StreamSink::new(&mut teller).write(b"hello");
    same_truth(rt, got == Ok(5), flushed == 5, "a write");
    same_truth(rt, got == Err(Failed), flushed == 0, "a fault");
    same_count(rt, teller.flushed, flushed, "a flush");
}

#[test]
fn a_stream_is_flushed_after_each_write(rt: HostRuntime) {
    tell(&rt, rt.alloc(), true, true, 5);
    tell(&rt, rt.alloc(), true, false, 0);
    tell(&rt, rt.alloc(), false, true, 0);
}

const ONE: &str = "staat_bytes_tests_one";

const OTHER: &str = "staat_bytes_tests_other";

// Names and limits: a file at the limit, one past it, one that is not there after one that is, and the first again.
const ON_DISK: [(&str, u16, &str); 6] = [
    (ONE, 5, "hello"),
    (ONE, 4, TOO_LONG),
    (OTHER, 5, "other"),
    ("no such folder/no such file", 5, CANNOT),
    (ONE, 5, "hello"),
    ("", 5, CANNOT),
];

#[test]
fn a_disk_gives_the_file_that_was_opened_last(rt: HostRuntime) {
    fs::write(&rt, ONE, "hello").expect(&rt, "a file");
    fs::write(&rt, OTHER, "other").expect(&rt, "a file");
    let mut shelf = DiskShelf::new(&rt);
    for row in &ON_DISK {
        read(&rt, rt.alloc(), &mut shelf, row.0, row.1, row.2);
    }
    fs::remove_file(&rt, ONE).expect(&rt, "a file");
    fs::remove_file(&rt, OTHER).expect(&rt, "a file");
}
