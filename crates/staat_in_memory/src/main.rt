//! What the program does for the words behind `--`, over the files before it, which are all read into memory first.
//!
//! It is only for tests, which hold the program over the disk against it: it has another shelf, and reads by another
//! call of the system's library. Status 9 says that a file before `--` cannot be read, or that there is no memory.
#![tactic(auto)]

ghost use Rattle.std.specs.Prelude.{IfSome, map, string_bytes};
ghost use Rattle.staat_in_memory.specs.Parting.{FallApart};

use staat_edge::{Calls, Files, MemoryShelf, StreamSink};
use staat_top::staat;
use staat_vec::{Bytes, Name};
use std::alloc::Global;
use std::process::ExitCode;
use std::{env, fs};

/// How many bytes a read gives, at most.
const PIECE: usize = 65_536;

/// The files of these names, read whole; none where one cannot be read, or where there is no memory.
fn load(rt: &HostRuntime, names: &[String]) -> Option<Files> {
    let mut files = Vec::new(rt.alloc());
    for name in names {
        let bytes = fs::read(rt, name.as_str()).ok()?;
        let name = Name::from_text(rt.alloc(), name.as_str()).ok()?;
        files.push((name, Bytes::from_vec(bytes))).ok()?;
    }
    Some(Files::from_vec(files))
}

/// The words before the first `--`, and those behind it; none where there is no memory.
fn parted(alloc: Global, given: Vec<String>) -> Option<(Vec<String>, Vec<String>)>
    ensures { IfSome result (λ both. FallApart (map string_bytes given.items)
        (map string_bytes both.0.items) (map string_bytes both.1.items)) }
{
    let mut names = Vec::new(alloc);
    let mut words = Vec::new(alloc);
    let mut is_name = true;
    for word in given {
        if !is_name {
            words.push(word).ok()?;
        } else if word.as_str() == "--" {
            is_name = false;
        } else {
            names.push(word).ok()?;
        }
    }
    Some((names, words))
}

/// Does what the words behind `--` ask for, and answers the status; none where a file cannot be read, or where there is
/// no memory.
fn run(rt: &HostRuntime) -> Option<u8> {
    let alloc = rt.alloc();
    let given = env::args(rt)
        .ok()?
        .skip(1)
        .collect::<Vec<String>>(alloc)
        .ok()?;
    let (names, words) = parted(alloc, given)?;
    let calls = Calls::from_vec(Vec::new(alloc));
    let mut shelf = MemoryShelf::new(alloc, load(rt, &names)?, calls, PIECE).ok()?;
    let mut out = StreamSink::new(rt.stdout());
    let mut err = StreamSink::new(rt.stderr());
    Some(staat(alloc, &words, &mut shelf, &mut out, &mut err))
}

fn main(rt: HostRuntime) -> ExitCode {
    ExitCode::from(run(&rt).unwrap_or(9))
}
