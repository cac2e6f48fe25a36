//! Does what the words after the program's name ask for, over the files of the working folder.
#![tactic(auto)]

use staat_edge::{DiskShelf, StreamSink};
use staat_top::{staat, want_memory};
use std::env;
use std::io::ErrorKind;
use std::process::ExitCode;

fn main(rt: HostRuntime) -> ExitCode {
    let mut out = StreamSink::new(rt.stdout());
    let mut err = StreamSink::new(rt.stderr());
    let words = match env::args(&rt) {
        Ok(args) => args.skip(1).collect::<Vec<String>>(rt.alloc()),
        Err(error) if error.kind() == ErrorKind::OutOfMemory => {
            return ExitCode::from(want_memory(&mut err));
        }
        Err(_) => return ExitCode::from(2),
    };
    let Ok(words) = words else {
        return ExitCode::from(want_memory(&mut err));
    };
    let mut shelf = DiskShelf::new(&rt);
    ExitCode::from(staat(rt.alloc(), &words, &mut shelf, &mut out, &mut err))
}
