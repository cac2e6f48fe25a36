// A text that is kept while it is short, and counted on.
ghost use Rattle.std.specs.Prelude.{◌≡◌, ◌<◌, ◌+◌, ◌^◌, [], ℕ, List};
ghost use Rattle.std.specs.Prelude.{OnOk, length};
ghost use Rattle.staat_explode.specs.Sheets.{AddsText, Keeps, Written};

use crate::refusal::SceneRefusal;
use staat_limits::TEXT_LIMIT;
use staat_vec::Bytes;
use std::alloc::{AllocError, Global};

/// A text of which only the length is kept once it is longer than [`TEXT_LIMIT`].
#[derive(Drop)]
pub(crate) struct Sheet {
    pub(crate) bytes: Vec<u8>,
    pub(crate) length: u128,
}

impl Sheet {
    pub(crate) fn new(alloc: Global) -> Sheet
        ensures text { Keeps result [] }
    {
        Sheet {
            bytes: Vec::new(alloc),
            length: 0,
        }
    }

    /// Writes a line behind what was written.
    pub(crate) fn write(&mut self, line: &[u8]) -> Result<(), AllocError>
        requires { self.old.length < 2 ^ 126 }
        ensures text { OnOk result (AddsText self.old self.new line.now) }
        ensures length { OnOk result (self.new.length ≡ self.old.length + length line.now) }
    {
        self.length += line.len() as u128;
        if self.length <= TEXT_LIMIT {
            self.bytes.extend_from_slice(line)?;
        }
        Ok(())
    }

    /// The text, unless it is too long.
    pub(crate) fn text(self) -> Result<Bytes, SceneRefusal>
        ensures { (text : List ℕ) → Keeps self text → Written text result }
    {
        if self.length <= TEXT_LIMIT {
            Ok(Bytes::from_vec(self.bytes))
        } else {
            Err(SceneRefusal::TextTooLong(self.length))
        }
    }
}
