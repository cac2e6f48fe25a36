// What calls did. It exists only in proofs: it takes no memory, and its methods do nothing when they run.
ghost use Rattle.std.specs.Prelude.{◌≡◌, ◌≤◌, ◌∷◌, ◌++◌, List, [], length};
ghost use Rattle.std.specs.Borrow.{ftrue};
ghost use Rattle.staat_edge.specs.Steps.{FileStep};

use std::marker::Model;

/// The steps so far, the last one first.
#[derive(Drop)]
pub(crate) struct Trace {
    ghost steps: { List FileStep },
}

impl Model for Trace {
    ghost also_owns = { λ _. ftrue };
}

/// One step: a file was opened, bytes went over, or the end of a file was met.
#[derive(Clone, Copy, Drop)]
enum Note<'a> {
    Opened(&'a str),
    Gave(&'a [u8]),
    Ended,
}

impl Trace {
    ghost use Rattle.staat_edge.specs.Noted.{noted};
    ghost use Rattle.staat_edge.specs.Readings.{after_read, begun};
    ghost use Rattle.staat_edge.specs.Steps.{bytes_over, readings};

    pub(crate) fn new() -> Trace
        ensures { result.steps ≡ [] }
    {
        Trace {}
    }

    /// The steps with one more.
    #[inline(always)]
    fn then(&self, _note: &Note<'_>) -> Trace
        ensures { result.steps ≡ noted self.now.steps _note.now }
    {
        Trace {}
    }

    /// Keeps that a file of that name was opened.
    pub(crate) fn keep_opened(&mut self, name: &str)
        ensures { readings self.new.steps ≡ begun name.now ∷ readings self.old.steps }
    {
        *self = self.then(&Note::Opened(name));
    }

    /// Keeps that so many bytes were read into the front of the buffer.
    pub(crate) fn keep_read(&mut self, count: usize, buf: &[u8])
        requires { count ≤ length buf.now }
        ensures { readings self.new.steps ≡ after_read count buf.now (readings self.old.steps) }
    {
        let note = if count == 0 && !buf.is_empty() {
            Note::Ended
        } else {
            Note::Gave(&buf[..count])
        };
        *self = self.then(&note);
    }

    /// Keeps that these bytes were taken.
    pub(crate) fn keep_taken(&mut self, bytes: &[u8])
        ensures { bytes_over self.new.steps ≡ bytes_over self.old.steps ++ bytes.now }
    {
        *self = self.then(&Note::Gave(bytes));
    }
}
