// A reader of a text in pieces, line by line.
ghost use Rattle.std.specs.Prelude.{◌≡◌, ◌≤◌};
ghost use Rattle.staat_limits.specs.declared.limits.TheConstants.{TEXT_LIMIT};

use crate::bytes::push_all;
use crate::cert_refusal::CertRefusal;
use crate::progress::Progress;
use crate::text_stage::TextStage;
use staat_limits::TEXT_LIMIT;
use std::alloc::Global;

/// A reader of a text in pieces, each of whose lines a stage takes or not.
#[derive(Drop)]
pub struct LineReader<S> {
    alloc: Global,
    progress: Progress<S>,
    total: u64,
    is_long: bool,
    is_out: bool,
    ghost counted: { progress.count ≤ total },
    ghost bounded: { total ≤ TEXT_LIMIT },
}

impl<S: TextStage> LineReader<S> {
    ghost use Rattle.std.specs.Prelude.{◌≡◌, ◌++◌, [], ℕ, List, true, false, Err, IfSome, IfNone};
    ghost use Rattle.staat_cert.specs.TextLines.{AreWholeTexts, BeginsWhole, IsAnswerSoFar, IsAnswerTo, TookIn};
    ghost use Rattle.staat_cert.specs.TextLines.{is_no_memory, lacks_memory};

    /// A reader to which nothing was fed, at a stage that has taken nothing.
    pub fn new(alloc: Global, stage: S) -> LineReader<S>
        requires taken { S.has_taken stage [] }
        requires begins { BeginsWhole S.spells [] }
        requires texts { AreWholeTexts S.spells }
        ensures fed { TookIn S.spells S.has_taken result [] }
        ensures working { result.is_out ≡ false }
    {
        LineReader {
            alloc,
            progress: Progress {
                stage,
                line: Vec::new(alloc),
                numbers: Vec::new(alloc),
                count: 0,
                is_bad: false,
            },
            total: 0,
            is_long: false,
            is_out: false,
        }
    }

    /// More of the text. A bad line is the answer as soon as it has come, and that the text is too long as soon as
    /// it is. Once there was no memory, that is the answer for ever.
    pub fn feed(&mut self, piece: &[u8]) -> Result<(), CertRefusal>
        ensures fed { (text : List ℕ) → TookIn S.spells S.has_taken self.old text
            → TookIn S.spells S.has_taken self.new (text ++ piece.now) }
        ensures answer { (text : List ℕ) → TookIn S.spells S.has_taken self.old text
            → IsAnswerSoFar S.spells (text ++ piece.now) result }
        ensures failing { self.new.is_out ≡ lacks_memory result }
        ensures failed { self.old.is_out ≡ true → self.new.is_out ≡ true }
    {
        if self.is_out {
            return Err(CertRefusal::OutOfMemory);
        }
        if self.is_long || piece.len() as u128 > TEXT_LIMIT - self.total as u128 {
            self.is_long = true;
            return Err(CertRefusal::TooLong);
        }
        self.total += piece.len() as u64;
        match push_all(self.alloc, &mut self.progress, piece) {
            Err(_) => {
                self.is_out = true;
                Err(CertRefusal::OutOfMemory)
            }
            Ok(()) => {
                if self.progress.is_bad {
                    return Err(CertRefusal::BadLine((self.progress.count + 1) as u32));
                }
                Ok(())
            }
        }
    }

    // Why there is nothing whole, whatever the last line is.
    fn refusal(&self) -> Option<CertRefusal>
        ensures answer { IfSome result (λ e. (text : List ℕ) → TookIn S.spells S.has_taken self.now text
            → IsAnswerTo S.spells text (Err e)) }
        ensures failing { IfSome result (λ e. self.now.is_out ≡ is_no_memory e) }
        ensures none { IfNone result
            ((self.now.is_out ≡ false) × (self.now.is_long ≡ false) × (self.now.progress.is_bad ≡ false)) }
    {
        if self.is_out {
            return Some(CertRefusal::OutOfMemory);
        }
        if self.is_long {
            return Some(CertRefusal::TooLong);
        }
        if self.progress.is_bad {
            return Some(CertRefusal::BadLine((self.progress.count + 1) as u32));
        }
        None
    }

    /// What the text says that was fed.
    pub fn finish(self) -> Result<S::Whole, CertRefusal>
        ensures answer { (text : List ℕ) → TookIn S.spells S.has_taken self text → IsAnswerTo S.spells text result }
        ensures failing { self.is_out ≡ lacks_memory result }
    {
        match self.refusal() {
            Some(refusal) => Err(refusal),
            None => self.progress.stage.whole().ok_or(CertRefusal::ShortCert),
        }
    }
}
