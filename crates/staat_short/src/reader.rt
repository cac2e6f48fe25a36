// A reader of a short certificate's text in pieces.
use crate::short::ShortCertificate;
use crate::stage::Stage;
use staat_cert::{CertRefusal, LineReader};
use staat_vec::OutOfMemory;
use std::alloc::Global;

/// A reader of a short certificate's text in pieces.
#[derive(Drop)]
pub struct ShortReader {
    lines: LineReader<Stage>,
}

impl ShortReader {
    ghost use Rattle.std.specs.Prelude.{◌≡◌, ◌++◌, [], ℕ, List, Err, IfOk};
    ghost use Rattle.staat_cert.specs.declared.cert_refusal.CertRefusal.TheVariants.{OutOfMemory as NoMemory};
    ghost use Rattle.staat_short.specs.ShortFeeds.{IsFailing, IsShortFeedAnswer, IsShortReadAnswer, WasFedShort};

    /// A reader to which nothing was fed.
    pub fn new(alloc: Global) -> Result<ShortReader, OutOfMemory>
        ensures fed { IfOk result (λ r. WasFedShort r []) }
        ensures working { IfOk result (λ r. IsFailing r → ⊥) }
    {
        Ok(ShortReader {
            lines: LineReader::new(alloc, Stage::Untitled),
        })
    }

    /// More of the text. A bad line is the answer as soon as it has come, and that the text is too long as soon as
    /// it is. Once there was no memory, that is the answer for ever.
    pub fn feed(&mut self, piece: &[u8]) -> Result<(), CertRefusal>
        ensures fed { (text : List ℕ) → WasFedShort self.old text → WasFedShort self.new (text ++ piece.now) }
        ensures answer { (text : List ℕ) → WasFedShort self.old text → IsShortFeedAnswer (text ++ piece.now) result }
        ensures failing { result ≡ Err NoMemory → IsFailing self.new }
        ensures only { IsFailing self.new → result ≡ Err NoMemory }
        ensures failed { IsFailing self.old → (result ≡ Err NoMemory) × IsFailing self.new }
    {
        self.lines.feed(piece)
    }

    /// The certificate whose text was fed.
    pub fn finish(self) -> Result<ShortCertificate, CertRefusal>
        ensures answer { (text : List ℕ) → WasFedShort self text → IsShortReadAnswer text result }
        ensures failed { IsFailing self → result ≡ Err NoMemory }
        ensures only { result ≡ Err NoMemory → IsFailing self }
    {
        self.lines.finish()
    }
}
