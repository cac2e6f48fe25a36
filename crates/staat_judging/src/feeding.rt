// A certificate's file, fed to a reader piece by piece. The file is never whole in memory.
ghost use Rattle.std.specs.Prelude.{◌≡◌, ◌≤◌, ◌<◌, ◌⊎◌, ◌++◌, List, ℕ, [], true};
ghost use Rattle.std.specs.Prelude.{IfOk, IfErr, IsErrOf, IsSomeAnd};
ghost use Rattle.std.specs.Prelude.{is_ok, ◌∷◌};
ghost use Rattle.staat_cert.specs.Feeds.{WasFed};
ghost use Rattle.staat_short.specs.ShortFeeds.{WasFedShort};
ghost use Rattle.staat_edge.specs.Causes.{Rose};
ghost use Rattle.staat_edge.specs.Files.{Lacks, failed_at, held_name, told_name};
ghost use Rattle.staat_edge.specs.Fitting.{IsLonger};
ghost use Rattle.staat_edge.specs.Opening.{OpensFiles};
ghost use Rattle.staat_limits.specs.declared.limits.TheConstants.{TEXT_LIMIT as LIMIT};
ghost use Rattle.staat_input.specs.Work.{IsNotTakenWithin};
ghost use Rattle.staat_input.specs.Causes.{over};
ghost use Rattle.staat_judging.specs.Checking.{cert_fault};
ghost use Rattle.staat_judging.specs.Feeding.{IsFedFile};
ghost use Rattle.staat_judging.specs.Causes.{HasCertificateCause};

use staat_cert::{CertReader, CertRefusal};
use staat_edge::{ReadRefusal, Shelf};
use staat_fault::Fault;
use staat_limits::TEXT_LIMIT;
use staat_short::ShortReader;
use staat_vec::Name;
use std::alloc::Global;

/// How many bytes of the file are taken at a time, at most.
const PIECE: usize = 65_536;

/// A reader of a certificate's text in pieces. What it makes of the text is asked at the end: so a fault of a later
/// read, and too many bytes, come before a bad line.
pub trait TextReader {
    /// Whether a text was fed.
    ghost was_fed: { Self → List ℕ → Type 0 };

    /// More of the text.
    fn take(&mut self, piece: &[u8])
        ensures { (text : List ℕ) → was_fed self.old text → was_fed self.new (text ++ piece.now) };
}

impl TextReader for CertReader {
    ghost was_fed = { WasFed };

    fn take(&mut self, piece: &[u8]) {
        let _ = self.feed(piece);
    }
}

impl TextReader for ShortReader {
    ghost was_fed = { WasFedShort };

    fn take(&mut self, piece: &[u8]) {
        let _ = self.feed(piece);
    }
}

// Feeds the reader the file of that name to its end, or until it is too long.
#[tactic(auto, using(crate::proofs::FeedingLemmas::feeding))]
// what it reads into is large, and is not to be part of its callers' frames
#[inline(never)]
fn feed_file<H: Shelf, R: TextReader>(
    shelf: &mut H,
    name: &str,
    reader: &mut R,
) -> Result<(), ReadRefusal>
    requires { R.was_fed reader.old [] }
    ensures holds { (H.told shelf.new).holds ≡ (H.told shelf.old).holds }
    ensures count { (H.told shelf.old).faults ≤ (H.told shelf.new).faults }
    ensures opens { OpensFiles (is_ok result) (name.now ∷ []) (H.told shelf.old) (H.told shelf.new) }
    ensures fed { IfOk result (λ _. IsFedFile (H.told shelf.new) name.now (R.was_fed reader.new)) }
    ensures memory { IsErrOf result ReadRefusal.OutOfMemory → ⊥ }
    ensures fault { IsErrOf result ReadRefusal.ReadFault →
        Lacks (H.told shelf.old).holds name.now ⊎ Rose (H.told shelf.old).faults (H.told shelf.new).faults }
    ensures failed { IsErrOf result ReadRefusal.ReadFault →
        (H.told shelf.new).failed ≡
        failed_at true (held_name (H.told shelf.old).holds name.now) (H.told shelf.old).failed }
    ensures long { IsErrOf result ReadRefusal.TooLong →
        IsSomeAnd (H.told shelf.new).place (λ at. LIMIT < at) }
    ensures long_name { IsErrOf result ReadRefusal.TooLong →
        (H.told shelf.new).opened ≡ told_name (H.told shelf.old).holds name.now }
    ensures longer { IsErrOf result ReadRefusal.TooLong → IsLonger (H.told shelf.new) name.now LIMIT }
{
    if shelf.open(name).is_err() {
        return Err(ReadRefusal::ReadFault);
    }
    let mut taken: u64 = 0;
    let mut buf = [0u8; PIECE];
    'pieces: while taken as u128 <= TEXT_LIMIT {
        match shelf.read(&mut buf) {
            Ok(0) => return Ok(()),
            Ok(count) => {
                reader.take(&buf[..count]);
                taken += count as u64;
            }
            Err(_) => return Err(ReadRefusal::ReadFault),
        }
    }
    Err(ReadRefusal::TooLong)
}

/// Feeds the reader the whole file of that name. The fault that the file cannot be read to its end, or is too long,
/// has the file's name.
pub fn feed_named<H: Shelf, R: TextReader>(
    alloc: Global,
    shelf: &mut H,
    name: &Name,
    reader: &mut R,
) -> Result<(), Fault>
    requires { R.was_fed reader.old [] }
    ensures holds { (H.told shelf.new).holds ≡ (H.told shelf.old).holds }
    ensures count { (H.told shelf.old).faults ≤ (H.told shelf.new).faults }
    ensures opens { OpensFiles (is_ok result) (name.now ∷ []) (H.told shelf.old) (H.told shelf.new) }
    ensures fed { IfOk result (λ _. IsFedFile (H.told shelf.new) name.now (R.was_fed reader.new)) }
    ensures refused { IfErr result (IsNotTakenWithin LIMIT (H.told shelf.new) name.now) }
    ensures cause { IfErr result (HasCertificateCause name.now (over (H.told shelf.old) (H.told shelf.new))) }
{
    match feed_file(shelf, name.as_str(), reader) {
        Ok(()) => Ok(()),
        Err(ReadRefusal::ReadFault) => Err(Fault::ReadFault(name.copied(alloc)?)),
        Err(ReadRefusal::TooLong) => Err(Fault::TooLong(name.copied(alloc)?)),
        Err(ReadRefusal::OutOfMemory) => Err(Fault::OutOfMemory),
    }
}

/// The fault of a file that holds no certificate.
pub fn cert_fault(name: Name, refusal: CertRefusal) -> Fault
    ensures { result ≡ cert_fault name refusal }
{
    match refusal {
        CertRefusal::BadLine(line) => Fault::BadLine(name, line),
        CertRefusal::ShortCert => Fault::ShortCert(name),
        CertRefusal::TooLong => Fault::TooLong(name),
        CertRefusal::OutOfMemory => Fault::OutOfMemory,
    }
}
