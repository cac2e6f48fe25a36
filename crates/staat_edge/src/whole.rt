// Whole files and whole texts.
ghost use Rattle.std.specs.Prelude.{◌≡◌, ◌≤◌, ◌<◌, ◌+◌, ◌⊎◌, ◌^◌, ◌∷◌, [], ℕ, List, length};
ghost use Rattle.std.specs.Prelude.{take, true, Some, IsSome, IsSomeAnd, IsOk, OnOk, OnErr, IfOk, IfErr, IfSome};
ghost use Rattle.std.specs.Prelude.{IsErrOf, is_ok};
ghost use Rattle.staat_edge.specs.Causes.{Rose};
ghost use Rattle.staat_edge.specs.Files.{content_of, told_name, Lacks, failed_at, held_name};
ghost use Rattle.staat_edge.specs.Fitting.{IsLonger, IsWhole, Narrows};
ghost use Rattle.staat_edge.specs.Opening.{OpensFiles};
ghost use Rattle.staat_edge.specs.Readings.{whole_reading};
ghost use Rattle.staat_edge.specs.declared.whole.ReadRefusal.TheVariants.{OutOfMemory};
ghost use Rattle.staat_edge.specs.Sinks.{GrewBy, GrewByPart};

use crate::{Shelf, Sink};
use staat_vec::Bytes;
use std::alloc::{AllocError, Global};
use thiserror::Error;

/// Why a file was not read.
#[derive(Clone, Copy, Debug, PartialEq, Eq, Error)]
pub enum ReadRefusal {
    /// A call of the shelf failed.
    #[error("the file cannot be read")]
    ReadFault,
    /// The file has more bytes than the limit.
    #[error("the file is too long")]
    TooLong,
    /// There was no memory for its bytes.
    #[error("out of memory")]
    OutOfMemory,
}

impl From<AllocError> for ReadRefusal {
    ghost from_gives = { λ _ e. e ≡ OutOfMemory };

    fn from(_: AllocError) -> Self {
        ReadRefusal::OutOfMemory
    }
}

/// How many bytes are asked for at a time.
const PIECE: usize = 4096;

/// Opens the file of that name and reads it to its end, which is at most `limit` bytes away.
///
/// A file is refused as too long once `limit + 1` of its bytes were taken, and no more are taken
/// than that. The shelf stays as the calls left it: the file is open after every answer but that of
/// a failed `open`, and its place tells how many bytes were taken.
pub fn read_whole<H: Shelf>(
    alloc: Global,
    shelf: &mut H,
    name: &str,
    limit: usize,
) -> Result<Bytes, ReadRefusal>
    requires { limit < 2 ^ 31 }

    ensures holds { (H.told shelf.new).holds ≡ (H.told shelf.old).holds }
    ensures count { (H.told shelf.old).faults ≤ (H.told shelf.new).faults }
    ensures name { IfSome (H.told shelf.new).place
        (λ _. (H.told shelf.new).opened ≡ told_name (H.told shelf.old).holds name.now) }
    ensures most { IfSome (H.told shelf.new).place (λ at. at ≤ limit + 1) }

    ensures gave { IfOk result (λ bytes.
        (H.told shelf.new).given ≡ whole_reading name.now bytes ∷ (H.told shelf.old).given) }
    ensures opens { OpensFiles (is_ok result) (name.now ∷ []) (H.told shelf.old) (H.told shelf.new) }
    ensures narrows { Narrows (H.told shelf.old) (H.told shelf.new) }

    ensures content { IfOk result (λ bytes. IsWhole (H.told shelf.new) name.now bytes) }
    ensures within { IfOk result (λ bytes. length bytes ≤ limit) }
    ensures place { IfOk result (λ bytes. (H.told shelf.new).place ≡ Some (length bytes)) }
    ensures same_failed { OnOk result ((H.told shelf.new).failed ≡ (H.told shelf.old).failed) }

    ensures fault { IsErrOf result ReadRefusal.ReadFault →
        Lacks (H.told shelf.old).holds name.now ⊎ Rose (H.told shelf.old).faults (H.told shelf.new).faults }
    ensures failed { IsErrOf result ReadRefusal.ReadFault →
        (H.told shelf.new).failed ≡
        failed_at true (held_name (H.told shelf.old).holds name.now) (H.told shelf.old).failed }
    // a held file whose reading met no fault is not refused as one that cannot be read
    ensures no_fault { IsSome (content_of (H.told shelf.old).holds name.now) →
        ¬ Rose (H.told shelf.old).faults (H.told shelf.new).faults → ¬ IsErrOf result ReadRefusal.ReadFault }

    ensures long { IsErrOf result ReadRefusal.TooLong →
        IsSomeAnd (H.told shelf.new).place (λ at. limit < at) }
    ensures long_name { IsErrOf result ReadRefusal.TooLong →
        (H.told shelf.new).opened ≡ told_name (H.told shelf.old).holds name.now }
    ensures longer { IsErrOf result ReadRefusal.TooLong → IsLonger (H.told shelf.new) name.now limit }
    ensures long_failed { IsErrOf result ReadRefusal.TooLong →
        (H.told shelf.new).failed ≡ (H.told shelf.old).failed }

    ensures memory_failed { IsErrOf result ReadRefusal.OutOfMemory →
        (H.told shelf.new).failed ≡ (H.told shelf.old).failed }
{
    if shelf.open(name).is_err() {
        return Err(ReadRefusal::ReadFault);
    }
    let mut taken: Vec<u8> = Vec::new(alloc);
    let mut buf = [0u8; PIECE];
    'pieces: while taken.len() <= limit {
        let want = PIECE.min(limit + 1 - taken.len());
        match shelf.read(&mut buf[..want]) {
            Ok(0) => return Ok(Bytes::from_vec(taken)),
            Ok(count) => taken.extend_from_slice(&buf[..count])?,
            Err(_) => return Err(ReadRefusal::ReadFault),
        }
    }
    Err(ReadRefusal::TooLong)
}

/// The one refusal of [`write_whole`]: a call of the sink failed.
#[derive(Clone, Copy, Debug, PartialEq, Eq, Error)]
#[error("write fault")]
pub struct WriteFault;

/// Gives the sink all the bytes. After a fault it took only a part of them, from the front. No
/// bytes are always written, without a call of the sink.
#[tactic(auto, using(crate::proofs::Grown::growth))]
pub fn write_whole<S: Sink>(sink: &mut S, bytes: &[u8]) -> Result<(), WriteFault>
    ensures count { (S.told sink.old).faults ≤ (S.told sink.new).faults }
    ensures all { OnOk result (GrewBy (S.told sink.old).wrote (S.told sink.new).wrote bytes.now) }
    ensures part { OnErr result (GrewByPart (S.told sink.old).wrote (S.told sink.new).wrote bytes.now) }
    ensures cause { OnErr result (Rose (S.told sink.old).faults (S.told sink.new).faults) }
    ensures empty { length bytes.now ≡ 0 → IsOk result × (sink.new ≡ sink.old) }
{
    let mut done = 0;
    while done < bytes.len() {
        match sink.write(&bytes[done..]) {
            Ok(count) => done += count,
            Err(_) => return Err(WriteFault),
        }
    }
    Ok(())
}
