// What stops a request.
use staat_vec::{Name, OutOfMemory};
use std::alloc::{AllocError, AllocFailed};

/// What stops a request, with the file that it names and the values that tell where.
#[derive(Drop)]
pub enum Fault {
    /// The words make no request.
    Usage,
    /// The file cannot be read.
    ReadFault(Name),
    /// The file is longer than its limit.
    TooLong(Name),
    /// The file does not begin with the word `OFF`.
    NoHeader(Name),
    /// A word is no number; at its byte offset.
    BadNumber(Name, u64),
    /// A coordinate is not whole once it is scaled; at its byte offset.
    NotWhole(Name, u64),
    /// A coordinate is too great; at its byte offset.
    TooBig(Name, u64),
    /// A word is no count; at its byte offset.
    BadCount(Name, u64),
    /// A word is not the number of a vertex; at its byte offset.
    BadIndex(Name, u64),
    /// The file ends where a word is wanted.
    ShortFile(Name),
    /// A word stands after the last face; at its byte offset.
    Trailing(Name, u64),
    /// So few different points are used.
    TooFewPoints(Name, u32),
    /// So many different points are used.
    TooManyPoints(Name, u32),
    /// All points lie in one plane.
    Flat(Name),
    /// The face's corners span no plane, or do not lie in one.
    BadFace(Name, u32),
    /// Points lie on both sides of the face.
    NotConvex(Name, u32),
    /// The edge of the face at the corner does not occur exactly twice.
    OpenEdge(Name, u32, u32),
    /// The piece of this file, moved as its part is, has a coordinate that is too great.
    PlacedFar(Name),
    /// The part list is not JSON.
    NotJson(Name),
    /// The value at the path does not have its shape.
    BadShape(Name, Name),
    /// Two parts have this name.
    RepeatedName(Name, Name),
    /// The part has no pieces.
    NoPieces(Name, u32),
    /// The part list has more parts than an assembly may have.
    TooManyParts(Name),
    /// The part list has more pieces than an assembly may have.
    TooManyPieces(Name),
    /// Pieces of two parts overlap: part, piece, part, piece.
    Overlap(u32, u32, u32, u32),
    /// The line of the certificate cannot stand there.
    BadLine(Name, u32),
    /// The certificate ends before its last line.
    ShortCert(Name),
    /// There are so many planes.
    TooManyPlanes(u64),
    /// Parts stand too far apart in an exploded view, once the split of this number is done.
    TooFar(u32),
    /// The text would have so many bytes.
    TextTooLong(u128),
    /// A sink failed.
    WriteFault,
    /// There was no memory.
    OutOfMemory,
}

impl From<AllocError> for Fault {
    ghost use Rattle.std.specs.Prelude.{◌≡◌};
    ghost use Rattle.staat_fault.specs.declared.fault.Fault.TheVariants.{OutOfMemory};

    ghost from_gives = { λ _ e. e ≡ OutOfMemory };

    fn from(_: AllocError) -> Self {
        Fault::OutOfMemory
    }
}

impl<T: Drop> From<AllocFailed<T>> for Fault {
    ghost use Rattle.std.specs.Prelude.{◌≡◌};
    ghost use Rattle.staat_fault.specs.declared.fault.Fault.TheVariants.{OutOfMemory};

    ghost from_gives = { λ _ e. e ≡ OutOfMemory };

    fn from(_: AllocFailed<T>) -> Self {
        Fault::OutOfMemory
    }
}

impl From<OutOfMemory> for Fault {
    ghost use Rattle.std.specs.Prelude.{◌≡◌};
    ghost use Rattle.staat_fault.specs.declared.fault.Fault.TheVariants.{OutOfMemory};

    ghost from_gives = { λ _ e. e ≡ OutOfMemory };

    fn from(_: OutOfMemory) -> Self {
        Fault::OutOfMemory
    }
}
