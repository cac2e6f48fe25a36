// The faults that the refusals of the readers are.
ghost use Rattle.std.specs.Prelude.{◌≡◌};
ghost use Rattle.staat_input.specs.Refusals.{asm_fault, manifest_fault, mesh_fault, off_fault};
ghost use Rattle.staat_input.specs.Refusals.{planes_fault, read_fault, text_fault};

use staat_asm::AsmRefusal;
use staat_edge::ReadRefusal;
use staat_fault::Fault;
use staat_manifest::ManifestRefusal;
use staat_mesh::MeshRefusal;
use staat_model::TextRefusal;
use staat_off::OffRefusal;
use staat_planes::PlanesRefusal;
use staat_vec::Name;

/// The fault of a file that is not read to its end.
pub fn read_fault(name: Name, refusal: ReadRefusal) -> Fault
    ensures { result ≡ read_fault name refusal }
{
    match refusal {
        ReadRefusal::ReadFault => Fault::ReadFault(name),
        ReadRefusal::TooLong => Fault::TooLong(name),
        ReadRefusal::OutOfMemory => Fault::OutOfMemory,
    }
}

/// The fault of a file that is no OFF file.
pub fn off_fault(name: Name, refusal: OffRefusal) -> Fault
    ensures { result ≡ off_fault name refusal }
{
    match refusal {
        OffRefusal::NoHeader => Fault::NoHeader(name),
        OffRefusal::BadNumber(at) => Fault::BadNumber(name, at),
        OffRefusal::NotWhole(at) => Fault::NotWhole(name, at),
        OffRefusal::TooBig(at) => Fault::TooBig(name, at),
        OffRefusal::BadCount(at) => Fault::BadCount(name, at),
        OffRefusal::BadIndex(at) => Fault::BadIndex(name, at),
        OffRefusal::ShortFile => Fault::ShortFile(name),
        OffRefusal::Trailing(at) => Fault::Trailing(name, at),
        OffRefusal::OutOfMemory => Fault::OutOfMemory,
    }
}

/// The fault of a file whose mesh is no piece.
pub fn mesh_fault(name: Name, refusal: MeshRefusal) -> Fault
    ensures { result ≡ mesh_fault name refusal }
{
    match refusal {
        MeshRefusal::TooFewPoints(found) => Fault::TooFewPoints(name, found),
        MeshRefusal::TooManyPoints(found) => Fault::TooManyPoints(name, found),
        MeshRefusal::Flat => Fault::Flat(name),
        MeshRefusal::BadFace(face) => Fault::BadFace(name, face),
        MeshRefusal::NotConvex(face) => Fault::NotConvex(name, face),
        MeshRefusal::OpenEdge(face, corner) => Fault::OpenEdge(name, face, corner),
        MeshRefusal::OutOfMemory => Fault::OutOfMemory,
    }
}

/// The fault of a file that is no part list.
pub fn manifest_fault(name: Name, refusal: ManifestRefusal) -> Fault
    ensures { result ≡ manifest_fault name refusal }
{
    match refusal {
        ManifestRefusal::NotJson => Fault::NotJson(name),
        ManifestRefusal::BadShape(path) => Fault::BadShape(name, path),
        ManifestRefusal::RepeatedName(part) => Fault::RepeatedName(name, part),
        ManifestRefusal::NoPieces(part) => Fault::NoPieces(name, part),
        ManifestRefusal::TooManyParts => Fault::TooManyParts(name),
        ManifestRefusal::TooManyPieces => Fault::TooManyPieces(name),
        ManifestRefusal::OutOfMemory => Fault::OutOfMemory,
    }
}

/// The fault of an assembly that is not sound.
pub fn asm_fault(refusal: AsmRefusal) -> Fault
    ensures { result ≡ asm_fault refusal }
{
    match refusal {
        AsmRefusal::Overlap(a, i, b, j) => Fault::Overlap(a, i, b, j),
        AsmRefusal::OutOfMemory => Fault::OutOfMemory,
    }
}

/// The fault of an assembly with too many planes.
pub fn planes_fault(refusal: PlanesRefusal) -> Fault
    ensures { result ≡ planes_fault refusal }
{
    match refusal {
        PlanesRefusal::TooManyPlanes(found) => Fault::TooManyPlanes(found),
        PlanesRefusal::OutOfMemory => Fault::OutOfMemory,
    }
}

/// The fault of an answer whose text is too long.
pub fn text_fault(refusal: TextRefusal) -> Fault
    ensures { result ≡ text_fault refusal }
{
    match refusal {
        TextRefusal::TextTooLong(length) => Fault::TextTooLong(length),
        TextRefusal::OutOfMemory => Fault::OutOfMemory,
    }
}
