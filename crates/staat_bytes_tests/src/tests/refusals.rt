// The texts of refusals, which `staat` does not print: its lines are those of faults.

use crate::tests::comparing::shows;
use crate::tests::inputs::name;
use staat_cert::CertRefusal;
use staat_edge::ReadRefusal;
use staat_manifest::ManifestRefusal;
use staat_mesh::MeshRefusal;
use staat_off::OffRefusal;
use staat_words::RequestRefusal;

const OFF: [(OffRefusal, &str); 8] = [
    (OffRefusal::NoHeader, "no OFF header"),
    (OffRefusal::BadNumber(10), "bad number at 10"),
    (OffRefusal::NotWhole(10), "not a whole number at 10"),
    (OffRefusal::TooBig(16), "number too big at 16"),
    (OffRefusal::BadCount(8), "bad count at 8"),
    (OffRefusal::BadIndex(48), "bad index at 48"),
    (OffRefusal::ShortFile, "file too short"),
    (OffRefusal::Trailing(66), "extra word at 66"),
];

#[test]
fn refusals_of_off_files_have_texts(rt: HostRuntime) {
    for row in &OFF {
        shows(&rt, rt.alloc(), &row.0, row.1);
    }
}

const MESHES: [(MeshRefusal, &str); 7] = [
    (MeshRefusal::TooFewPoints(3), "too few points (3)"),
    (MeshRefusal::TooManyPoints(65), "too many points (65)"),
    (MeshRefusal::Flat, "all points in one plane"),
    (MeshRefusal::BadFace(1), "bad face 1"),
    (MeshRefusal::NotConvex(1), "not convex at face 1"),
    (MeshRefusal::OpenEdge(1, 2), "open edge at face 1 corner 2"),
    (MeshRefusal::OutOfMemory, "out of memory"),
];

#[test]
fn refusals_of_meshes_have_texts(rt: HostRuntime) {
    for row in &MESHES {
        shows(&rt, rt.alloc(), &row.0, row.1);
    }
}

#[test]
fn refusals_of_part_lists_have_texts(rt: HostRuntime) {
    let alloc = rt.alloc();
    let shape = ManifestRefusal::BadShape(name(&rt, alloc, "/parts/0"));
    shows(&rt, alloc, &shape, "bad shape at /parts/0");
    let repeated = ManifestRefusal::RepeatedName(name(&rt, alloc, "p"));
    shows(&rt, alloc, &repeated, "repeated name p");
    shows(&rt, alloc, &ManifestRefusal::NotJson, "not JSON");
    shows(
        &rt,
        alloc,
        &ManifestRefusal::NoPieces(1),
        "no pieces in part 1",
    );
    shows(&rt, alloc, &ManifestRefusal::TooManyParts, "too many parts");
    shows(
        &rt,
        alloc,
        &ManifestRefusal::TooManyPieces,
        "too many pieces",
    );
}

#[test]
fn other_refusals_have_texts(rt: HostRuntime) {
    let alloc = rt.alloc();
    shows(&rt, alloc, &CertRefusal::BadLine(4), "bad line 4");
    shows(&rt, alloc, &CertRefusal::ShortCert, "certificate too short");
    shows(&rt, alloc, &CertRefusal::TooLong, "too long");
    shows(&rt, alloc, &RequestRefusal::Usage, "usage");
    shows(
        &rt,
        alloc,
        &ReadRefusal::ReadFault,
        "the file cannot be read",
    );
    shows(&rt, alloc, &ReadRefusal::TooLong, "the file is too long");
}
