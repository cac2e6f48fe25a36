// Worked assemblies over a source that answers for equal pieces alone: it has no memory for others.
ghost use Rattle.staat_vec.specs.Vectors.{IsWithin};

use crate::fixtures::{BESIDE, CUBE, Corners, Shape, assembly, box_of, prism_of, same, shows};
use staat_asm::{AsmRefusal, PlaceRefusal, build, place};
use staat_cone::{FacetSource, Plain, overlap};
use staat_model::{Piece, Sound};
use staat_samples::at;
use staat_vec::{OutOfMemory, POINT, V3};
use std::alloc::Global;
use std::process::Abort;

struct EqualAlone;

impl FacetSource for EqualAlone {
    fn facets(&self, alloc: Global, p: &Piece, q: &Piece) -> Result<Vec<V3>, OutOfMemory> {
        if p.points() == q.points() {
            Plain.facets(alloc, p, q)
        } else {
            Err(OutOfMemory)
        }
    }
}

// cubes above the first, and about its corner (2,2,2)
const ABOVE: Corners = [0, 0, 2, 2, 2, 4];

const INNER: Corners = [1, 1, 1, 3, 3, 3];

fn count_of(built: Result<Sound, AsmRefusal>) -> Result<u32, AsmRefusal> {
    Ok(built?.assembly().parts())
}

// the number of parts where a part of two boxes and two of one box are sound, or why they are not
fn builds(
    rt: &impl Abort,
    alloc: Global,
    first: &[Corners],
    others: [&[Corners]; 2],
    wanted: Result<u32, AsmRefusal>,
) {
    let [second, third] = others;
    let shapes = [
        Shape::Boxes(first),
        Shape::Boxes(second),
        Shape::Boxes(third),
    ];
    let parts = assembly(rt, alloc, &shapes);
    same(rt, &count_of(build(alloc, &EqualAlone, parts)), &wanted);
}

#[test]
fn the_first_overlap_is_told(rt: HostRuntime) {
    let alloc = rt.alloc();
    let (twice, pair) = ([CUBE, CUBE], [CUBE, BESIDE]);
    builds(&rt, alloc, &twice, [&[BESIDE], &[ABOVE]], Ok(3));
    builds(
        &rt,
        alloc,
        &pair,
        [&[ABOVE], &[BESIDE]],
        Err(AsmRefusal::Overlap(0, 1, 2, 0)),
    );
    builds(
        &rt,
        alloc,
        &pair,
        [&[BESIDE], &[CUBE]],
        Err(AsmRefusal::Overlap(0, 0, 2, 0)),
    );
    builds(
        &rt,
        alloc,
        &pair,
        [&[ABOVE], &[ABOVE]],
        Err(AsmRefusal::Overlap(1, 0, 2, 0)),
    );
    builds(
        &rt,
        alloc,
        &pair,
        [&[INNER], &[CUBE]],
        Err(AsmRefusal::OutOfMemory),
    );
}

// the boxes about the two overlap, so that no axis serves
#[test]
fn one_slanted_wall_is_found(rt: HostRuntime) {
    let alloc = rt.alloc();
    let low = prism_of(&rt, alloc, [(0, 0), (4, 0), (3, 1), (0, 4)]);
    let high = prism_of(&rt, alloc, [(4, 1), (4, 4), (1, 4), (2, 3)]);
    same(&rt, &overlap(alloc, &EqualAlone, &low, &high), &Ok(false));
}

// the cube, moved
fn moved(rt: &impl Abort, alloc: Global, by: V3) -> Result<Piece, PlaceRefusal>
    requires { IsWithin POINT by }
{
    place(alloc, box_of(rt, alloc, CUBE), by)
}

// whether two pieces have the same points
fn are_same(moved: &Piece, wanted: &Piece) -> bool {
    moved.points() == wanted.points()
}

// the box to which the cube is moved
fn moves(rt: &impl Abort, alloc: Global, by: V3, wanted: Corners)
    requires { IsWithin POINT by }
{
    let piece = moved(rt, alloc, by).expect(rt, "a place");
    assert!(rt; are_same(&piece, &box_of(rt, alloc, wanted)));
}

#[test]
fn pieces_are_placed(rt: HostRuntime) {
    let alloc = rt.alloc();
    moves(&rt, alloc, at(2, 0, 0), BESIDE);
    moves(&rt, alloc, at(0, 0, 2), ABOVE);
    moves(&rt, alloc, at(1, 1, 1), INNER);
    moves(&rt, alloc, at(0, 0, 0), CUBE);
    let refused = moved(&rt, alloc, at(0, -262144, 262143)).err();
    same(&rt, &refused, &Some(PlaceRefusal::PlacedFar));
}

#[test]
fn refusals_are_told(rt: HostRuntime) {
    let overlap = AsmRefusal::Overlap(0, 1, 2, 3);
    shows(
        &rt,
        rt.alloc(),
        &overlap,
        "parts 0 and 2 overlap in pieces 1 and 3",
    );
    shows(&rt, rt.alloc(), &AsmRefusal::OutOfMemory, "out of memory");
}
