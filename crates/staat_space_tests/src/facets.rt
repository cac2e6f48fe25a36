// Worked facets and walls, and two sources of facets that answer the same.
ghost use Rattle.std.specs.Prelude.{All};
ghost use Rattle.staat_vec.specs.Vectors.{IsWithin};

use crate::fixtures::{
    ABOVE, BEFORE, BEHIND, BELOW, BESIDE, Base, CUBE, Corners, GROUND, LEFT, LEFT_CHEEK, LID,
    RIGHT, RIGHT_CHEEK, Shape, TAIL, box_of, pieces_of, same,
};
use staat_cone::{FacetSource, Plain, Scan, blocks, furthest, separates};
use staat_model::Piece;
use staat_samples::{at, piece_of};
use staat_vec::{NORMAL, V3};
use std::alloc::Global;
use std::process::Abort;

const CORNER: Corners = [2, 2, 2, 4, 4, 4];

fn facets_from<F: FacetSource>(
    rt: &impl Abort,
    alloc: Global,
    source: &F,
    p: Corners,
    q: Corners,
) -> Vec<V3>
    ensures { All (IsWithin NORMAL) result.items }
{
    let (p, q) = (box_of(rt, alloc, p), box_of(rt, alloc, q));
    source.facets(alloc, &p, &q).expect(rt, "memory")
}

fn has_facets(rt: &impl Abort, alloc: Global, p: Corners, q: Corners, wanted: &[V3]) {
    let found = facets_from(rt, alloc, &Plain, p, q);
    same(rt, &found.as_slice(), &wanted);
}

const INNER: Corners = [1, 1, 1, 3, 3, 3];

#[test]
fn facets_of_boxes(rt: HostRuntime) {
    let alloc = rt.alloc();
    let axes = [at(0, 0, 1), at(0, 1, 0), at(1, 0, 0)];
    let slopes = [at(-2, 0, -3), at(0, -2, -3), at(0, 2, -3), at(2, 0, -3)];
    has_facets(&rt, alloc, CUBE, BESIDE, &axes[2..]);
    has_facets(&rt, alloc, CUBE, CORNER, &axes);
    has_facets(&rt, alloc, CUBE, INNER, &[]);
    has_facets(&rt, alloc, LID, BELOW, &slopes);
    let none = facets_from(&rt, alloc, &Scan, CUBE, INNER);
    same(&rt, &none.len(), &0);
}

#[test]
fn facets_block_one_way(rt: HostRuntime) {
    let facets = facets_from(&rt, rt.alloc(), &Plain, CUBE, BESIDE);
    let facets = facets.as_slice();
    let found = [
        blocks(facets, at(1, 0, 0)),
        blocks(facets, at(0, 1, 0)),
        blocks(facets, at(-1, 0, 0)),
    ];
    same(&rt, &found, &[true, false, false]);
}

fn are_separate(rt: &impl Abort, p: &Piece, q: &Piece) {
    let found = [
        separates(at(1, 0, 0), p, q),
        separates(at(0, 1, 0), p, q),
        separates(at(0, 0, 0), p, q),
        separates(at(1, 0, 0), q, p),
    ];
    same(rt, &found, &[true, false, false, false]);
}

#[test]
fn walls_between_cubes(rt: HostRuntime) {
    let (p, q) = (
        box_of(&rt, rt.alloc(), CUBE),
        box_of(&rt, rt.alloc(), BESIDE),
    );
    are_separate(&rt, &p, &q);
}

fn is_same_by_both(rt: &impl Abort, alloc: Global, p: &Piece, q: &Piece) {
    let plain = Plain.facets(alloc, p, q).expect(rt, "memory");
    let scan = Scan.facets(alloc, p, q).expect(rt, "memory");
    same(rt, &plain.as_slice(), &scan.as_slice());
}

fn are_same_by_both(rt: &impl Abort, alloc: Global, p: &Piece, qs: &[Piece]) {
    for q in qs {
        is_same_by_both(rt, alloc, p, q);
    }
}

// a cube, two that touch it, the walls of a box about it, and a lid
const ABOUT: [Corners; 10] = [
    CUBE, BESIDE, CORNER, RIGHT, LEFT, BEHIND, BEFORE, ABOVE, BELOW, LID,
];

// two linked rings
const RINGS: [Corners; 8] = [
    [0, 0, 0, 8, 2, 2],
    [0, 6, 0, 8, 8, 2],
    [0, 2, 0, 2, 6, 2],
    [6, 2, 0, 8, 6, 2],
    [3, 3, -4, 5, 5, 6],
    [11, 3, -4, 13, 5, 6],
    [5, 3, -4, 11, 5, -2],
    [5, 3, 4, 11, 5, 6],
];

const DOVETAIL: [Base; 4] = [TAIL, GROUND, RIGHT_CHEEK, LEFT_CHEEK];

// each two of the pieces, in both orders
fn is_same_for(rt: &impl Abort, alloc: Global, shape: Shape) {
    let pieces = pieces_of(rt, alloc, shape);
    for p in pieces.as_slice() {
        are_same_by_both(rt, alloc, p, pieces.as_slice());
    }
}

#[test]
fn both_sources_answer_the_same(rt: HostRuntime) {
    is_same_for(&rt, rt.alloc(), Shape::Boxes(&ABOUT));
    is_same_for(&rt, rt.alloc(), Shape::Boxes(&RINGS));
    is_same_for(&rt, rt.alloc(), Shape::Prisms(&DOVETAIL));
}

// 64 points on a paraboloid
fn bowl(rt: &impl Abort, alloc: Global) -> Piece {
    let mut points = Vec::new(alloc);
    for k in 0..64u8 {
        let i = i128::from(k / 8);
        let j = i128::from(k % 8);
        points.push(at(i, j, i * i + j * j)).expect(rt, "memory");
    }
    piece_of(points).expect(rt, "a bowl")
}

// the sources answer the same in both orders, and the bowl has a facet below the cube
fn is_below(rt: &impl Abort, alloc: Global, bowl: &Piece, cube: &Piece) {
    is_same_by_both(rt, alloc, bowl, cube);
    is_same_by_both(rt, alloc, cube, bowl);
    let facets = Scan.facets(alloc, bowl, cube).expect(rt, "memory");
    assert!(rt; facets.as_slice().contains(&UPWARDS));
}

#[test]
fn a_bowl_and_a_cube(rt: HostRuntime) {
    let bowl = bowl(&rt, rt.alloc());
    let cube = box_of(&rt, rt.alloc(), [0, 0, 98, 7, 7, 105]);
    is_below(&rt, rt.alloc(), &bowl, &cube);
}

const UPWARDS: V3 = V3 { x: 0, y: 0, z: 1 };

const DIFFERENCES: [V3; 3] = [
    V3 { x: 1, y: 0, z: 0 },
    V3 { x: 1, y: 1, z: 0 },
    V3 { x: 0, y: 1, z: 0 },
];

#[test]
fn three_differences(rt: HostRuntime) {
    let (left, right) = furthest(DIFFERENCES.as_slice(), UPWARDS);
    assert!(rt; left == DIFFERENCES[0] && right == DIFFERENCES[2]);
}
