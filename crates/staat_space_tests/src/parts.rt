// Sets of parts, points that span space, and pieces, parts and assemblies of boxes and prisms.
ghost use Rattle.std.specs.Prelude.{◌≤◌};

use crate::fixtures::{CUBE, Shape, box_of, pieces_of, prism_of, same};
use staat_drill::{nested_boxes, row_of_cubes};
use staat_limits::MOST_PARTS;
use staat_model::{Assembly, Part, PartSet, Piece, is_solid};
use staat_samples::{assembly_of, at, boxed, boxes, part_of, piece_of, prisms};
use staat_vec::{Name, OutOfMemory, V3};
use std::alloc::Global;
use std::process::Abort;

fn odd_parts() -> PartSet {
    PartSet::single(1)
        .union(PartSet::single(3))
        .union(PartSet::single(31))
}

#[test]
fn sets(rt: HostRuntime) {
    let odd = odd_parts();
    let four = PartSet::first(4);
    let found = [
        odd.bits(),
        odd.count(),
        four.bits(),
        PartSet::first(0).bits(),
        PartSet::first(MOST_PARTS).bits(),
        odd.without(PartSet::first(2)).bits(),
        odd.both(four).bits(),
    ];
    let wanted = [0x8000_000a, 3, 15, 0, u32::MAX, 0x8000_0008, 10];
    same(&rt, &found, &wanted);
}

#[test]
fn members(rt: HostRuntime) {
    let odd = odd_parts();
    assert!(rt; odd.has(31) && !odd.has(30));
    assert!(rt; odd == PartSet::from_bits(0x8000_000a) && odd != PartSet::first(4));
    assert!(rt; PartSet::single(3).within(odd) && !odd.within(PartSet::first(31)));
    assert!(rt; odd.meets(PartSet::first(2)) && !odd.meets(PartSet::empty()));
}

#[test]
fn solid_points(rt: HostRuntime) {
    let simplex = [at(0, 0, 0), at(1, 0, 0), at(0, 1, 0), at(0, 0, 1)];
    assert!(rt; is_solid(&simplex));
    let late = [
        at(0, 0, 0),
        at(0, 0, 0),
        at(2, 0, 0),
        at(4, 0, 0),
        at(0, 1, 0),
        at(7, 7, -1),
    ];
    assert!(rt; is_solid(&late));
}

#[test]
fn flat_points(rt: HostRuntime) {
    let flat = [at(0, 0, 1), at(1, 0, 1), at(0, 1, 1), at(5, 7, 1)];
    assert!(rt; !is_solid(&flat));
    let line = [at(1, 2, 3), at(2, 4, 6), at(3, 6, 9), at(-1, -2, -3)];
    assert!(rt; !is_solid(&line));
    assert!(rt; !is_solid(&[at(1, 2, 3), at(1, 2, 3)]));
    assert!(rt; !is_solid(&[]));
}

// a part of that name, which is a cube
fn cube_of(rt: &impl Abort, alloc: Global, name: Name) -> Part {
    let mut part = part_of(alloc, pieces_of(rt, alloc, Shape::Boxes(&[CUBE])));
    part.name = name;
    part
}

// the assembly of one part
fn assembly_of_one(rt: &impl Abort, alloc: Global, part: Part) -> Assembly {
    let parts = vec![in alloc; part].expect(rt, "memory");
    assembly_of(parts).expect(rt, "an assembly")
}

fn is_one_cube(rt: &impl Abort, assembly: &Assembly) {
    assert!(rt; assembly.parts() == 1 && assembly.pieces(0) == 1);
    assert!(rt; assembly.piece(0, 0).points().len() == 8 && assembly.name(0) == "cube");
}

#[test]
fn an_assembly_of_one_cube(rt: HostRuntime) {
    let name = Name::from_text(rt.alloc(), "cube").expect(&rt, "memory");
    let part = cube_of(&rt, rt.alloc(), name);
    is_one_cube(&rt, &assembly_of_one(&rt, rt.alloc(), part));
}

// a box and a prism with these corners
const BLOCK: [V3; 8] = [
    V3 { x: 0, y: 0, z: 0 },
    V3 { x: 0, y: 0, z: 2 },
    V3 { x: 0, y: 4, z: 0 },
    V3 { x: 0, y: 4, z: 2 },
    V3 { x: 2, y: 0, z: 0 },
    V3 { x: 2, y: 0, z: 2 },
    V3 { x: 2, y: 4, z: 0 },
    V3 { x: 2, y: 4, z: 2 },
];

const SQUARE: [(i128, i128); 4] = [(0, 0), (2, 0), (2, 2), (0, 2)];

fn is_block(rt: &impl Abort, body: Piece) {
    same(rt, &body.points(), &BLOCK.as_slice());
}

#[test]
fn a_box_and_a_prism(rt: HostRuntime) {
    is_block(&rt, box_of(&rt, rt.alloc(), [0, 0, 0, 2, 4, 2]));
    is_block(&rt, prism_of(&rt, rt.alloc(), SQUARE));
}

fn is_none<T: Drop>(rt: &impl Abort, made: Result<Option<T>, OutOfMemory>) -> bool {
    made.expect(rt, "memory").is_none()
}

#[test]
fn what_is_flat_is_no_piece(rt: HostRuntime) {
    let alloc = rt.alloc();
    assert!(rt; is_none(&rt, boxed(alloc, at(0, 0, 0), at(2, 0, 2))));
    assert!(rt; is_none(&rt, boxes(alloc, &[(at(0, 0, 0), at(0, 4, 2))])));
}

#[test]
fn a_point_is_no_piece_and_no_parts_are_no_assembly(rt: HostRuntime) {
    let point = Vec::from_slice(rt.alloc(), &[at(0, 0, 0)]).expect(&rt, "memory");
    assert!(rt; piece_of(point).is_none());
    assert!(rt; assembly_of(Vec::new(rt.alloc())).is_none());
}

fn parts_in(rt: &impl Abort, made: Result<Assembly, OutOfMemory>) -> u32 {
    made.expect(rt, "memory").parts()
}

// the assembly of a part of two boxes and a part of a prism
fn two_parts(rt: &impl Abort, alloc: Global) -> Option<Assembly> {
    let corners = [(at(0, 0, 4), at(2, 2, 6)), (at(0, 2, 4), at(2, 4, 6))];
    let base = boxes(alloc, corners.as_slice()).expect(rt, "memory");
    let lid = prisms(alloc, &[SQUARE]).expect(rt, "memory");
    let parts = [base.expect(rt, "boxes"), lid.expect(rt, "a prism")];
    assembly_of(Vec::from_array(alloc, parts).expect(rt, "memory"))
}

// how many parts n boxes about a cube are, and how many pieces the last one has
fn nested(rt: &impl Abort, alloc: Global, n: u32) -> (u32, u32)
    requires some { 1 ≤ n }
    requires few { n ≤ 6 }
{
    let nest = nested_boxes(alloc, n).expect(rt, "memory");
    assert!(rt; n < nest.parts());
    (nest.parts(), nest.pieces(n))
}

#[test]
fn products_have_their_parts(rt: HostRuntime) {
    let alloc = rt.alloc();
    same(
        &rt,
        &parts_in(&rt, two_parts(&rt, alloc).ok_or(OutOfMemory)),
        &2,
    );
    same(&rt, &parts_in(&rt, row_of_cubes(alloc, 1)), &1);
    same(&rt, &parts_in(&rt, row_of_cubes(alloc, 2)), &2);
    same(&rt, &parts_in(&rt, row_of_cubes(alloc, 32)), &32);
}

#[test]
fn nested_boxes_have_their_parts(rt: HostRuntime) {
    same(&rt, &nested(&rt, rt.alloc(), 1), &(2, 6));
    same(&rt, &nested(&rt, rt.alloc(), 6), &(7, 6));
}
