// Worked circles of planes: planes that are taken out and put back, and walks along circles.
ghost use Rattle.std.specs.Prelude.{◌≡◌, ◌<◌, Contains};
ghost use Rattle.staat_ring.specs.Rings.{WereMadeFrom, linked_of};
ghost use Rattle.staat_ring.specs.Walked.{IsEntered, WalkWasMadeFrom};

use crate::fixtures::{CUBE, Corners, LIDDED, Shape, same, table};
use staat_planes::{PlaneTable, Steps};
use staat_ring::{Rings, Walk};
use staat_vec::V3;
use std::alloc::Global;
use std::marker::Brand;
use std::process::Abort;
use std::sync::ledger::{Blank, Ledger};

// the number of vertices on each circle, and 0 where the plane is not linked
fn lengths(rings: &Rings) -> [u32; 7] {
    let mut lengths = [0; 7];
    for plane in 0..7u32 {
        if rings.is_linked(plane) {
            lengths[plane as usize] = rings.circle_vertices(plane);
        }
    }
    lengths
}

const WHOLE: [u32; 7] = [8, 8, 4, 8, 8, 8, 8];

const WITHOUT: [u32; 7] = [8, 6, 4, 6, 6, 8, 0];

fn out_and_back(rt: &impl Abort, rings: &mut Rings) {
    same(rt, &lengths(rings), &WHOLE);
    assert!(rt; rings.is_linked(6));
    rings.unlink(6);
    same(rt, &lengths(rings), &WITHOUT);
    rings.relink(6);
    same(rt, &lengths(rings), &WHOLE);
}

// the same in new rings
fn out_and_back_in(rt: &impl Abort, alloc: Global, table: &PlaneTable) {
    let mut rings = Rings::build(alloc, table).expect(rt, "memory");
    out_and_back(rt, &mut rings);
}

#[test]
fn a_plane_out_and_back(rt: HostRuntime) {
    out_and_back_in(&rt, rt.alloc(), &table(&rt, rt.alloc(), &LIDDED));
}

// enters the circle of a plane
fn enter<L: Ledger>(walk: &mut Walk, table: &PlaneTable, rings: &Rings, plane: u32, blank: Blank)
    requires made { WalkWasMadeFrom table.now walk.old }
    requires rings { WereMadeFrom table.now.planes rings.now }
    requires linked { Contains (linked_of rings.now.rings) plane }
    requires name { blank.name ≡ L.name }
    requires parts { blank.parts ≡ L.parts }
    requires some { 0 < blank.parts }
    ensures made { WalkWasMadeFrom table.now walk.new }
    ensures entered { IsEntered table.now.planes rings.now.rings walk.new }
{
    let mut steps = Steps::<L>::new(blank);
    walk.enter(table, rings, plane, &mut steps);
}

// a vertex, the words of the blocking graph of the first three parts there, whether all parts reach each other, and
// whether another vertex follows
type Stop = (V3, [u32; 3], bool, bool);

// the next eight vertices
fn around(
    rt: &impl Abort,
    alloc: Global,
    table: &PlaneTable,
    rings: &Rings,
    walk: &mut Walk,
) -> Vec<Stop>
    requires made { WalkWasMadeFrom table.now walk.old }
    requires rings { WereMadeFrom table.now.planes rings.now }
    requires entered { IsEntered table.now.planes rings.now.rings walk.old }
{
    let all = table.set();
    let mut stops = Vec::new(alloc);
    for _place in 0..8 {
        let vertex = walk.at();
        let rows = walk.graph().rows;
        let is_strong = all.has(0) && walk.is_strong(all);
        let stop = (
            vertex,
            [rows[0], rows[1], rows[2]],
            is_strong,
            walk.cross(table, rings),
        );
        stops.push(stop).expect(rt, "memory");
    }
    stops
}

// the vertices of the circle of a plane, from its first one on
fn stops_on(
    rt: &impl Abort,
    alloc: Global,
    table: &PlaneTable,
    rings: &Rings,
    plane: u32,
) -> Vec<Stop>
    requires { WereMadeFrom table.now.planes rings.now }
{
    let mut walk = Walk::new(alloc, table).expect(rt, "memory");
    assert!(rt; rings.is_linked(plane));
    enter::<Brand>(&mut walk, table, rings, plane, Blank::new(1));
    around(rt, alloc, table, rings, &mut walk)
}

// the same for one of seven planes
fn stops_of(rt: &impl Abort, alloc: Global, table: &PlaneTable, plane: u32) -> Vec<Stop> {
    assert!(rt; table.len() == 7);
    let rings = Rings::build(alloc, table).expect(rt, "memory");
    stops_on(rt, alloc, table, &rings, plane)
}

// on the circle of the plane across x, of a box with a lid: opposite vertices have opposite arcs
const ON_A_BOX: [Stop; 8] = [
    (V3 { x: 0, y: 0, z: 1 }, [0b100, 0b101, 0], false, true),
    (V3 { x: 0, y: -3, z: 2 }, [0b110, 0b101, 0b010], true, true),
    (V3 { x: 0, y: -1, z: 0 }, [0b010, 0b101, 0b010], true, true),
    (V3 { x: 0, y: -3, z: -2 }, [0b010, 0b101, 0b011], true, true),
    (V3 { x: 0, y: 0, z: -1 }, [0b010, 0, 0b011], false, true),
    (V3 { x: 0, y: 3, z: -2 }, [0b010, 0b101, 0b011], true, true),
    (V3 { x: 0, y: 1, z: 0 }, [0b010, 0b101, 0b010], true, true),
    (V3 { x: 0, y: 3, z: 2 }, [0b110, 0b101, 0b010], true, false),
];

// a cube between two others: one touches it ahead along x, the other stands behind it at a distance
const SIDES: [Corners; 2] = [[2, 0, 0, 4, 2, 2], [-4, 0, 0, -2, 2, 2]];

const BETWEEN: [Shape<'static>; 2] = [Shape::Boxes(&[CUBE]), Shape::Boxes(&SIDES)];

const ON_A_CUBE: [Stop; 8] = [
    (V3 { x: 0, y: 0, z: -1 }, [0, 0, 0], false, true),
    (V3 { x: -1, y: 0, z: -1 }, [0, 0b01, 0], false, true),
    (V3 { x: -1, y: 0, z: 0 }, [0b10, 0b01, 0], true, true),
    (V3 { x: -1, y: 0, z: 1 }, [0, 0b01, 0], false, true),
    (V3 { x: 0, y: 0, z: 1 }, [0, 0, 0], false, true),
    (V3 { x: 1, y: 0, z: 1 }, [0b10, 0, 0], false, true),
    (V3 { x: 1, y: 0, z: 0 }, [0b10, 0b01, 0], true, true),
    (V3 { x: 1, y: 0, z: -1 }, [0b10, 0, 0], false, false),
];

fn stops(rt: &impl Abort, alloc: Global, table: &PlaneTable, plane: u32, wanted: &[Stop]) {
    let found = stops_of(rt, alloc, table, plane);
    same(rt, &found.as_slice(), &wanted);
}

fn stops_about(rt: &impl Abort, alloc: Global, shapes: &[Shape], plane: u32, wanted: &[Stop]) {
    stops(rt, alloc, &table(rt, alloc, shapes), plane, wanted);
}

#[test]
fn around_two_circles(rt: HostRuntime) {
    stops_about(&rt, rt.alloc(), &LIDDED, 0, &ON_A_BOX);
    stops_about(&rt, rt.alloc(), &BETWEEN, 1, &ON_A_CUBE);
}
