// Worked tables: the planes, the facets and the graphs of small assemblies.
ghost use Rattle.std.specs.Prelude.{◌≡◌, ◌<◌};
ghost use Rattle.staat_vec.specs.Vectors.{IsWithin};

use crate::conditions::is_across;
use crate::fixtures::{CLOSED, DOVETAIL, LIDDED, same, same_vector, shows, sound, table};
use staat_cone::Plain;
use staat_graph::{strong_parts, trees_of};
use staat_model::{Arc, PartSet, Sound};
use staat_planes::{PlaneTable, PlanesRefusal, Steps, tabulate};
use staat_samples::at;
use staat_vec::{DIRECTION, Normal, Sign, V3};
use std::alloc::Global;
use std::marker::Brand;
use std::process::Abort;
use std::sync::ledger::{Blank, Ledger};

// the facets of piece i of part a and piece j of part b
fn facets(rt: &impl Abort, alloc: Global, table: &PlaneTable, [a, i, b, j]: [u32; 4]) -> Vec<V3> {
    let arc = Arc { a, i, b, j };
    let mut facets = Vec::new(alloc);
    assert!(rt; is_across(table, arc));
    for m in 0..table.facet_count(arc) {
        facets.push(table.facet(arc, m)).expect(rt, "memory");
    }
    facets
}

fn has_facets(rt: &impl Abort, alloc: Global, table: &PlaneTable, arc: [u32; 4], wanted: &[V3]) {
    let found = facets(rt, alloc, table, arc);
    same(rt, &found.as_slice(), &wanted);
}

// the first three words of the graph at a direction
fn has_rows(rt: &impl Abort, table: &PlaneTable, d: V3, wanted: [u32; 3])
    requires { IsWithin DIRECTION d }
{
    let rows = table.graph_at(d).rows;
    same(rt, &[rows[0], rows[1], rows[2]], &wanted);
}

// the signs of the planes at a direction, counted
fn signs<L: Ledger>(
    rt: &impl Abort,
    alloc: Global,
    table: &PlaneTable,
    d: V3,
    blank: Blank,
) -> Vec<Sign>
    requires direction { IsWithin DIRECTION d }
    requires name { blank.name ≡ L.name }
    requires parts { blank.parts ≡ L.parts }
    requires some { 0 < blank.parts }
{
    let mut steps = Steps::<L>::new(blank);
    let mut signs = Vec::new(alloc);
    for k in 0..table.len() {
        let sign = table.sign_at(k, d, &mut steps);
        signs.push(sign).expect(rt, "memory");
    }
    signs
}

const DOVETAIL_PLANES: [V3; 5] = [
    V3 { x: 1, y: 0, z: 0 },
    V3 { x: 0, y: 1, z: 0 },
    V3 { x: 0, y: 0, z: 1 },
    V3 { x: 2, y: 0, z: -1 },
    V3 { x: 2, y: 0, z: 1 },
];

fn are_normals(rt: &impl Abort, found: &[Normal], wanted: &[V3]) {
    same(rt, &found.len(), &wanted.len());
    for (n, v) in found.iter().zip(wanted) {
        same_vector(rt, n.vector(), *v);
    }
}

// five planes of the parts are more than four
fn are_too_many(rt: &impl Abort, alloc: Global, parts: &Sound) {
    let all = PartSet::first(parts.assembly().parts());
    let refused = tabulate(alloc, &Plain, parts, all, 4).err();
    same(rt, &refused, &Some(PlanesRefusal::TooManyPlanes(5)));
}

fn are_five(rt: &impl Abort, alloc: Global, parts: &Sound) {
    let all = PartSet::first(parts.assembly().parts());
    let table = tabulate(alloc, &Plain, parts, all, 5).expect(rt, "five planes");
    are_normals(rt, table.planes(), &DOVETAIL_PLANES);
}

#[test]
fn the_planes_of_a_dovetail_are_limited(rt: HostRuntime) {
    let parts = sound(&rt, rt.alloc(), &DOVETAIL);
    are_too_many(&rt, rt.alloc(), &parts);
    are_five(&rt, rt.alloc(), &parts);
}

const SIGNS: [Sign; 5] = [Sign::Pos, Sign::Zero, Sign::Pos, Sign::Zero, Sign::Pos];

fn has_signs(rt: &impl Abort, alloc: Global, dovetail: &PlaneTable) {
    let signs = signs::<Brand>(rt, alloc, dovetail, at(1, 0, 2), Blank::new(1));
    assert!(rt; signs.as_slice() == SIGNS.as_slice());
}

fn is_dovetail(rt: &impl Abort, alloc: Global, dovetail: &PlaneTable) {
    has_facets(rt, alloc, dovetail, [1, 1, 0, 0], &[at(-2, 0, -1)]);
    has_signs(rt, alloc, dovetail);
    has_rows(rt, dovetail, at(0, -1, 0), [0, 0, 0]);
    has_rows(rt, dovetail, at(0, 0, 1), [0b10, 0b01, 0]);
}

#[test]
fn a_dovetail(rt: HostRuntime) {
    is_dovetail(&rt, rt.alloc(), &table(&rt, rt.alloc(), &DOVETAIL));
}

// the trees along x, by their arcs
fn has_trees(rt: &impl Abort, closed: &PlaneTable) {
    let set = closed.set();
    assert!(rt; set.has(0));
    let trees = trees_of(&closed.graph_at(at(1, 0, 0)), set).expect(rt, "trees");
    let arcs = (trees.count, trees.outs[0], trees.ins[0]);
    same(rt, &arcs, &(1, (0, 1), (1, 0)));
}

fn is_closed(rt: &impl Abort, closed: &PlaneTable) {
    same(rt, &[closed.len(), closed.set().count()], &[3, 2]);
    has_rows(rt, closed, at(1, 0, 0), [0b10, 0b01, 0]);
    has_trees(rt, closed);
}

#[test]
fn a_closed_box(rt: HostRuntime) {
    is_closed(&rt, &table(&rt, rt.alloc(), &CLOSED));
}

const DOWN: [V3; 4] = [
    V3 { x: -2, y: 0, z: -3 },
    V3 { x: 0, y: -2, z: -3 },
    V3 { x: 0, y: 2, z: -3 },
    V3 { x: 2, y: 0, z: -3 },
];

const UP: [V3; 4] = [
    V3 { x: -2, y: 0, z: 3 },
    V3 { x: 0, y: -2, z: 3 },
    V3 { x: 0, y: 2, z: 3 },
    V3 { x: 2, y: 0, z: 3 },
];

fn is_lidded(rt: &impl Abort, alloc: Global, lidded: &PlaneTable) {
    has_rows(rt, lidded, at(0, 0, 1), [0b100, 0b101, 0]);
    let groups = strong_parts(&lidded.graph_at(at(0, 0, 1)), lidded.set());
    same(rt, &groups.count, &3);
    has_facets(rt, alloc, lidded, [2, 0, 1, 4], &DOWN);
    has_facets(rt, alloc, lidded, [1, 4, 2, 0], &UP);
}

#[test]
fn a_box_with_a_lid(rt: HostRuntime) {
    is_lidded(&rt, rt.alloc(), &table(&rt, rt.alloc(), &LIDDED));
}

// whether each plane is one of those of the parts
fn used(rt: &impl Abort, alloc: Global, table: &PlaneTable, parts: PartSet) -> Vec<bool> {
    let mut used = Vec::new(alloc);
    assert!(rt; parts.within(table.set()));
    for k in 0..table.len() {
        used.push(table.used(k, parts)).expect(rt, "memory");
    }
    used
}

// the planes of the parts
fn planes_of(rt: &impl Abort, alloc: Global, table: &PlaneTable, parts: PartSet) -> Vec<Normal> {
    assert!(rt; parts.within(table.set()));
    table.planes_of(alloc, parts).expect(rt, "memory")
}

const LIDDED_PLANES: [V3; 7] = [
    V3 { x: 1, y: 0, z: 0 },
    V3 { x: 0, y: 1, z: 0 },
    V3 { x: 0, y: 0, z: 1 },
    V3 { x: 0, y: 2, z: -3 },
    V3 { x: 0, y: 2, z: 3 },
    V3 { x: 2, y: 0, z: -3 },
    V3 { x: 2, y: 0, z: 3 },
];

const ALL: [bool; 7] = [true; 7];

const AXES: [bool; 7] = [true, true, true, false, false, false, false];

// the planes of these parts of a box with a lid: so many of all, from the first one on
fn has_planes(rt: &impl Abort, alloc: Global, table: &PlaneTable, word: u32, are_used: &[bool; 7]) {
    let parts = PartSet::from_bits(word);
    let found = used(rt, alloc, table, parts);
    assert!(rt; found.as_slice() == are_used.as_slice(), "{word}");
    let count = if are_used[3] { 7 } else { 3 };
    let planes = planes_of(rt, alloc, table, parts);
    are_normals(rt, planes.as_slice(), &LIDDED_PLANES[..count]);
}

fn has_planes_of_fewer(rt: &impl Abort, alloc: Global, lidded: &PlaneTable) {
    are_normals(rt, lidded.planes(), &LIDDED_PLANES);
    has_planes(rt, alloc, lidded, 0b001, &AXES);
    has_planes(rt, alloc, lidded, 0b011, &AXES);
    has_planes(rt, alloc, lidded, 0b101, &AXES);
    has_planes(rt, alloc, lidded, 0b110, &ALL);
    has_planes(rt, alloc, lidded, 0b111, &ALL);
}

#[test]
fn planes_of_fewer_parts(rt: HostRuntime) {
    has_planes_of_fewer(&rt, rt.alloc(), &table(&rt, rt.alloc(), &LIDDED));
}

#[test]
fn refusals_are_told(rt: HostRuntime) {
    let refusal = PlanesRefusal::TooManyPlanes(1025);
    shows(&rt, rt.alloc(), &refusal, "too many planes (1025)");
    shows(
        &rt,
        rt.alloc(),
        &PlanesRefusal::OutOfMemory,
        "out of memory",
    );
}
