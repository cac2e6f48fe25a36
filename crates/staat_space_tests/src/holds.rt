// Worked holds: a cube in a box, which pairs of pieces hold together as long as they are all there.
use crate::conditions::{are_core_pairs, are_parts};
use crate::fixtures::{CLOSED, LIDDED, Shape, parts_of, same};
use staat_cone::Plain;
use staat_holds::{first_gap, judge_hold};
use staat_model::{Arc, Part};
use staat_vec::{OutOfMemory, V3};
use std::alloc::Global;
use std::process::Abort;

// the first gap of a core, and whether there is none; nothing where parts, nodes and core do not fit
fn judged(
    alloc: Global,
    parts: &[Part],
    nodes: &[Option<u32>],
    core: &[Arc],
) -> Result<Option<(Option<V3>, bool)>, OutOfMemory> {
    if !are_parts(parts) {
        return Ok(None);
    }
    if !are_core_pairs(parts, nodes, 2, core) {
        return Ok(None);
    }
    let gap = first_gap(alloc, &Plain, parts, nodes, 2, core)?;
    let holds = judge_hold(alloc, &Plain, parts, nodes, 2, core)?;
    Ok(Some((gap, holds)))
}

// the cube against a piece of another part
fn against(b: u32, j: u32) -> Arc {
    Arc { a: 0, i: 0, b, j }
}

// the cube against the walls of a box
fn sides() -> [Arc; 4] {
    [against(1, 0), against(1, 1), against(1, 2), against(1, 3)]
}

const HELD: Option<(Option<V3>, bool)> = Some((None, true));

const NO_RIGHT_WALL: Option<(Option<V3>, bool)> = Some((Some(V3 { x: 1, y: 0, z: 0 }), false));

fn judges(
    rt: &impl Abort,
    alloc: Global,
    shapes: &[Shape],
    nodes: &[Option<u32>],
    core: &[Arc],
    wanted: Option<(Option<V3>, bool)>,
) {
    let parts = parts_of(rt, alloc, shapes);
    let answer = judged(alloc, parts.as_slice(), nodes, core);
    same(rt, &answer, &Ok(wanted));
}

const TWO: [Option<u32>; 2] = [Some(0), Some(1)];

#[test]
fn pairs_with_all_sides_of_a_box_hold_a_cube(rt: HostRuntime) {
    let [right, left, behind, before] = sides();
    let sides = [right, left, behind, before, against(1, 5), against(1, 4)];
    judges(&rt, rt.alloc(), &CLOSED, &TWO, &sides, HELD);
    judges(&rt, rt.alloc(), &CLOSED, &TWO, &sides[1..], NO_RIGHT_WALL);
}

// the box without its top and the lid as one node, which the lid's pair closes
const LID_ON: [Option<u32>; 3] = [Some(0), Some(1), Some(1)];

const LID_OFF: [Option<u32>; 3] = [Some(0), Some(1), None];

#[test]
fn a_lid_holds_a_cube_where_it_is_of_the_box(rt: HostRuntime) {
    let [right, left, behind, before] = sides();
    let lidded = [right, left, behind, before, against(1, 4), against(2, 0)];
    judges(&rt, rt.alloc(), &LIDDED, &LID_ON, &lidded, HELD);
    judges(&rt, rt.alloc(), &LIDDED, &LID_OFF, &lidded, None);
}
