// Worked cores: a cube in a box, which is held as long as the box is closed.
use crate::fixtures::{CLOSED, OPEN, Shape, same, table};
use staat_core::{Moving, TableCore};
use staat_planes::PlaneTable;
use std::alloc::Global;
use std::process::Abort;

// whether both parts are seen to be held together on this plane
fn holds_on(table: &PlaneTable, moving: Moving, plane: u32) -> bool {
    let all = table.set();
    plane < table.len()
        && TableCore::of(table, all, moving).holds_on(table, all, table.plane(plane))
}

// whether they are so on each of three planes, for sides and for single parts
fn are_held(rt: &impl Abort, table: &PlaneTable, wanted: [bool; 3]) {
    same(rt, &table.len(), &3);
    for plane in 0..3u32 {
        let is_wanted = wanted[plane as usize];
        same(rt, &holds_on(table, Moving::AnySide, plane), &is_wanted);
        same(rt, &holds_on(table, Moving::OnePart, plane), &is_wanted);
    }
}

fn holds_on_three(rt: &impl Abort, alloc: Global, shapes: &[Shape], wanted: [bool; 3]) {
    are_held(rt, &table(rt, alloc, shapes), wanted);
}

#[test]
fn a_box_holds_a_cube_on_all_planes_unless_it_is_open(rt: HostRuntime) {
    holds_on_three(&rt, rt.alloc(), &CLOSED, [true; 3]);
    holds_on_three(&rt, rt.alloc(), &OPEN, [false, false, true]);
}

// whether they are so along all directions
fn is_held(table: &PlaneTable) -> bool {
    let mut core = TableCore::of(table, table.set(), Moving::AnySide);
    core.holds(table, table.set())
}

fn holds(rt: &impl Abort, alloc: Global, shapes: &[Shape], wanted: bool) {
    same(rt, &is_held(&table(rt, alloc, shapes)), &wanted);
}

#[test]
fn a_closed_box_holds_a_cube_along_all_directions(rt: HostRuntime) {
    holds(&rt, rt.alloc(), &CLOSED, true);
    holds(&rt, rt.alloc(), &OPEN, false);
}
