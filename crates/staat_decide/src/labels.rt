// A guess at labels, which is judged afterwards: that of each strong component, those first that no arc leaves. It is
// found by two walks: one against the arcs, which tells in what order parts are done with, and one along them.
use crate::arcs::Row;
use crate::reach::{Way, leads};
use crate::spreading::{is_marked, mark};
use staat_vec::OutOfMemory;
use std::alloc::Global;

/// A label for each part of a list, below the count.
#[derive(Drop)]
pub struct Labels {
    pub of: Vec<u32>,
    pub count: u32,
}

// a place where a walk stands, and the first of those that it did not look at from there
#[derive(Clone, Copy)]
struct Stand {
    place: usize,
    next: usize,
}

// a walk: what it has seen, where it stands, and what it is done with
#[derive(Drop)]
struct ArcWalk {
    seen: Vec<bool>,
    path: Vec<Stand>,
    done: Vec<usize>,
}

// the next place that is not seen and to which the way leads from where the walk stands
fn fresh_from(rows: &[Row], way: Way, seen: &[bool], at: Stand) -> Option<usize> {
    for j in at.next..rows.len() {
        if !is_marked(seen, j) && leads(rows, way, at.place, j) {
            return Some(j);
        }
    }
    None
}

// goes on from where the walk stands, or is done with that place and goes back
fn step(rows: &[Row], way: Way, walk: &mut ArcWalk) -> Result<(), OutOfMemory> {
    if let Some(at) = walk.path.pop() {
        let Some(place) = fresh_from(rows, way, walk.seen.as_slice(), at) else {
            walk.done.push(at.place)?;
            return Ok(());
        };
        mark(&mut walk.seen, place);
        let back = Stand { next: place, ..at };
        walk.path
            .extend_from_slice(&[back, Stand { place, next: 0 }])?;
    }
    Ok(())
}

// walks from a place, unless it was seen, as far as it goes: two steps for each place are enough
fn walk_from(rows: &[Row], way: Way, walk: &mut ArcWalk, root: usize) -> Result<(), OutOfMemory> {
    if mark(&mut walk.seen, root) {
        walk.path.push(Stand {
            place: root,
            next: 0,
        })?;
    }
    for _ in 0..rows.len().saturating_mul(2) {
        if walk.path.is_empty() {
            return Ok(());
        }
        step(rows, way, walk)?;
    }
    Ok(())
}

// walks against the arcs until it is done with all places
fn walk_back(rows: &[Row], walk: &mut ArcWalk) -> Result<(), OutOfMemory> {
    walk.seen.resize(rows.len(), false)?;
    for root in 0..rows.len() {
        walk_from(rows, Way::Back, walk, root)?;
    }
    Ok(())
}

// gives the next label to the places
fn set_label(labels: &mut Labels, places: &[usize]) {
    for place in places {
        if *place < labels.of.len() {
            labels.of[*place] = labels.count;
        }
    }
    labels.count = labels.count.saturating_add(1);
}

// walks along arcs from the place that it was done with as the k-th, and gives the next label to what it sees
fn label_from(
    rows: &[Row],
    walk: &mut ArcWalk,
    k: usize,
    labels: &mut Labels,
) -> Result<(), OutOfMemory> {
    let before = walk.done.len();
    if k < before {
        let root = walk.done[k];
        walk_from(rows, Way::Ahead, walk, root)?;
    }
    let done = walk.done.as_slice();
    if before < done.len() {
        set_label(labels, &done[before..]);
    }
    Ok(())
}

// gives labels by walks along arcs from the places that the walk was done with, the last of them first
fn label_along(rows: &[Row], walk: &mut ArcWalk, labels: &mut Labels) -> Result<(), OutOfMemory> {
    labels.of.resize(rows.len(), 0)?;
    walk.seen.as_mut_slice().fill(false);
    let count = walk.done.len();
    for k in 0..count {
        label_from(rows, walk, count - 1 - k, labels)?;
    }
    Ok(())
}

// gives each part a label, of which there are none yet
fn label_all(alloc: Global, rows: &[Row], labels: &mut Labels) -> Result<(), OutOfMemory> {
    let mut walk = ArcWalk {
        seen: Vec::new(alloc),
        path: Vec::new(alloc),
        done: Vec::new(alloc),
    };
    walk_back(rows, &mut walk)?;
    label_along(rows, &mut walk, labels)
}

/// Labels of parts, of which the rows are given, so that no arc should lead to a greater one.
pub fn labels_of(alloc: Global, rows: &[Row]) -> Result<Labels, OutOfMemory> {
    let mut labels = Labels {
        of: Vec::new(alloc),
        count: 0,
    };
    label_all(alloc, rows, &mut labels)?;
    Ok(labels)
}
