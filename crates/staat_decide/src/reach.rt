// Which places are reached along arcs or against them. What is reached no arc leaves, and to what reaches a place no
// arc leads from elsewhere: so either comes apart from the rest, unless it is all.
ghost use Rattle.std.specs.Prelude.{◌≡◌, ◌<◌, ◌≤◌, ◌↔◌, ◌+◌, ℕ, All, IfNone, IfOk, IfSome, IsTrue, false, get_or};
ghost use Rattle.std.specs.Prelude.{length, map, slice_set, true};
ghost use Rattle.staat_decide.specs.Reaching.{
  AreReached,
  HasRowArc,
  IsClosedAlong,
  IsMarkedPlace,
  IsNextPlace,
  Leads,
  LeadsToMarked,
  label_of,
  unmarked,
};

use crate::arcs::Row;
use staat_vec::OutOfMemory;
use std::alloc::Global;

/// Along arcs, or against them.
#[derive(Clone, Copy)]
pub enum Way {
    Ahead,
    Back,
}

/// Whether an arc leads from the place `i` to the place `j`.
pub fn has_arc(rows: &[Row], i: usize, j: usize) -> bool
    ensures { IsTrue result ↔ HasRowArc rows.now i j }
{
    if i >= rows.len() {
        return false;
    }
    let row = rows[i].as_slice();
    j < row.len() && row[j]
}

/// Whether the way leads from the place `i` to the place `j`.
pub fn leads(rows: &[Row], way: Way, i: usize, j: usize) -> bool
    ensures { IsTrue result ↔ Leads way rows.now i j }
{
    match way {
        Way::Ahead => has_arc(rows, i, j),
        Way::Back => has_arc(rows, j, i),
    }
}

// the first place that is not marked and to which the way leads from i
fn next_from(rows: &[Row], way: Way, marks: &[bool], i: usize) -> Option<usize>
    requires each { All (λ row. length row ≡ length rows.now) rows.now }
    requires count { length marks.now ≡ length rows.now }
    requires i { i < length rows.now }
    ensures before { IfSome result (λ j. j < length marks.now) }
    ensures fresh { IfSome result (λ j. get_or marks.now j true ≡ false) }
    ensures leads { IfSome result (λ j. Leads way rows.now i j) }
    ensures none { IfNone result (LeadsToMarked way rows.now marks.now i) }
{
    for j in 0..marks.len() {
        if !marks[j] && leads(rows, way, i, j) {
            return Some(j);
        }
    }
    None
}

// likewise from a marked place that is not below the low one, and below the high one
fn next_within(rows: &[Row], way: Way, marks: &[bool], low: usize, high: usize) -> Option<usize>
    requires each { All (λ row. length row ≡ length rows.now) rows.now }
    requires count { length marks.now ≡ length rows.now }
    requires high { high ≤ length rows.now }
    ensures some { IfSome result (IsNextPlace way rows.now marks.now) }
    ensures none { IfNone result ((i : ℕ) → low ≤ i → i < high → IsMarkedPlace marks.now i →
        LeadsToMarked way rows.now marks.now i) }
{
    for i in low..high {
        if marks[i] {
            if let Some(j) = next_from(rows, way, marks, i) {
                return Some(j);
            }
        }
    }
    None
}

// likewise from any marked place, looking from the start on first
fn next(rows: &[Row], way: Way, marks: &[bool], start: usize) -> Option<usize>
    requires each { All (λ row. length row ≡ length rows.now) rows.now }
    requires count { length marks.now ≡ length rows.now }
    requires start { start < length rows.now }
    ensures some { IfSome result (IsNextPlace way rows.now marks.now) }
    ensures none { IfNone result (IsClosedAlong way rows.now marks.now) }
{
    match next_within(rows, way, marks, start, rows.len()) {
        Some(j) => Some(j),
        None => next_within(rows, way, marks, 0, start),
    }
}

fn mark(marks: &mut Vec<bool>, j: usize)
    requires { j < length marks.old.items }
    ensures { marks.new.items ≡ slice_set marks.old.items j true }
{
    marks[j] = true;
}

// a mark for each place, of which the first alone is marked
fn first_marked(alloc: Global, count: usize) -> Result<Vec<bool>, OutOfMemory>
    requires { 1 ≤ count }
    ensures count { IfOk result (λ marks. length marks.items ≡ count) }
    ensures first { IfOk result (λ marks. IsMarkedPlace marks.items 0) }
    ensures others { IfOk result (λ marks. (j : ℕ) → IsMarkedPlace marks.items j → j ≡ 0) }
    ensures left { IfOk result (λ marks. unmarked marks.items + 1 ≤ count) }
{
    let mut marks = Vec::new(alloc);
    marks.push(true)?;
    for _ in 1..count {
        marks.push(false)?;
    }
    Ok(marks)
}

/// Marks for all that is reached from the place 0 on the way.
pub fn reached(alloc: Global, rows: &[Row], way: Way) -> Result<Vec<bool>, OutOfMemory>
    requires each { All (λ row. length row ≡ length rows.now) rows.now }
    requires some { 1 ≤ length rows.now }
    ensures reached { IfOk result (λ marks. AreReached way rows.now marks.items) }
    ensures closed { IfOk result (λ marks. IsClosedAlong way rows.now marks.items) }
{
    let mut marks = first_marked(alloc, rows.len())?;
    let mut start = 0;
    for _ in 1..rows.len() {
        match next(rows, way, marks.as_slice(), start) {
            None => return Ok(marks),
            Some(j) => {
                mark(&mut marks, j);
                start = j;
            }
        }
    }
    Ok(marks)
}

/// The first place that is not marked.
pub fn first_unmarked(marks: &[bool]) -> Option<usize>
    ensures before { IfSome result (λ j. j < length marks.now) }
    ensures fresh { IfSome result (λ j. get_or marks.now j true ≡ false) }
    ensures none { IfNone result ((j : ℕ) → j < length marks.now → IsMarkedPlace marks.now j) }
{
    for j in 0..marks.len() {
        if !marks[j] {
            return Some(j);
        }
    }
    None
}

fn label(way: Way, is_marked: bool) -> u32
    ensures { result ≡ label_of way is_marked }
{
    match way {
        Way::Ahead => { if is_marked { 0 } else { 1 } }
        Way::Back => { if is_marked { 1 } else { 0 } }
    }
}

/// A label for each place: 0 for those that leave first, 1 for the others.
pub fn labels_by(alloc: Global, marks: &[bool], way: Way) -> Result<Vec<u32>, OutOfMemory>
    ensures { IfOk result (λ labels. labels.items ≡ map (label_of way) marks.now) }
{
    let mut labels = Vec::new(alloc);
    for is_marked in marks {
        labels.push(label(way, *is_marked))?;
    }
    Ok(labels)
}
