// What ways reach.
ghost use Rattle.std.specs.Prelude.{◌≡◌, ◌<◌, ◌≤◌, ◌⊎◌, ◌↔◌, ℕ, All, IfOk, IsFalse, IsTrue, length};
ghost use Rattle.staat_holds.specs.VisitedNodes.{AreShut, HasWay, IsVisited, IsWayWithin, KeepsVisited, ReachesVisited};
ghost use Rattle.staat_holds.specs.VisitedNodes.{visited_count};
ghost use Rattle.staat_holds.specs.Reaching.{AllReach, Reaches};

use crate::ways::{Way, turned};
use staat_vec::OutOfMemory;
use std::alloc::Global;

// visits the node to which the way leads if it begins at one that is visited; whether that is new
fn mark_along(marks: &mut [bool], way: Way) -> bool
    requires { IsWayWithin (length marks.old) way }
    ensures kept { KeepsVisited marks.old marks.new }
    ensures only { (k : ℕ) → IsVisited marks.new k
        → IsVisited marks.old k ⊎ (IsVisited marks.old way.from × (way.to ≡ k)) }
    ensures open { IsFalse result → marks.new ≡ marks.old }
    ensures shut { IsFalse result → IsVisited marks.old way.from → IsVisited marks.old way.to }
    ensures more { IsTrue result → visited_count marks.old < visited_count marks.new }
{
    let is_new = marks[way.from as usize] && !marks[way.to as usize];
    if is_new {
        marks[way.to as usize] = true;
    }
    is_new
}

// so along each of the ways once; whether a node is new
fn mark_next(marks: &mut [bool], ways: &[Way]) -> bool
    requires { All (IsWayWithin (length marks.old)) ways.now }
    ensures kept { KeepsVisited marks.old marks.new }
    ensures reached { (x : ℕ) → ReachesVisited ways.now x marks.old → ReachesVisited ways.now x marks.new }
    ensures shut { IsFalse result → AreShut ways.now marks.new }
    ensures more { IsTrue result → visited_count marks.old < visited_count marks.new }
{
    let mut is_new = false;
    for way in ways {
        let is_found = mark_along(marks, *way);
        is_new = is_new | is_found;
    }
    is_new
}

// visits all nodes that ways lead to from those that are visited
fn mark_all(marks: &mut [bool], ways: &[Way])
    requires { All (IsWayWithin (length marks.old)) ways.now }
    ensures kept { KeepsVisited marks.old marks.new }
    ensures reached { (x : ℕ) → ReachesVisited ways.now x marks.old → ReachesVisited ways.now x marks.new }
    ensures shut { AreShut ways.now marks.new }
{
    'rounds: while mark_next(marks, ways) {}
}

// whether all are visited
fn are_marked(marks: &[bool]) -> bool
    ensures { IsTrue result ↔ All IsTrue marks.now }
{
    for mark in marks {
        if !*mark {
            return false;
        }
    }
    true
}

// whether the node 0 reaches each of so many nodes
fn reaches_all(alloc: Global, count: u32, ways: &[Way]) -> Result<bool, OutOfMemory>
    requires some { 1 ≤ count }
    requires ways { All (IsWayWithin count) ways.now }
    ensures { IfOk result (λ answer. IsTrue answer ↔ ((k : ℕ) → k < count → Reaches (HasWay ways.now) 0 k)) }
{
    let mut marks = vec![in alloc; false; count as usize]?;
    marks[0] = true;
    mark_all(marks.as_mut_slice(), ways);
    Ok(are_marked(marks.as_slice()))
}

/// Whether each of so many nodes, one at least, reaches each other one.
pub fn all_reach(alloc: Global, count: u32, ways: &[Way]) -> Result<bool, OutOfMemory>
    requires some { 1 ≤ count }
    requires ways { All (IsWayWithin count) ways.now }
    ensures { IfOk result (λ answer. IsTrue answer ↔ AllReach count (HasWay ways.now)) }
{
    if !reaches_all(alloc, count, ways)? {
        return Ok(false);
    }
    let back = turned(alloc, ways)?;
    reaches_all(alloc, count, back.as_slice())
}
