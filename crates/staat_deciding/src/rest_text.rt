// The text of a plan that may end in groups of parts that are stuck.
ghost use Rattle.std.specs.Prelude.{◌≡◌, ◌↔◌, ◌⊎◌, ◌<◌, ◌++◌, [], ℕ};
ghost use Rattle.std.specs.Prelude.{Contains, IfOk, IsTrue};
ghost use Rattle.staat_model.specs.Sets.{Has};
ghost use Rattle.staat_holds.specs.Partials.{HasTogether, partial_of, parts_in};
ghost use Rattle.staat_text.specs.PlanTexts.{move_line, parts_listed};
ghost use Rattle.staat_deciding.specs.RestTexts.{
  CanBeWritten,
  HasAscendingGroups,
  HasSmallParts,
  rest_text,
  step_lines,
  steps_in,
  stuck_lines,
};

use staat_holds::GroupedTree;
use staat_limits::MOST_PRODUCT_PARTS;
use staat_text::{direction_text, each_once, moves_line, numbers_text, stuck_text};
use staat_vec::{Bytes, OutOfMemory, V3};
use std::alloc::{AllocError, Global};

/// Whether some end of the plan is a group.
pub fn has_groups(tree: &GroupedTree) -> bool
    ensures { IsTrue result ↔ HasTogether (partial_of tree.now) }
{
    match tree {
        GroupedTree::Leaf(_) => false,
        GroupedTree::Group(_) => true,
        GroupedTree::Split { moved, rest, .. } => has_groups(moved) || has_groups(rest),
    }
}

// Adds the parts at the ends to a list.
fn push_ends(numbers: &mut Vec<u32>, tree: &GroupedTree) -> Result<(), AllocError>
    ensures { IfOk result (λ _. (p : ℕ) → Contains numbers.new.items p ↔
        (Contains numbers.old.items p ⊎ Has (parts_in (partial_of tree.now)) p)) }
{
    match tree {
        GroupedTree::Leaf(p) => {
            numbers.push(*p)?;
            Ok(())
        }
        GroupedTree::Group(group) => {
            numbers.extend_from_slice(group.members.as_slice())?;
            Ok(())
        }
        GroupedTree::Split { moved, rest, .. } => {
            push_ends(numbers, moved)?;
            push_ends(numbers, rest)
        }
    }
}

// The parts at the ends, ascending, each after a space.
fn ends_listed(alloc: Global, side: &GroupedTree) -> Result<Vec<u8>, AllocError>
    requires { HasSmallParts (partial_of side.now) }
    ensures { IfOk result (λ text. text.items ≡ parts_listed (parts_in (partial_of side.now))) }
{
    let mut numbers = Vec::new(alloc);
    push_ends(&mut numbers, side)?;
    let numbers = each_once(numbers);
    numbers_text(alloc, numbers.as_slice())
}

// The line of a step.
fn step_line(
    alloc: Global,
    moved: &GroupedTree,
    d: V3,
    rest: &GroupedTree,
) -> Result<Vec<u8>, AllocError>
    requires moved { HasSmallParts (partial_of moved.now) }
    requires rest { HasSmallParts (partial_of rest.now) }
    ensures { IfOk result (λ line. line.items ≡
        move_line (parts_in (partial_of moved.now)) d (parts_in (partial_of rest.now)) []) }
{
    let mut line = b"move".to_vec(alloc)?;
    line.extend_from_slice(ends_listed(alloc, moved)?.as_slice())?;
    line.extend_from_slice(direction_text(alloc, d)?.as_bytes())?;
    line.extend_from_slice(ends_listed(alloc, rest)?.as_slice())?;
    line.extend_from_slice(b"\n")?;
    Ok(line)
}

// Writes a line for each step behind a text.
fn push_steps(alloc: Global, text: &mut Vec<u8>, tree: &GroupedTree) -> Result<(), AllocError>
    requires { HasSmallParts (partial_of tree.now) }
    ensures { IfOk result (λ _. text.new.items ≡ text.old.items ++ step_lines (partial_of tree.now)) }
{
    match tree {
        GroupedTree::Leaf(_) => Ok(()),
        GroupedTree::Group(_) => Ok(()),
        GroupedTree::Split { d, moved, rest } => {
            let line = step_line(alloc, moved, *d, rest)?;
            text.extend_from_slice(line.as_slice())?;
            push_steps(alloc, text, moved)?;
            push_steps(alloc, text, rest)
        }
    }
}

// Writes a line for each group behind a text.
fn push_stuck(alloc: Global, text: &mut Vec<u8>, tree: &GroupedTree) -> Result<(), OutOfMemory>
    requires small { HasSmallParts (partial_of tree.now) }
    requires ascending { HasAscendingGroups tree.now }
    ensures { IfOk result (λ _. text.new.items ≡ text.old.items ++ stuck_lines (partial_of tree.now)) }
{
    match tree {
        GroupedTree::Leaf(_) => Ok(()),
        GroupedTree::Group(group) => {
            let line = stuck_text(alloc, group.members.as_slice())?;
            text.extend_from_slice(line.as_slice())?;
            Ok(())
        }
        GroupedTree::Split { moved, rest, .. } => {
            push_stuck(alloc, text, moved)?;
            push_stuck(alloc, text, rest)
        }
    }
}

// The number of steps.
fn steps_in(tree: &GroupedTree) -> u32
    requires { steps_in (partial_of tree.now) < MOST_PRODUCT_PARTS }
    ensures { result ≡ steps_in (partial_of tree.now) }
{
    match tree {
        GroupedTree::Leaf(_) => 0,
        GroupedTree::Group(_) => 0,
        GroupedTree::Split { moved, rest, .. } => 1 + steps_in(moved) + steps_in(rest),
    }
}

/// The text of a plan that may end in groups: a line `move P .. along X Y Z away from Q ..` for each step in preorder,
/// a line `stuck P ..` for each group, and the line `moves K`.
pub fn rest_text(alloc: Global, tree: &GroupedTree) -> Result<Bytes, OutOfMemory>
    requires { CanBeWritten tree.now }
    ensures { IfOk result (λ text. text ≡ rest_text (partial_of tree.now)) }
{
    let mut text = Vec::new(alloc);
    push_steps(alloc, &mut text, tree)?;
    push_stuck(alloc, &mut text, tree)?;
    let last = moves_line(alloc, steps_in(tree))?;
    text.extend_from_slice(last.as_bytes())?;
    Ok(Bytes::from_vec(text))
}
