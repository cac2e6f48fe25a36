// The text of a plan, or of parts that are stuck.
ghost use Rattle.std.specs.Prelude.{◌≡◌, ◌⊎◌, ◌↔◌, ◌+◌, ◌<◌, ◌++◌, [], ℕ, All, Contains, IfOk};
ghost use Rattle.std.specs.Prelude.{codes, decimal, drop, string_bytes};
ghost use Rattle.std.specs.List.Sorted.{IsStrictlySortedBy};
ghost use Rattle.std.specs.Ordering.{nat_cmp};
ghost use Rattle.staat_model.specs.Outcomes.{finding_of, planned, stuck};
ghost use Rattle.staat_model.specs.Plans.{parts_of, plan_of};
ghost use Rattle.staat_model.specs.SetLists.{set_of};
ghost use Rattle.staat_model.specs.Sets.{Has};
ghost use Rattle.staat_text.specs.PlanTexts.{CanBeShown, HasLeaves, move_line, move_lines, plan_text, steps_of};
ghost use Rattle.staat_text.specs.PlanTexts.{direction_text, kind_text, mark_text, numbers_text, parts_listed};

use crate::numbers::{numbers_of, numbers_text, push_numbers};
use staat_limits::MOST_PRODUCT_PARTS;
use staat_model::{Kind, Outcome, PartSet, Tree};
use staat_vec::{Bytes, OutOfMemory, V3};
use std::alloc::{AllocError, Global};

/// The parts of a set, ascending, each after a space.
pub fn parts_listed(alloc: Global, w: PartSet) -> Result<Vec<u8>, AllocError>
    ensures { IfOk result (λ text. text.items ≡ parts_listed w) }
{
    let numbers = numbers_of(alloc, w)?;
    numbers_text(alloc, numbers.as_slice())
}

/// The words ` along X Y Z away from`, which stand between two sides.
pub fn direction_text(alloc: Global, d: V3) -> Result<String, AllocError>
    ensures { IfOk result (λ s. string_bytes s ≡ direction_text d) }
{
    let V3 { x, y, z } = d;
    format!(in alloc; " along {x} {y} {z} away from")
}

// The first of the marks, if there is one.
fn mark_text(marks: &[Kind]) -> &[u8]
    ensures { result.now ≡ mark_text marks.now }
{
    match marks.first() {
        None => b"",
        Some(Kind::Open) => b" by open",
        Some(Kind::Edge) => b" by edge",
        Some(Kind::Point) => b" by point",
    }
}

// Adds the parts at the leaves to a list.
fn push_leaves(numbers: &mut Vec<u32>, tree: &Tree) -> Result<(), AllocError>
    ensures { IfOk result (λ _. (p : ℕ) → Contains numbers.new.items p ↔
        (Contains numbers.old.items p ⊎ Has (parts_of (plan_of tree.now)) p)) }
{
    match tree {
        Tree::Leaf(p) => {
            numbers.push(*p)?;
            Ok(())
        }
        Tree::Split { moved, rest, .. } => {
            push_leaves(numbers, moved)?;
            push_leaves(numbers, rest)
        }
    }
}

/// The numbers, ascending, each once.
pub fn each_once(mut numbers: Vec<u32>) -> Vec<u32>
    ensures ascending { IsStrictlySortedBy nat_cmp result.items }
    ensures members { (p : ℕ) → Contains result.items p ↔ Contains numbers.items p }
{
    numbers.sort_unstable();
    numbers.dedup();
    numbers
}

// Adds the parts at the leaves, ascending, each after a space.
fn push_side(alloc: Global, text: &mut Vec<u8>, side: &Tree) -> Result<(), AllocError>
    requires { HasLeaves (plan_of side.now) }
    ensures { IfOk result (λ _. text.new.items ≡ text.old.items ++ parts_listed (parts_of (plan_of side.now))) }
{
    let mut numbers = Vec::new(alloc);
    push_leaves(&mut numbers, side)?;
    let numbers = each_once(numbers);
    push_numbers(text, numbers.as_slice())
}

// Adds the words between two sides.
fn push_direction(alloc: Global, text: &mut Vec<u8>, d: V3) -> Result<(), AllocError>
    ensures { IfOk result (λ _. text.new.items ≡ text.old.items ++ direction_text d) }
{
    let along = direction_text(alloc, d)?;
    text.extend_from_slice(along.as_bytes())?;
    Ok(())
}

// Adds the line of a step.
#[tactic(auto, using(std::proofs::Common::append_assoc))]
fn push_move(
    alloc: Global,
    text: &mut Vec<u8>,
    moved: &Tree,
    d: V3,
    rest: &Tree,
    marks: &[Kind],
) -> Result<(), AllocError>
    requires moved { HasLeaves (plan_of moved.now) }
    requires rest { HasLeaves (plan_of rest.now) }
    ensures { IfOk result (λ _. text.new.items ≡ text.old.items
        ++ move_line (parts_of (plan_of moved.now)) d (parts_of (plan_of rest.now)) marks.now) }
{
    text.extend_from_slice(b"move")?;
    push_side(alloc, text, moved)?;
    push_direction(alloc, text, d)?;
    push_side(alloc, text, rest)?;
    text.extend_from_slice(mark_text(marks))?;
    text.push(b'\n')?;
    Ok(())
}

// The number of steps.
pub(crate) fn steps_of(tree: &Tree) -> u32
    requires { steps_of (plan_of tree.now) < MOST_PRODUCT_PARTS }
    ensures { result ≡ steps_of (plan_of tree.now) }
{
    match tree {
        Tree::Leaf(_) => 0,
        Tree::Split { moved, rest, .. } => 1 + steps_of(moved) + steps_of(rest),
    }
}

// The marks from the nth on.
fn marks_from(marks: &[Kind], n: u32) -> &[Kind]
    ensures { result.now ≡ drop n marks.now }
{
    match marks.get(n as usize..) {
        None => &[],
        Some(rest) => rest,
    }
}

// Writes a line for each step behind a text.
fn push_moves(
    alloc: Global,
    text: &mut Vec<u8>,
    tree: &Tree,
    marks: &[Kind],
) -> Result<(), AllocError>
    requires { HasLeaves (plan_of tree.now) }
    ensures { IfOk result (λ _. text.new.items ≡ text.old.items ++ move_lines (plan_of tree.now) marks.now) }
{
    match tree {
        Tree::Leaf(_) => Ok(()),
        Tree::Split { d, moved, rest } => {
            push_move(alloc, text, moved, *d, rest, marks)?;
            push_moves(alloc, text, moved, marks_from(marks, 1))?;
            push_moves(alloc, text, rest, marks_from(marks, 1 + steps_of(moved)))
        }
    }
}

/// The line with the number of steps.
pub fn moves_line(alloc: Global, steps: u32) -> Result<String, AllocError>
    ensures { IfOk result (λ s. string_bytes s ≡ codes "moves " ++ decimal steps ++ codes "\n") }
{
    format!(in alloc; "moves {steps}\n")
}

// The text of a plan.
fn moves_text(alloc: Global, tree: &Tree, marks: &[Kind]) -> Result<Vec<u8>, AllocError>
    requires { HasLeaves (plan_of tree.now) }
    ensures { IfOk result (λ text. text.items ≡ plan_text (planned (plan_of tree.now) marks.now)) }
{
    let mut text = Vec::new(alloc);
    push_moves(alloc, &mut text, tree, marks)?;
    let last = moves_line(alloc, steps_of(tree))?;
    text.extend_from_slice(last.as_bytes())?;
    Ok(text)
}

// The line of parts that are stuck.
fn stuck_line(alloc: Global, members: &[u32]) -> Result<Vec<u8>, AllocError>
    ensures { IfOk result (λ line. line.items ≡ codes "stuck" ++ numbers_text members.now ++ codes "\n") }
{
    let mut line = b"stuck".to_vec(alloc)?;
    push_numbers(&mut line, members)?;
    line.push(b'\n')?;
    Ok(line)
}

/// The text of an outcome: a line `move P .. along X Y Z away from Q ..` for each step in preorder, with ` by` and the
/// kind of its cell where it has a mark, and the line `moves K`; or the line `stuck P ..`.
///
/// The leaves of a plan are different parts below [`MOST_PRODUCT_PARTS`].
pub fn plan_text(alloc: Global, outcome: &Outcome) -> Result<Bytes, OutOfMemory>
    requires { CanBeShown (finding_of outcome.now) }
    ensures { IfOk result (λ text. text ≡ plan_text (finding_of outcome.now)) }
{
    let text = match outcome {
        Outcome::Plan { tree, marks } => moves_text(alloc, tree, marks.as_slice())?,
        Outcome::Stuck(w) => {
            let members = numbers_of(alloc, *w)?;
            stuck_line(alloc, members.as_slice())?
        }
    };
    Ok(Bytes::from_vec(text))
}

/// The same text of a plan of a product that has no marks.
pub fn steps_text(alloc: Global, tree: &Tree) -> Result<Bytes, OutOfMemory>
    requires { HasLeaves (plan_of tree.now) }
    ensures { IfOk result (λ text. text ≡ plan_text (planned (plan_of tree.now) [])) }
{
    let text = moves_text(alloc, tree, &[])?;
    Ok(Bytes::from_vec(text))
}

/// The same line of parts of a product that are stuck, which ascend and are below [`MOST_PRODUCT_PARTS`].
pub fn stuck_text(alloc: Global, members: &[u32]) -> Result<Bytes, OutOfMemory>
    requires ascending { IsStrictlySortedBy nat_cmp members.now }
    requires small { All (λ p. p < MOST_PRODUCT_PARTS) members.now }
    ensures { IfOk result (λ text. text ≡ plan_text (stuck (set_of members.now))) }
{
    let text = stuck_line(alloc, members)?;
    Ok(Bytes::from_vec(text))
}
