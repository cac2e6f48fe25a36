// The text of a graph in rows of marks, on any number of parts.
ghost use Rattle.std.specs.Prelude.{◌≡◌, ◌<◌, ◌≤◌, ◌↔◌, ◌++◌, All, IfOk, IsTrue, codes, flat_map, length, map};
ghost use Rattle.staat_model.specs.SetLists.{set_of};
ghost use Rattle.staat_graph.specs.Rows.{AreAscendingBelow, HasMark, IsSquare, row_word};
ghost use Rattle.staat_text.specs.GraphTexts.{IsGraphText, arc_line, arcs_from, arcs_of, group_line};
ghost use Rattle.staat_text.specs.PlanTexts.{numbers_text};

use crate::graphs::along_line;
use crate::numbers::push_numbers;
use staat_graph::{PartNumbers, Row, row_groups};
use staat_limits::MOST_PRODUCT_PARTS;
use staat_number::push_number;
use staat_vec::{Bytes, OutOfMemory, V3};
use std::alloc::{AllocError, Global};

fn has_arc(rows: &[Row], a: usize, b: usize) -> bool
    requires square { IsSquare rows.now }
    requires a { a < length rows.now }
    requires b { b < length rows.now }
    ensures { IsTrue result ↔ HasMark rows.now a b }
{
    let row = rows[a].as_slice();
    row[b]
}

// Adds the line of the arc from a to b.
#[tactic(auto, using(std::proofs::Common::append_assoc))]
pub(crate) fn push_arc(text: &mut Vec<u8>, a: u32, b: u32) -> Result<(), AllocError>
    ensures { IfOk result (λ _. text.new.items ≡ text.old.items ++ arc_line (a, b)) }
{
    text.extend_from_slice(b"arc ")?;
    push_number(text, a as i128)?;
    text.push(b' ')?;
    push_number(text, b as i128)?;
    text.push(b'\n')?;
    Ok(())
}

// Adds the lines of the arcs from the part a.
fn push_arcs_from(text: &mut Vec<u8>, rows: &[Row], a: usize) -> Result<(), AllocError>
    requires square { IsSquare rows.now }
    requires few { length rows.now ≤ MOST_PRODUCT_PARTS }
    requires from { a < length rows.now }
    ensures { IfOk result (λ _. text.new.items ≡
        text.old.items ++ flat_map arc_line (arcs_from (map row_word rows.now) (length rows.now) a)) }
{
    for b in 0..rows.len() {
        if has_arc(rows, a, b) {
            push_arc(text, a as u32, b as u32)?;
        }
    }
    Ok(())
}

// Adds the lines of all arcs.
fn push_arcs(text: &mut Vec<u8>, rows: &[Row]) -> Result<(), AllocError>
    requires square { IsSquare rows.now }
    requires few { length rows.now ≤ MOST_PRODUCT_PARTS }
    ensures { IfOk result (λ _. text.new.items ≡
        text.old.items ++ flat_map arc_line (arcs_of (map row_word rows.now) (length rows.now))) }
{
    for a in 0..rows.len() {
        push_arcs_from(text, rows, a)?;
    }
    Ok(())
}

// Adds the line of a group.
#[tactic(auto, using(std::proofs::Common::append_assoc))]
pub(crate) fn push_group(text: &mut Vec<u8>, group: &[u32]) -> Result<(), AllocError>
    ensures { IfOk result (λ _. text.new.items ≡
        text.old.items ++ (codes "group" ++ numbers_text group.now ++ codes "\n")) }
{
    text.extend_from_slice(b"group")?;
    push_numbers(text, group)?;
    text.push(b'\n')?;
    Ok(())
}

// Adds the lines of the groups.
fn push_groups(text: &mut Vec<u8>, groups: &[PartNumbers]) -> Result<(), AllocError>
    requires { All (AreAscendingBelow MOST_PRODUCT_PARTS) groups.now }
    ensures { IfOk result (λ _. text.new.items ≡
        text.old.items ++ flat_map group_line (map set_of groups.now)) }
{
    for group in groups {
        push_group(text, group.as_slice())?;
    }
    Ok(())
}

/// The same text as [`graph_text`](crate::graph_text) of a graph in rows of marks, where `d` is the direction: row `a`
/// has a mark for each part to which an arc leads from the part `a`.
///
/// There are at most [`MOST_PRODUCT_PARTS`] rows, and as many marks in each.
pub fn rows_text(alloc: Global, d: V3, rows: &[Row]) -> Result<Bytes, OutOfMemory>
    requires square { IsSquare rows.now }
    requires few { length rows.now ≤ MOST_PRODUCT_PARTS }
    ensures { IfOk result (IsGraphText (length rows.now) d (map row_word rows.now)) }
{
    let groups = row_groups(alloc, rows)?;
    let mut text = along_line(alloc, d)?.into_bytes();
    push_arcs(&mut text, rows)?;
    push_groups(&mut text, groups.as_slice())?;
    Ok(Bytes::from_vec(text))
}
