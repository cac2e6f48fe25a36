// The text of the graph of which parts block which along a direction.
ghost use Rattle.std.specs.Prelude.{◌≡◌, ◌≤◌, ◌++◌, IfOk};
ghost use Rattle.std.specs.Prelude.{flat_map, string_bytes};
ghost use Rattle.staat_text.specs.GraphTexts.{IsGraphText, along_line, group_line};

use crate::arcs::{ArcForm, push_arcs_among};
use crate::numbers::numbers_of;
use crate::rows::push_group;
use staat_graph::{Graph, strong_parts};
use staat_limits::MOST_PARTS;
use staat_model::PartSet;
use staat_vec::{Bytes, OutOfMemory, V3};
use std::alloc::{AllocError, Global};

// The line of the direction.
pub(crate) fn along_line(alloc: Global, d: V3) -> Result<String, AllocError>
    ensures { IfOk result (λ s. string_bytes s ≡ along_line d) }
{
    let V3 { x, y, z } = d;
    format!(in alloc; "along {x} {y} {z}\n")
}

// Adds the line of a group.
fn push_parts(alloc: Global, text: &mut Vec<u8>, group: PartSet) -> Result<(), AllocError>
    ensures { IfOk result (λ _. text.new.items ≡ text.old.items ++ group_line group) }
{
    let parts = numbers_of(alloc, group)?;
    push_group(text, parts.as_slice())
}

// Adds the lines of groups.
fn push_groups(alloc: Global, text: &mut Vec<u8>, groups: &[PartSet]) -> Result<(), AllocError>
    ensures { IfOk result (λ _. text.new.items ≡ text.old.items ++ flat_map group_line groups.now) }
{
    for group in groups {
        push_parts(alloc, text, *group)?;
    }
    Ok(())
}

/// The text of the graph on the parts below `parts`, which are [`MOST_PARTS`] at most, where the direction is `d`.
///
/// It has the line `along X Y Z` of the direction; then a line `arc A B` for each arc, ascending by `A` and then by
/// `B`; then a line `group P ..` for each group of parts that reach each other, in order of their least part, where
/// the parts of a group ascend.
pub fn graph_text(alloc: Global, parts: u32, d: V3, g: &Graph) -> Result<Bytes, OutOfMemory>
    requires { parts ≤ MOST_PARTS }
    ensures { IfOk result (IsGraphText parts d g.now.rows) }
{
    let groups = strong_parts(g, PartSet::first(parts));
    let mut text = along_line(alloc, d)?.into_bytes();
    push_arcs_among(&mut text, g, parts, ArcForm::Line)?;
    push_groups(alloc, &mut text, &groups.of[..groups.count as usize])?;
    Ok(Bytes::from_vec(text))
}
