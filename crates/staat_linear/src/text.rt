// The text of an order, or of a set that is locked.
ghost use Rattle.std.specs.Prelude.{◌≡◌, ◌++◌, IfOk, flat_map, string_bytes};
ghost use Rattle.staat_linear.specs.OrderTexts.{last_line, locked_line, order_text, take_line};

use crate::order::{Leave, Order};
use staat_model::PartSet;
use staat_text::parts_listed;
use staat_vec::{Bytes, OutOfMemory, V3};
use std::alloc::{AllocError, Global};

// The line of a step.
fn take_line(alloc: Global, leave: &Leave) -> Result<String, AllocError>
    ensures { IfOk result (λ s. string_bytes s ≡ take_line leave.now) }
{
    let part = leave.part;
    let V3 { x, y, z } = leave.d;
    format!(in alloc; "take {part} along {x} {y} {z}\n")
}

// The line of the part that is left.
fn last_line(alloc: Global, last: u32) -> Result<String, AllocError>
    ensures { IfOk result (λ s. string_bytes s ≡ last_line last) }
{
    format!(in alloc; "last {last}\n")
}

// The line of a set that is locked.
fn locked_line(alloc: Global, w: PartSet) -> Result<Vec<u8>, AllocError>
    ensures { IfOk result (λ line. line.items ≡ locked_line w) }
{
    let parts = parts_listed(alloc, w)?;
    let mut line = b"locked".to_vec(alloc)?;
    line.extend_from_slice(parts.as_slice())?;
    line.extend_from_slice(b"\n")?;
    Ok(line)
}

// The lines of the steps, and of the part that is left.
fn whole_text(alloc: Global, leaves: &[Leave], last: u32) -> Result<Vec<u8>, AllocError>
    ensures { IfOk result (λ text. text.items ≡ flat_map take_line leaves.now ++ last_line last) }
{
    let mut text = Vec::new(alloc);
    for leave in leaves {
        let line = take_line(alloc, leave)?;
        text.extend_from_slice(line.as_bytes())?;
    }
    let line = last_line(alloc, last)?;
    text.extend_from_slice(line.as_bytes())?;
    Ok(text)
}

/// The text of an order: a line `take P along X Y Z` for each step, and the line `last P`; or the line `locked P ..`.
pub fn linear_text(alloc: Global, order: &Order) -> Result<Bytes, OutOfMemory>
    ensures { IfOk result (λ text. text ≡ order_text order.now) }
{
    let text = match order {
        Order::Whole { leaves, last } => whole_text(alloc, leaves.as_slice(), *last)?,
        Order::Locked(w) => locked_line(alloc, *w)?,
    };
    Ok(Bytes::from_vec(text))
}
