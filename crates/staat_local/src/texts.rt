// The text of a side that begins to move, or of a set that has none.
ghost use Rattle.std.specs.Prelude.{◌≡◌, IfOk, IfSome, None, Some};
ghost use Rattle.staat_model.specs.Sets.{IsNonempty, IsSide};
ghost use Rattle.staat_local.specs.LocalTexts.{held_word, local_text};

use crate::side::Loose;
use staat_model::PartSet;
use staat_text::{direction_text, parts_listed};
use staat_vec::{Bytes, OutOfMemory};
use std::alloc::{AllocError, Global};

// The line of a side that begins to move.
fn loose_line(alloc: Global, of: PartSet, loose: &Loose) -> Result<Vec<u8>, AllocError>
    ensures { IfOk result (λ line. line.items ≡ local_text of (Some loose.now)) }
{
    let side = parts_listed(alloc, loose.side)?;
    let along = direction_text(alloc, loose.d)?;
    let rest = parts_listed(alloc, of.without(loose.side))?;
    let mut line = b"loose".to_vec(alloc)?;
    line.extend_from_slice(side.as_slice())?;
    line.extend_from_slice(along.as_bytes())?;
    line.extend_from_slice(rest.as_slice())?;
    line.extend_from_slice(b"\n")?;
    Ok(line)
}

// The word for a set no side of which begins to move.
fn held_word(of: PartSet) -> &'static [u8]
    ensures { result.now ≡ held_word of }
{
    if of.count() < 2 { b"single" } else { b"tight" }
}

// The line of such a set.
fn held_line(alloc: Global, of: PartSet) -> Result<Vec<u8>, AllocError>
    ensures { IfOk result (λ line. line.items ≡ local_text of None) }
{
    let parts = parts_listed(alloc, of)?;
    let mut line = held_word(of).to_vec(alloc)?;
    line.extend_from_slice(parts.as_slice())?;
    line.extend_from_slice(b"\n")?;
    Ok(line)
}

/// The line `loose P .. along X Y Z away from Q ..` for a side of `of` that begins to move. For none it is
/// `tight P ..`, or `single P` where `of` has one part.
///
/// `of` is not empty, and the side is neither empty nor all of it.
pub fn local_text(alloc: Global, of: PartSet, found: &Option<Loose>) -> Result<Bytes, OutOfMemory>
    requires some { IsNonempty of }
    requires side { IfSome found.now (λ loose. IsSide of loose.side) }
    ensures { IfOk result (λ text. text ≡ local_text of found.now) }
{
    let line = match found {
        Some(loose) => loose_line(alloc, of, loose)?,
        None => held_line(alloc, of)?,
    };
    Ok(Bytes::from_vec(line))
}
