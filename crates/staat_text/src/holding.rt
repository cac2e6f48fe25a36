// A text that may be too long: its length, and its bytes as long as it is not.
ghost use Rattle.std.specs.Prelude.{◌≡◌, ◌<◌, ◌+◌, ◌^◌, IfOk, length};
ghost use Rattle.staat_text.specs.Holding.{HoldsMore};

use staat_limits::TEXT_LIMIT;
use std::alloc::AllocError;

/// The length of a text, and its bytes as long as they are at most [`TEXT_LIMIT`].
#[derive(Drop)]
pub(crate) struct HeldText {
    pub(crate) bytes: Vec<u8>,
    pub(crate) length: u128,
}

/// Adds a line.
pub(crate) fn hold(held: &mut HeldText, line: &[u8]) -> Result<(), AllocError>
    requires { held.old.length < 2 ^ 127 }
    ensures more { IfOk result (λ _. HoldsMore held.old held.new line.now) }
    ensures long { IfOk result (λ _. held.new.length ≡ held.old.length + length line.now) }
{
    held.length += line.len() as u128;
    if held.length <= TEXT_LIMIT {
        held.bytes.extend_from_slice(line)?;
    }
    Ok(())
}
