// What a part list says, copied from the JSON value.
ghost use Rattle.std.specs.Prelude.{◌≡◌, IfOk};

use staat_vec::{Listed, Name, Names, V3};
use std::alloc::{AllocError, Global};

/// A part as a part list names it.
#[derive(Drop)]
pub struct ListedPart {
    /// The part's name: 1 to 255 bytes, none of them below 32.
    pub name: Name,
    /// The names of its pieces' files, at least one.
    pub pieces: Names,
    /// The vector by which all its pieces are moved, in scaled units; components are at most [`staat_vec::POINT`].
    pub at: V3,
}

/// The parts of a product in their order.
pub type Listing = Listed<ListedPart>;

pub(crate) fn name_of(alloc: Global, text: &str) -> Result<Name, AllocError>
    ensures { IfOk result (λ name. name ≡ text.now) }
{
    Ok(Name::from_string(String::from_str(alloc, text)?))
}
