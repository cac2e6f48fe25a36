// The list types of every crate: a list over one `Vec`, which contracts see as that list.
ghost use Rattle.std.specs.Prelude.{◌≡◌, IfOk, List, ℕ, string_bytes};

use std::alloc::{AllocError, Global};
use std::marker::Model;

/// A list, which contracts see as such.
#[derive(Drop)]
pub struct Listed<T> {
    items: Vec<T>,
}

impl<T> Model for Listed<T> {
    ghost use Rattle.std.specs.Prelude.{List};

    ghost Value = { List T };

    ghost view = { λ a. a.items.items };
}

impl<T> Listed<T> {
    /// The list of the members of `v`, in their order. It takes no memory.
    pub fn from_vec(v: Vec<T>) -> Self
        ensures { result ≡ v.items }
    {
        Listed { items: v }
    }

    /// The members.
    pub fn as_slice(&self) -> &[T]
        ensures { result.now ≡ self.now }
    {
        self.items.as_slice()
    }

    /// The members, in their order, to be changed. It takes no memory.
    pub fn into_vec(self) -> Vec<T>
        ensures { result.items ≡ self }
    {
        self.items
    }
}

/// A list of bytes.
pub type Bytes = Listed<u8>;

/// A list of names.
pub type Names = Listed<Name>;

/// A text that names a file or a part, seen as its bytes.
#[derive(Drop)]
pub struct Name {
    text: String,
}

impl Model for Name {
    ghost use Rattle.std.specs.Prelude.{List, ℕ, string_bytes};

    ghost Value = { List ℕ };

    ghost view = { λ a. string_bytes a.text };
}

impl Name {
    /// The name with this text. It takes no memory.
    pub fn from_string(s: String) -> Name
        ensures { result ≡ string_bytes s }
    {
        Name { text: s }
    }

    /// The name with a copy of this text.
    pub fn from_text(alloc: Global, text: &str) -> Result<Name, AllocError>
        ensures { IfOk result (λ name. name ≡ text.now) }
    {
        Ok(Name::from_string(String::from_str(alloc, text)?))
    }

    /// A copy of the name.
    pub fn copied(&self, alloc: Global) -> Result<Name, AllocError>
        ensures { IfOk result (λ copy. copy ≡ self.now) }
    {
        Name::from_text(alloc, self.as_str())
    }

    /// The text.
    pub fn as_str(&self) -> &str
        ensures { result.now ≡ self.now }
    {
        self.text.as_str()
    }
}
