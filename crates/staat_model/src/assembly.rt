// Assemblies of parts.
ghost use Rattle.std.specs.Prelude.{◌≡◌, ◌<◌, ◌≤◌, Some, length};
ghost use Rattle.staat_model.specs.Assemblies.{IsAssembly, IsSound, name_at, piece_at, piece_count};

use crate::piece::{Piece, Pieces};
use crate::product::Product;
use staat_limits::{MOST_PARTS, MOST_PIECES};
use staat_vec::{Listed, Name};
use std::marker::Model;

/// A part: a name, and the pieces whose union it is. It has at least one piece.
#[derive(Drop)]
pub struct Part {
    pub name: Name,
    pub pieces: Pieces,
}

/// A list of parts.
pub type Parts = Listed<Part>;

/// A product of few parts, seen as their list. Parts and pieces are numbered from 0.
///
/// There are 1 to [`MOST_PARTS`] parts with at most [`MOST_PIECES`] pieces in all.
#[derive(Drop)]
pub struct Assembly {
    product: Product,
}

impl Model for Assembly {
    ghost use Rattle.std.specs.Prelude.{List};
    ghost use Rattle.staat_model.specs.declared.assembly.Part.{Part};
    ghost use Rattle.staat_model.specs.Assemblies.{IsAssembly};

    ghost Value = { List Part };

    ghost view = { λ a. a.product };

    ghost invariant = { λ a. IsAssembly a.product };
}

impl Assembly {
    /// The assembly of these parts. It takes no memory.
    pub fn seal(parts: Parts) -> Assembly
        requires { IsAssembly parts }
        ensures { result ≡ parts }
    {
        Assembly {
            product: Product::seal(parts),
        }
    }

    /// The parts as a product.
    pub fn product(&self) -> &Product
        ensures product { result.now ≡ self.now }
        ensures assembly { IsAssembly self.now }
    {
        &self.product
    }

    /// The number of parts.
    pub fn parts(&self) -> u32
        ensures count { result ≡ length self.now }
        ensures assembly { IsAssembly self.now }
    {
        self.product.parts()
    }

    /// The number of pieces of the part `a`.
    pub fn pieces(&self, a: u32) -> u32
        requires { a < length self.now }
        ensures count { result ≡ piece_count self.now a }
        ensures most { result ≤ MOST_PIECES }
    {
        self.product.pieces(a)
    }

    /// The piece `i` of the part `a`.
    pub fn piece(&self, a: u32, i: u32) -> &Piece
        requires part { a < length self.now }
        requires piece { i < piece_count self.now a }
        ensures { piece_at self.now a i ≡ Some result.now }
    {
        self.product.piece(a, i)
    }

    /// The name of the part `a`.
    pub fn name(&self, a: u32) -> &str
        requires { a < length self.now }
        ensures { name_at self.now a ≡ Some result.now }
    {
        self.product.name(a)
    }
}

/// An assembly in which no pieces of different parts overlap, seen as its list of parts.
#[derive(Drop)]
pub struct Sound {
    assembly: Assembly,
}

impl Model for Sound {
    ghost use Rattle.std.specs.Prelude.{List};
    ghost use Rattle.staat_model.specs.declared.assembly.Part.{Part};
    ghost use Rattle.staat_model.specs.Assemblies.{IsSound};

    ghost Value = { List Part };

    ghost view = { λ a. a.assembly };

    ghost invariant = { λ a. IsSound a.assembly };
}

impl Sound {
    /// The assembly, of which it is known that it is sound. It takes no memory.
    pub fn seal(a: Assembly) -> Sound
        requires { IsSound a }
        ensures { result ≡ a }
    {
        Sound { assembly: a }
    }

    /// The assembly.
    pub fn assembly(&self) -> &Assembly
        ensures assembly { result.now ≡ self.now }
        ensures sound { IsSound self.now }
    {
        &self.assembly
    }
}
