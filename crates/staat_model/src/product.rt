// Products: lists of parts that stand together.
ghost use Rattle.std.specs.Prelude.{◌≡◌, ◌<◌, ◌≤◌, Some, length};
ghost use Rattle.staat_model.specs.Assemblies.{IsProduct, IsSound, name_at, piece_at, piece_count};

use crate::assembly::{Part, Parts};
use crate::piece::Piece;
use staat_limits::{MOST_PRODUCT_PARTS, MOST_PRODUCT_PIECES};
use std::marker::Model;

/// Parts that stand together, seen as their list. Parts and pieces are numbered from 0.
///
/// There are 1 to [`MOST_PRODUCT_PARTS`] parts with at most [`MOST_PRODUCT_PIECES`] pieces in all. A product of few
/// parts and pieces is an [`Assembly`](crate::Assembly).
#[derive(Drop)]
pub struct Product {
    parts: Parts,
}

impl Model for Product {
    ghost use Rattle.std.specs.Prelude.{List};
    ghost use Rattle.staat_model.specs.declared.assembly.Part.{Part};
    ghost use Rattle.staat_model.specs.Assemblies.{IsProduct};

    ghost Value = { List Part };

    ghost view = { λ a. a.parts };

    ghost invariant = { λ a. IsProduct a.parts };
}

impl Product {
    /// The product of these parts. It takes no memory.
    pub fn seal(parts: Parts) -> Product
        requires { IsProduct parts }
        ensures { result ≡ parts }
    {
        Product { parts }
    }

    /// The parts in their order.
    pub fn as_slice(&self) -> &[Part]
        ensures parts { result.now ≡ self.now }
        ensures product { IsProduct self.now }
    {
        self.parts.as_slice()
    }

    /// The number of parts.
    pub fn parts(&self) -> u32
        ensures count { result ≡ length self.now }
        ensures product { IsProduct self.now }
    {
        self.parts.as_slice().len() as u32
    }

    /// The number of pieces of the part `a`.
    pub fn pieces(&self, a: u32) -> u32
        requires { a < length self.now }
        ensures count { result ≡ piece_count self.now a }
        ensures most { result ≤ MOST_PRODUCT_PIECES }
    {
        self.parts.as_slice()[a as usize].pieces.as_slice().len() as u32
    }

    /// The piece `i` of the part `a`.
    pub fn piece(&self, a: u32, i: u32) -> &Piece
        requires part { a < length self.now }
        requires piece { i < piece_count self.now a }
        ensures { piece_at self.now a i ≡ Some result.now }
    {
        let part = &self.parts.as_slice()[a as usize];
        &part.pieces.as_slice()[i as usize]
    }

    /// The name of the part `a`.
    pub fn name(&self, a: u32) -> &str
        requires { a < length self.now }
        ensures { name_at self.now a ≡ Some result.now }
    {
        self.parts.as_slice()[a as usize].name.as_str()
    }
}

/// A product in which no pieces of different parts overlap, seen as its list of parts.
#[derive(Drop)]
pub struct SoundProduct {
    product: Product,
}

impl Model for SoundProduct {
    ghost use Rattle.std.specs.Prelude.{List};
    ghost use Rattle.staat_model.specs.declared.assembly.Part.{Part};
    ghost use Rattle.staat_model.specs.Assemblies.{IsSound};

    ghost Value = { List Part };

    ghost view = { λ a. a.product };

    ghost invariant = { λ a. IsSound a.product };
}

impl SoundProduct {
    /// The product, of which it is known that it is sound. It takes no memory.
    pub fn seal(a: Product) -> SoundProduct
        requires { IsSound a }
        ensures { result ≡ a }
    {
        SoundProduct { product: a }
    }

    /// The product.
    pub fn product(&self) -> &Product
        ensures product { result.now ≡ self.now }
        ensures sound { IsSound self.now }
    {
        &self.product
    }
}
