// What is kept of the files for a drawing.
ghost use Rattle.std.specs.Prelude.{◌≡◌, ◌+◌, ◌<◌, [], ◌∷◌, ℕ, OnOk};
ghost use Rattle.staat_vec.specs.declared.vector.TheConstants.{POINT};
ghost use Rattle.staat_vec.specs.Vectors.{IsWithin};
ghost use Rattle.staat_off.specs.Raws.{IsCounted, IsIndexed};
ghost use Rattle.staat_input.specs.Drawing.{AreSmall, Drew};

use staat_explode::Solid;
use staat_off::Raw;
use staat_vec::V3;
use std::alloc::{AllocError, Global};

/// The solids of a drawing, one for each piece in the order in which their files are read; none are kept where no
/// drawing is made.
#[derive(Drop)]
pub struct Sketch {
    pub keep: bool,
    pub solids: Vec<Solid>,
}

impl Sketch {
    /// A sketch without solids, which keeps those that it is given or does not.
    pub fn new(alloc: Global, keep: bool) -> Sketch
        ensures keep { result.keep ≡ keep }
        ensures solids { result.solids.items ≡ [] }
    {
        Sketch {
            keep,
            solids: Vec::new(alloc),
        }
    }

    /// Keeps the solid of a piece, if solids are kept.
    pub fn add(&mut self, part: u32, at: V3, raw: Raw) -> Result<(), AllocError>
        requires at { IsWithin POINT at }
        requires indexed { IsIndexed raw }
        requires counted { IsCounted raw }
        ensures drew { OnOk result (Drew self.old self.new (record { part = part; at = at; raw = raw } ∷ [])) }
        ensures small { (parts most : ℕ) → part < parts → AreSmall parts most self.old.solids.items →
            OnOk result (AreSmall parts (most + 1) self.new.solids.items) }
    {
        if self.keep {
            self.solids.push(Solid { part, at, raw })?;
        }
        Ok(())
    }
}
