// Normals, in words of 64 bits.
ghost use Rattle.std.specs.Prelude.{◌≡◌};
ghost use Rattle.staat_vec.specs.Vectors.{IsWithin};

use crate::vector::{NORMAL, V3};
use std::marker::Model;

/// A vector whose components are at most [`NORMAL`] in absolute value, as those of facets and planes are, seen as that
/// vector. It takes half the memory of a [`V3`]. Normals are ordered as vectors are.
#[derive(Clone, Copy, Debug, PartialEq, Eq, PartialOrd, Ord)]
pub struct Normal {
    pub(crate) x: i64,
    pub(crate) y: i64,
    pub(crate) z: i64,
}

impl Model for Normal {
    ghost use Rattle.staat_vec.specs.declared.vector.V3.{V3};
    ghost use Rattle.staat_vec.specs.declared.vector.TheConstants.{NORMAL};
    ghost use Rattle.staat_vec.specs.Vectors.{IsWithin};

    ghost Value = { V3 };

    ghost view = { λ n. record { x = n.x; y = n.y; z = n.z } };

    ghost invariant = { λ n. IsWithin NORMAL (record { x = n.x; y = n.y; z = n.z }) };

    ghost inverse = { λ v. record { x = v.x; y = v.y; z = v.z } };
}

impl Normal {
    /// The vector `v`, whose components are at most [`NORMAL`] in absolute value.
    pub fn of(v: V3) -> Normal
        requires { IsWithin NORMAL v }
        ensures { result ≡ v }
    {
        Normal {
            x: v.x as i64,
            y: v.y as i64,
            z: v.z as i64,
        }
    }

    /// The vector.
    pub fn vector(&self) -> V3
        ensures is { result ≡ self.now }
        ensures within { IsWithin NORMAL result }
    {
        V3 {
            x: i128::from(self.x),
            y: i128::from(self.y),
            z: i128::from(self.z),
        }
    }
}
