// A direction that is multiplied with many normals.
ghost use Rattle.std.specs.Prelude.{◌≡◌};
ghost use Rattle.staat_vec.specs.Vectors.{IsWithin, dot, sign};

use crate::products::{dot, sign_dot};
use crate::vector::{DIRECTION, NORMAL, Sign, V3};
use crate::words::{SMALL, is_within, small_dot, small_sign};
use std::marker::Model;

/// A direction, and whether it is small, so that words hold its products with normals. Most directions are; these
/// products take a fourth of the time.
#[derive(Drop)]
pub struct Course {
    d: V3,
    small: bool,
}

impl Model for Course {
    ghost use Rattle.std.specs.Prelude.{IsTrue};
    ghost use Rattle.staat_vec.specs.declared.vector.V3.{V3};
    ghost use Rattle.staat_vec.specs.declared.vector.TheConstants.{DIRECTION};
    ghost use Rattle.staat_vec.specs.declared.words.TheConstants.{SMALL};
    ghost use Rattle.staat_vec.specs.Vectors.{IsWithin};

    ghost Value = { V3 };

    ghost view = { λ c. c.d };

    ghost invariant = { λ c. IsWithin DIRECTION c.d × (IsTrue c.small → IsWithin SMALL c.d) };
}

// the exact product of a normal and a small direction
fn long_dot(n: V3, d: V3) -> i128
    requires n { IsWithin NORMAL n }
    requires d { IsWithin SMALL d }
    ensures { result ≡ dot n d }
{
    small_dot(n, d) as i128
}

impl Course {
    /// The direction, whose components are at most [`DIRECTION`] in absolute value.
    pub fn of(d: V3) -> Course
        requires { IsWithin DIRECTION d }
        ensures { result ≡ d }
    {
        Course {
            d,
            small: is_within(d, SMALL),
        }
    }

    /// The product of a normal and the direction, exact. Each component of `n` is at most [`NORMAL`] in absolute
    /// value.
    pub fn dot(&self, n: V3) -> i128
        requires { IsWithin NORMAL n }
        ensures { result ≡ dot n self.now }
    {
        if self.small {
            long_dot(n, self.d)
        } else {
            dot(n, self.d)
        }
    }

    /// The sign of that product.
    pub fn sign(&self, n: V3) -> Sign
        requires { IsWithin NORMAL n }
        ensures { result ≡ sign (dot n self.now) }
    {
        if self.small {
            small_sign(n, self.d)
        } else {
            sign_dot(n, self.d)
        }
    }
}
