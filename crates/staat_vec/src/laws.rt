//! Laws over the definitions. Each is a function that does nothing, and its contract is the law.
ghost use Rattle.std.specs.Prelude.{◌≡◌, ◌^◌};
ghost use Rattle.staat_vec.specs.Vectors.{origin as zero_vector};

use crate::vector::{DIFF, DIRECTION, EDGE, NORMAL, ORIGIN, POINT, VERTEX};

/// How great the components of vectors may be, as numbers, and the zero vector.
pub fn constants()
    ensures point { POINT ≡ 2 ^ 18 }
    ensures difference { DIFF ≡ 2 ^ 19 }
    ensures normal { NORMAL ≡ 2 ^ 39 }
    ensures vertex { VERTEX ≡ 2 ^ 79 }
    ensures edge { EDGE ≡ 2 ^ 80 }
    ensures direction { DIRECTION ≡ 2 ^ 81 }
    ensures origin { ORIGIN ≡ zero_vector }
{}
