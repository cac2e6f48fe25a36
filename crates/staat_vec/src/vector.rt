// Vectors of whole numbers, and how great their components may be.
ghost use Rattle.std.specs.Prelude.{◌≡◌, ◌↔◌, IsTrue};

/// How great a coordinate may be in absolute value, in scaled whole units.
pub const POINT: u128 = 1 << 18;

/// How great a component of a difference of two points is at most.
pub const DIFF: u128 = 1 << 19;

/// How great a component of a facet's normal may be.
pub const NORMAL: u128 = 1 << 39;

/// How great a component of a vertex of the planes of directions is at most.
pub const VERTEX: u128 = 1 << 79;

/// How great a component of an edge's representative is at most.
pub const EDGE: u128 = 1 << 80;

/// How great a component of a direction may be.
pub const DIRECTION: u128 = 1 << 81;

/// A vector of three whole components. Vectors are ordered by x, then y, then z.
#[derive(Clone, Copy, Debug, PartialEq, Eq, PartialOrd, Ord)]
pub struct V3 {
    pub x: i128,
    pub y: i128,
    pub z: i128,
}

/// The zero vector.
pub const ORIGIN: V3 = V3 { x: 0, y: 0, z: 0 };

/// The direction of the first axis.
pub const X_AXIS: V3 = V3 { x: 1, y: 0, z: 0 };

/// The direction of the second axis.
pub const Y_AXIS: V3 = V3 { x: 0, y: 1, z: 0 };

/// The direction of the third axis.
pub const Z_AXIS: V3 = V3 { x: 0, y: 0, z: 1 };

/// Whether two vectors are one.
pub fn is_same(a: V3, b: V3) -> bool
    ensures { IsTrue result ↔ (a ≡ b) }
{
    a == b
}

/// The sign of a number, in the order of the numbers.
#[derive(Clone, Copy, Debug, PartialEq, Eq, PartialOrd, Ord)]
pub enum Sign {
    Neg,
    Zero,
    Pos,
}
