// Pieces that are moved by a vector.
ghost use Rattle.std.specs.Prelude.{◌≡◌, ◌↔◌, All, IsTrue, MatchResult};
ghost use Rattle.staat_vec.specs.Vectors.{IsWithin, plus};
ghost use Rattle.staat_asm.specs.Placing.{IsPlaceRefusal, IsPlaced, IsPlacedFar, IsTooFar, shifted};

use staat_model::{Piece, Points};
use staat_vec::{ORIGIN, OutOfMemory, POINT, V3, add, is_same};
use std::alloc::Global;
use thiserror::Error;

/// Why a piece was not moved.
#[derive(Clone, Copy, Debug, PartialEq, Eq, Error)]
pub enum PlaceRefusal {
    /// A component of a moved point exceeds [`POINT`] in absolute value.
    #[error("placed too far")]
    PlacedFar,
    /// There was no memory.
    #[error("out of memory")]
    OutOfMemory,
}

impl From<OutOfMemory> for PlaceRefusal {
    ghost use Rattle.std.specs.Prelude.{◌≡◌};
    ghost use Rattle.staat_asm.specs.declared.placing.PlaceRefusal.TheVariants.{OutOfMemory};

    ghost from_gives = { λ _ e. e ≡ OutOfMemory };

    fn from(_: OutOfMemory) -> Self {
        PlaceRefusal::OutOfMemory
    }
}

// a point plus the vector
fn moved(p: V3, at: V3) -> V3
    requires point { IsWithin POINT p }
    requires vector { IsWithin POINT at }
    ensures { result ≡ plus p at }
{
    add(p, at)
}

// whether no component of the point is too great
fn is_within(p: V3) -> bool
    ensures { IsTrue result ↔ IsWithin POINT p }
{
    p.x.unsigned_abs() <= POINT && p.y.unsigned_abs() <= POINT && p.z.unsigned_abs() <= POINT
}

// whether the moved point is too far out
fn is_too_far(p: V3, at: V3) -> bool
    requires point { IsWithin POINT p }
    requires vector { IsWithin POINT at }
    ensures { IsTrue result ↔ IsTooFar at p }
{
    !is_within(moved(p, at))
}

// whether one of the moved points is
fn is_placed_far(points: &[V3], at: V3) -> bool
    requires points { All (IsWithin POINT) points.now }
    requires vector { IsWithin POINT at }
    ensures { IsTrue result ↔ IsPlacedFar at points.now }
{
    points.iter().any(|p| is_too_far(*p, at))
}

// moves each point
fn shift(mut points: Vec<V3>, at: V3) -> Vec<V3>
    requires points { All (IsWithin POINT) points.items }
    requires vector { IsWithin POINT at }
    ensures { result.items ≡ shifted at points.items }
{
    for k in 0..points.len() {
        points[k] = moved(points[k], at);
    }
    points
}

/// The piece moved by `at`: each of its points plus `at`, in the same order.
///
/// The components of `at` are at most [`POINT`] in absolute value. [`PlacedFar`](PlaceRefusal::PlacedFar) comes
/// exactly where a component of a moved point exceeds it. The piece is consumed, also by a refusal; its points are
/// moved where they stand, so that no memory is taken.
pub fn place(_alloc: Global, p: Piece, at: V3) -> Result<Piece, PlaceRefusal>
    requires { IsWithin POINT at }
    ensures { MatchResult result (IsPlaced at p) (IsPlaceRefusal at p) }
{
    if is_same(at, ORIGIN) {
        // its rules are known
        let _points = p.points();
        return Ok(p);
    }
    if is_placed_far(p.points(), at) {
        return Err(PlaceRefusal::PlacedFar);
    }
    let points = shift(p.into_points().into_vec(), at);
    Ok(Piece::seal(Points::from_vec(points)))
}
