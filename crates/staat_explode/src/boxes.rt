// The boxes round parts.
ghost use Rattle.std.specs.Prelude.{◌≡◌, ◌<◌, ◌≤◌, ℕ, All, IfOk, length, unsigned_abs};
ghost use Rattle.std.specs.List.{fold};
ghost use Rattle.staat_explode.specs.Boxes.{box_of, boxes_of, corner, covering, further, points_at};
ghost use Rattle.staat_explode.specs.Sizes.{AreBounds};

use staat_model::Assembly;
use staat_vec::V3;
use std::alloc::{AllocError, Global};

/// A box, by the least and the greatest number of its points in each component.
#[derive(Clone, Copy)]
pub struct Bounds {
    pub low: V3,
    pub high: V3,
}

/// An end of a box: the least numbers of its points, or the greatest.
#[derive(Clone, Copy)]
pub enum End {
    Low,
    High,
}

// The number that lies further to the end.
pub(crate) fn further(end: End, a: i128, b: i128) -> i128
    ensures value { result ≡ further end a b }
    ensures size { (bound : ℕ) → unsigned_abs a ≤ bound → unsigned_abs b ≤ bound → unsigned_abs result ≤ bound }
{
    match end {
        End::Low => a.min(b),
        End::High => a.max(b),
    }
}

// The corner with the number that lies further to the end in each component.
fn corner(end: End, a: V3, b: V3) -> V3
    ensures { result ≡ corner end a b }
{
    V3 {
        x: further(end, a.x, b.x),
        y: further(end, a.y, b.y),
        z: further(end, a.z, b.z),
    }
}

// The box that covers a box and a point.
fn covering(b: Bounds, p: V3) -> Bounds
    ensures { result ≡ covering b p }
{
    Bounds {
        low: corner(End::Low, b.low, p),
        high: corner(End::High, b.high, p),
    }
}

// The box that covers a box and points.
fn covering_all(b: Bounds, points: &[V3]) -> Bounds
    ensures { result ≡ fold covering b points.now }
{
    let mut bounds = b;
    for p in points {
        bounds = covering(bounds, *p);
    }
    bounds
}

// The box of the part a.
fn box_of(assembly: &Assembly, a: u32) -> Bounds
    requires { a < length assembly.now }
    ensures value { result ≡ box_of (points_at assembly.now a) }
    ensures size { AreBounds result }
{
    let _parts = assembly.parts();
    let first = assembly.piece(a, 0).points()[0];
    let mut bounds = Bounds {
        low: first,
        high: first,
    };
    for i in 0..assembly.pieces(a) {
        bounds = covering_all(bounds, assembly.piece(a, i).points());
    }
    bounds
}

/// The boxes of the parts.
pub(crate) fn boxes_of(alloc: Global, assembly: &Assembly) -> Result<Vec<Bounds>, AllocError>
    ensures boxes { IfOk result (λ boxes. boxes.items ≡ boxes_of assembly.now) }
    ensures size { IfOk result (λ boxes. All AreBounds boxes.items) }
{
    let mut boxes = Vec::new(alloc);
    for a in 0..assembly.parts() {
        boxes.push(box_of(assembly, a))?;
    }
    Ok(boxes)
}
