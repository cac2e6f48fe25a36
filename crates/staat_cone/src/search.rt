// The search for a wall between two pieces. It takes no memory.
ghost use Rattle.std.specs.Prelude.{◌≡◌, ◌≤◌, ◌*◌, ◌+◌, ◌*ℤ◌, ℕ, length, All, IsTrue, unsigned_abs};
ghost use Rattle.staat_vec.specs.declared.vector.V3.{V3 as Vector};
ghost use Rattle.staat_vec.specs.Vectors.{IsWithin, vector};
ghost use Rattle.staat_cone.specs.AxisWalls.{IsWallBetween};

use crate::behind::violator;
use crate::walls::{is_wall, points_of};
use staat_limits::MOST_POINTS;
use staat_model::Piece;
use staat_vec::{DIFF, NORMAL, ORIGIN, POINT, V3, add, neg};

// how often a normal is tested, and corrected where something lies behind it
const CORRECTIONS: u32 = 16;

// how many times the difference that lies behind it is added to the first normal
const WEIGHT: i128 = 1 << 12;

// how great a component of the first normal is at most, and how much a correction adds to it at most
const STEP: u128 = 1 << 31;

// the sum of the points
fn sum_of(points: &[V3]) -> V3
    requires few { length points.now ≤ MOST_POINTS }
    requires points { All (IsWithin POINT) points.now }
    ensures { IsWithin (MOST_POINTS * POINT) result }
{
    let mut sum = ORIGIN;
    for p in points {
        sum = add(sum, *p);
    }
    sum
}

// the number of the points
fn count_of(points: &[V3]) -> i128
    requires { length points.now ≤ MOST_POINTS }
    ensures { unsigned_abs result ≤ MOST_POINTS }
{
    points.len() as i128
}

// the sum of the points as many times as there are others
fn weighted(points: &[V3], others: &[V3]) -> V3
    requires few { length points.now ≤ MOST_POINTS }
    requires points { All (IsWithin POINT) points.now }
    requires others { length others.now ≤ MOST_POINTS }
    ensures { IsWithin (MOST_POINTS * POINT * MOST_POINTS) result }
{
    multiple(sum_of(points), count_of(others))
}

// the exact product of a component and a factor
fn scaled(a: i128, factor: i128) -> i128
    requires a { unsigned_abs a ≤ NORMAL }
    requires factor { unsigned_abs factor ≤ DIFF }
    ensures { result ≡ a *ℤ factor }
{
    a * factor
}

// a multiple of a vector, exact
fn multiple(v: V3, factor: i128) -> V3
    requires vector { IsWithin NORMAL v }
    requires factor { unsigned_abs factor ≤ DIFF }
    ensures { result ≡ vector (v.x *ℤ factor) (v.y *ℤ factor) (v.z *ℤ factor) }
{
    V3 {
        x: scaled(v.x, factor),
        y: scaled(v.y, factor),
        z: scaled(v.z, factor),
    }
}

// what leads from the centre of p to that of q, times the numbers of their points
fn from_centre_to_centre(p: &Piece, q: &Piece) -> V3
    ensures { IsWithin STEP result }
{
    let ps = points_of(p);
    let qs = points_of(q);
    add(weighted(qs, ps), neg(weighted(ps, qs)))
}

// the normal, turned to the difference v
fn corrected(n: V3, v: V3, weight: i128) -> V3
    requires normal { IsWithin NORMAL n }
    requires difference { IsWithin DIFF v }
    requires weight { unsigned_abs weight ≤ unsigned_abs WEIGHT }
    ensures { (bound : ℕ) → IsWithin bound n → IsWithin (bound + STEP) result }
{
    add(n, multiple(v, weight))
}

// half the weight after every second correction
fn eased(weight: i128, round: u32) -> i128
    requires { unsigned_abs weight ≤ unsigned_abs WEIGHT }
    ensures { unsigned_abs result ≤ unsigned_abs WEIGHT }
{
    if round % 2 == 0 { weight } else { weight / 2 }
}

/// Whether a wall between the pieces is found in few steps.
///
/// The search begins with the line from centre to centre, and turns the normal to the difference that lies farthest
/// behind it (Rosenblatt, 1958), less as it goes on.
pub fn finds_wall(p: &Piece, q: &Piece) -> bool
    ensures { IsTrue result → (n : Vector) × IsWallBetween p.now q.now n }
{
    let mut n = from_centre_to_centre(p, q);
    let mut weight = WEIGHT;
    for round in 0..CORRECTIONS {
        let Some(v) = violator(n, p, q) else {
            return is_wall(n);
        };
        n = corrected(n, v, weight);
        weight = eased(weight, round);
    }
    false
}
