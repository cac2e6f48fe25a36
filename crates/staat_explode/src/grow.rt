// Vectors that grow by a multiple of a direction, up to a bound.
ghost use Rattle.std.specs.Prelude.{◌≡◌, ◌<◌, ◌≤◌, ◌^◌, ◌+ℤ◌, ◌*ℤ◌, pos, unsigned_abs, MatchOption};
ghost use Rattle.staat_vec.specs.Vectors.{IsWithin, plus, times};

use staat_vec::V3;

/// How great a component of a part's vector may be.
pub const FARTHEST: u128 = 1 << 100;

// v + m * step, where that is within the bound.
fn grown(v: i128, m: u128, step: i128) -> Option<i128>
    requires v { unsigned_abs v ≤ FARTHEST }
    requires m { m < 2 ^ 127 }
    ensures { MatchOption result
        (FARTHEST < unsigned_abs (v +ℤ (pos m *ℤ step)))
        (λ z. (z ≡ v +ℤ (pos m *ℤ step)) × (unsigned_abs z ≤ FARTHEST)) }
{
    let sum = (m as i128).checked_mul(step)?.checked_add(v)?;
    if sum.unsigned_abs() <= FARTHEST {
        Some(sum)
    } else {
        None
    }
}

/// v + m * d, where that is within the bound.
pub(crate) fn grown_vector(v: V3, m: u128, d: V3) -> Option<V3>
    requires v { IsWithin FARTHEST v }
    requires m { m < 2 ^ 127 }
    ensures { MatchOption result
        (IsWithin FARTHEST (plus v (times m d)) → ⊥)
        (λ w. (w ≡ plus v (times m d)) × IsWithin FARTHEST w) }
{
    match (grown(v.x, m, d.x), grown(v.y, m, d.y), grown(v.z, m, d.z)) {
        (Some(x), Some(y), Some(z)) => Some(V3 { x, y, z }),
        _ => None,
    }
}
