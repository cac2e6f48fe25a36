// Vectors as words spell them.
ghost use Rattle.std.specs.Prelude.{◌≡◌, ◌≢◌, ◌^◌, ◌<◌, IfSome, option_map};
ghost use Rattle.staat_vec.specs.Vectors.{IsWithin, origin};
ghost use Rattle.staat_words.specs.Spelled.{halves_at_comma, nonzero, vector_within};

use staat_number::integer_of;
use staat_vec::V3;

// The parts before and after the first comma.
#[tactic(auto, unfolding(crate::specs::Spelled::halves_at_comma))]
fn halves_at_comma(text: &str) -> Option<(&str, &str)>
    ensures { option_map (λ p. (p.0.now, p.1.now)) result ≡ halves_at_comma text.now }
{
    text.split_once(',')
}

fn nonzero(v: V3) -> Option<V3>
    ensures { result ≡ nonzero v }
{
    if v.x == 0 && v.y == 0 && v.z == 0 {
        None
    } else {
        Some(v)
    }
}

/// The vector of three numbers, parted by single commas and not all 0, of at most `most` in absolute value.
#[tactic(auto, unfolding(crate::specs::Spelled::vector_within))]
pub fn vector_of(text: &str, most: u128) -> Option<V3>
    requires { most < 2 ^ 100 }
    ensures exact { result ≡ vector_within most text.now }
    ensures bound { IfSome result (IsWithin most) }
    ensures moves { IfSome result (λ v. v ≢ origin) }
{
    let (first, rest) = halves_at_comma(text)?;
    let (second, third) = halves_at_comma(rest)?;
    let x = integer_of(first, most)?;
    let y = integer_of(second, most)?;
    let z = integer_of(third, most)?;
    nonzero(V3 { x, y, z })
}
