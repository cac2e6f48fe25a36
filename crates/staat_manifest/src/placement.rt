// Where a part is to stand: the vector by which its pieces are moved.
ghost use Rattle.std.specs.Prelude.{◌≡◌, map};
ghost use Rattle.serde_json.specs.View.{view};
ghost use Rattle.staat_manifest.specs.Placements.{as_coordinate, placement_of, three_in};

use serde_json::Value;
use staat_vec::{ORIGIN, POINT, V3};

// The coordinate that the value is: a number that is not too great for one.
#[tactic(auto, unfolding(crate::specs::Placements::as_coordinate))]
fn as_coordinate(value: &Value) -> Option<i128>
    ensures { result ≡ as_coordinate (view value.now) }
{
    match value.as_i64() {
        Some(number) if u128::from(number.unsigned_abs()) <= POINT => Some(i128::from(number)),
        _ => None,
    }
}

// The vector that three values are.
fn three_in(values: &[Value]) -> Option<V3>
    ensures { result ≡ three_in (map view values.now) }
{
    let [x, y, z] = values else {
        return None;
    };
    Some(V3 {
        x: as_coordinate(x)?,
        y: as_coordinate(y)?,
        z: as_coordinate(z)?,
    })
}

/// The vector by which the part is moved, in scaled units, unless its member `at` is none.
#[tactic(auto, using(crate::proofs::ValueLemmas::placing))]
pub(crate) fn placement_of(part: &Value) -> Option<V3>
    ensures { result ≡ placement_of (view part.now) }
{
    match part.get("at") {
        Some(at) => three_in(at.as_array()?.as_slice()),
        None => Some(ORIGIN),
    }
}
