// The normals across a direction.
ghost use Rattle.std.specs.Prelude.{◌≡◌};
ghost use Rattle.staat_vec.specs.Vectors.{IsWithin, cross};
ghost use Rattle.staat_motion.specs.Frames.{IsFrame, IsOr, x_axis, y_axis, z_axis};

use staat_vec::{DIRECTION, ORIGIN, V3, X_AXIS, Y_AXIS, Z_AXIS, is_same};

/// For each axis a normal at right angles to a direction: the cross product of the axis and the direction, and the
/// next axis where that is zero.
#[derive(Clone, Copy)]
pub struct Frame {
    pub x: V3,
    pub y: V3,
    pub z: V3,
}

fn cross_x(d: V3) -> V3
    requires { IsWithin DIRECTION d }
    ensures value { result ≡ cross x_axis d }
    ensures size { IsWithin DIRECTION result }
{
    V3 {
        x: 0,
        y: -d.z,
        z: d.y,
    }
}

fn cross_y(d: V3) -> V3
    requires { IsWithin DIRECTION d }
    ensures value { result ≡ cross y_axis d }
    ensures size { IsWithin DIRECTION result }
{
    V3 {
        x: d.z,
        y: 0,
        z: -d.x,
    }
}

fn cross_z(d: V3) -> V3
    requires { IsWithin DIRECTION d }
    ensures value { result ≡ cross z_axis d }
    ensures size { IsWithin DIRECTION result }
{
    V3 {
        x: -d.y,
        y: d.x,
        z: 0,
    }
}

// n, or the other vector where n is zero
fn or_other(n: V3, other: V3) -> V3
    requires n { IsWithin DIRECTION n }
    requires other { IsWithin DIRECTION other }
    ensures value { IsOr n other result }
    ensures size { IsWithin DIRECTION result }
{
    if is_same(n, ORIGIN) { other } else { n }
}

/// The normals across `d`, whose components are at most [`DIRECTION`] in absolute value.
pub fn frame_of(d: V3) -> Frame
    requires { IsWithin DIRECTION d }
    ensures value { IsFrame d result }
    ensures x { IsWithin DIRECTION result.x }
    ensures y { IsWithin DIRECTION result.y }
    ensures z { IsWithin DIRECTION result.z }
{
    Frame {
        x: or_other(cross_x(d), Y_AXIS),
        y: or_other(cross_y(d), Z_AXIS),
        z: or_other(cross_z(d), X_AXIS),
    }
}
