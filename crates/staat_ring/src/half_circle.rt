// The half turn from the axis of a circle.
ghost use Rattle.std.specs.Prelude.{◌≡◌, ◌≢◌};
ghost use Rattle.staat_vec.specs.Vectors.{IsWithin, cross, det, origin};
ghost use Rattle.staat_model.specs.Circles.{axis_beside};
ghost use Rattle.staat_ring.specs.Builds.{IsUpper};
ghost use Rattle.staat_ring.specs.Rings.{facet_by};

use staat_vec::{NORMAL, V3, cross_normal, is_same, primitive};

// the least axis other than plane c
pub fn axis_beside(c: u32) -> u32
    ensures { result ≡ axis_beside c }
{
    if c == 0 { 1 } else { 0 }
}

// whether the crossing with h lies opposite to the half circle, where `across` is det(g, axis, h)
pub fn is_opposite(g: V3, axis: V3, h: V3, across: i128) -> bool
    requires g { IsWithin NORMAL g }
    requires axis { IsWithin NORMAL axis }
    requires h { IsWithin NORMAL h }
    requires start { cross g axis ≢ origin }
    requires apart { cross g h ≢ origin }
    requires across { across ≡ det g axis h }
    ensures { IsUpper g axis (facet_by result h) }
{
    if across == 0 {
        !is_same(
            primitive(cross_normal(g, h)),
            primitive(cross_normal(g, axis)),
        )
    } else {
        across < 0
    }
}
