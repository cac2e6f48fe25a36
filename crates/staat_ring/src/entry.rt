// A plane through a stop of a circle, and the numbers of entries and stops.
ghost use Rattle.std.specs.Prelude.{◌≡◌, ◌<◌, ◌≤◌, ◌^◌, All};
ghost use Rattle.staat_ring.specs.Numbered.{HasEntry, entry_count, entry_number, ring_node_count, node_number};

use staat_limits::MOST_PLANES;

/// A plane through a stop of a circle.
#[derive(Clone, Copy)]
pub struct Entry {
    /// The number of the plane.
    pub plane: u32,
    /// Whether the stop is the negative of the crossing of the circle's plane with this one.
    pub turned: bool,
}

/// The number of an entry on the circle `c`.
pub fn number_of_entry(planes: u32, c: u32, e: Entry) -> u32
    requires planes { planes ≤ MOST_PLANES }
    requires circle { c < planes }
    requires plane { e.plane < planes }
    ensures is { result ≡ entry_number planes c e }
    ensures within { result < entry_count planes }
    ensures small { result < 2 ^ 30 }
{
    let first = 2 * (c * planes + e.plane);
    if e.turned { first + 1 } else { first }
}

/// The node of a stop on the circle `c`: it is numbered by its first entry, beyond all entries.
pub fn node_of(planes: u32, c: u32, entries: &[Entry]) -> u32
    requires planes { planes ≤ MOST_PLANES }
    requires circle { c < planes }
    requires entries { All (λ e. e.plane < planes) entries.now }
    requires some { HasEntry entries.now }
    ensures is { result ≡ node_number planes c entries.now }
    ensures within { result < ring_node_count planes }
{
    2 * (planes * planes) + number_of_entry(planes, c, entries[0])
}
