// The circle of a plane among all planes of a table.
ghost use Rattle.std.specs.Prelude.{◌≡◌, ℕ, ◌<◌, Contains, IfOk, List, Some, length, slice_get};
ghost use Rattle.staat_ring.specs.Builds.{ring_by};
ghost use Rattle.staat_ring.specs.Rings.{IsRingOf};
ghost use Rattle.staat_ring.specs.WholeCircles.{IsWholeCircle, stop_at, vertex_at};

use crate::entry::Entry;
use crate::half_circle::axis_beside;
use crate::keys::{entries_of, keys_of};
use crate::order::{Turn, divided};
use crate::stop_list::Stops;
use crate::vertex::Vertex;
use staat_planes::PlaneTable;
use staat_vec::OutOfMemory;
use std::alloc::Global;
use std::marker::Model;

/// The stops of the circle of plane `c` among all planes of the table, from the crossing with the least other axis on.
pub fn circle_of(alloc: Global, table: &PlaneTable, c: u32) -> Result<Stops, OutOfMemory>
    requires { c < length table.now.planes }
    ensures { IfOk result (λ v. (linked : List ℕ)
        → ((j : ℕ) → j < length table.now.planes → Contains linked j)
        → IsRingOf table.now.planes linked (ring_by c v)) }
{
    let _set = table.set();
    let _planes = table.len();
    let g = table.plane(c);
    let _axis = table.plane(axis_beside(c));
    let keys = keys_of(alloc, table, c)?;
    let entries = entries_of(alloc, keys.as_slice())?;
    let turn = Turn::around(table, g);
    let half = divided(alloc, &turn, entries)?;
    Stops::around(half.entries, half.ends)
}

/// The circle of a plane of a table: its vertices in the turning sense about the normal of the plane, from the crossing
/// with the least axis other than this plane on, each with the ascending list of the other planes through it.
#[derive(Drop)]
pub struct Circle {
    plane: u32,
    stops: Stops,
}

impl Model for Circle {
    ghost use Rattle.staat_ring.specs.Builds.{ring_by};
    ghost use Rattle.staat_ring.specs.Rings.{Ring};

    ghost Value = { Ring };

    ghost view = { λ c. ring_by c.plane c.stops };
}

impl Circle {
    /// The circle of plane `c` among all planes of the table.
    pub fn of(alloc: Global, table: &PlaneTable, c: u32) -> Result<Circle, OutOfMemory>
        requires { c < length table.now.planes }
        ensures plane { IfOk result (λ circle. circle.plane ≡ c) }
        ensures is { IfOk result (IsWholeCircle table.now.planes) }
    {
        let stops = circle_of(alloc, table, c)?;
        Ok(Circle { plane: c, stops })
    }

    /// The number of the plane.
    pub fn plane(&self) -> u32
        ensures { result ≡ self.now.plane }
    {
        self.plane
    }

    /// The number of vertices.
    pub fn len(&self) -> usize
        ensures { result ≡ length self.now.stops }
    {
        self.stops.len()
    }

    /// The other planes through the vertex `k`, in ascending order.
    pub(crate) fn stop(&self, k: usize) -> &[Entry]
        requires { k < length self.now.stops }
        ensures { result.now ≡ (stop_at self.now k).entries }
    {
        self.stops.stop(k)
    }

    /// The first of them.
    pub fn first_entry(&self, table: &PlaneTable, k: usize) -> Entry
        requires circle { IsWholeCircle table.now.planes self.now }
        requires place { k < length self.now.stops }
        ensures { slice_get (stop_at self.now k).entries 0 ≡ Some result }
    {
        let _set = table.set();
        self.stop(k)[0]
    }

    /// The vertex `k`.
    pub fn vertex(&self, table: &PlaneTable, k: usize) -> Vertex
        requires circle { IsWholeCircle table.now.planes self.now }
        requires place { k < length self.now.stops }
        ensures { result ≡ vertex_at table.now.planes self.now k }
    {
        let _set = table.set();
        Vertex::of(table, self.plane, self.first_entry(table, k))
    }
}
