// The vertex in which two planes cross.
ghost use Rattle.std.specs.Prelude.{◌≡◌, ◌≢◌, ◌<◌, ◌↔◌, IsTrue, length};
ghost use Rattle.staat_vec.specs.Primitives.{IsCanon};
ghost use Rattle.staat_vec.specs.Vectors.{IsWithin};
ghost use Rattle.staat_ring.specs.Rings.{crossing};

use crate::Entry;
use staat_pairs::crossing;
use staat_planes::PlaneTable;
use staat_vec::{DIRECTION, V3, first_of_cross, neg};
use std::marker::Model;

/// The crossing of two planes, seen as its direction. It is computed only when it is asked for.
#[derive(Drop)]
pub struct Vertex {
    own: V3,
    other: V3,
    turned: bool,
}

impl Model for Vertex {
    ghost use Rattle.staat_vec.specs.declared.vector.V3.{V3};
    ghost use Rattle.staat_vec.specs.Vectors.{cross};
    ghost use Rattle.staat_vec.specs.Primitives.{primitive};
    ghost use Rattle.staat_ring.specs.Rings.{facet_by};
    ghost use Rattle.staat_ring.specs.Walked.{DoCross};

    ghost Value = { V3 };

    ghost view = { λ c. facet_by c.turned (primitive (cross c.own c.other)) };

    ghost invariant = { λ c. DoCross c.own c.other };
}

impl Vertex {
    /// The crossing of the plane `c` of a table and the plane of an entry.
    pub fn of(table: &PlaneTable, c: u32, entry: Entry) -> Vertex
        requires c { c < length table.now.planes }
        requires plane { entry.plane < length table.now.planes }
        requires different { entry.plane ≢ c }
        ensures { result ≡ crossing table.now.planes c entry }
    {
        let _set = table.set();
        let own = table.plane(c);
        let other = table.plane(entry.plane);
        Vertex {
            own,
            other,
            turned: entry.turned,
        }
    }

    /// Whether the first component of the direction other than zero is positive. No more than that is computed of it.
    pub fn is_canon(&self) -> bool
        ensures { IsTrue result ↔ IsCanon self.now }
    {
        let first = first_of_cross(self.own, self.other);
        if self.turned { first < 0 } else { first > 0 }
    }

    /// The direction.
    pub fn direction(&self) -> V3
        ensures is { result ≡ self.now }
        ensures within { IsWithin DIRECTION result }
    {
        let ray = crossing(self.own, self.other);
        if self.turned { neg(ray) } else { ray }
    }
}
