// What is seen at a vertex.
ghost use Rattle.std.specs.Prelude.{◌≡◌, ◌<◌, ◌≤◌, ◌<ℤ◌, pos, All, IfSome, IsSomeAnd};
ghost use Rattle.staat_vec.specs.Vectors.{dot};
ghost use Rattle.staat_model.specs.Certificates.{outward};
ghost use Rattle.staat_model.specs.Certify.{IsLeastArc};
ghost use Rattle.staat_graph.specs.Blocking.{ShowsBlocking};
ghost use Rattle.staat_pairs.specs.Searches.{arc_of};
ghost use Rattle.staat_pairs.specs.Tables.{IsTableArc, facets_of, pieces_of, slot};
ghost use Rattle.staat_planes.specs.Tables.{IsAhead};
ghost use Rattle.staat_certify.specs.Witnesses.{AreEndsAhead, StandsAmong};

use staat_graph::Graph;
use staat_model::{Arc, Sound};
use staat_planes::PlaneTable;
use staat_ring::CountedSigns;
use staat_vec::V3;

/// A vertex of the planes of a table, with the signs of all planes there, and the assembly of which the table was made.
#[derive(Clone, Copy)]
pub(crate) struct Vantage<'a> {
    pub sound: &'a Sound,
    pub table: &'a PlaneTable,
    pub signs: &'a CountedSigns,
    pub d: V3,
}

impl<'a> Vantage<'a> {
    /// The blocking graph at the vertex.
    pub(crate) fn graph(&self) -> Graph
        requires { StandsAmong self.now.sound.now self.now.table.now self.now.signs.now self.now.d }
        ensures { ShowsBlocking self.now.sound.now self.now.d self.now.table.now.of result.rows }
    {
        let _set = self.table.set();
        self.signs.graph()
    }

    // the first piece of the part `b` that piece `i` of the part `a` meets along the vertex; `from` is the slot of that
    // piece and piece 0
    fn first_met(&self, a: u32, i: u32, b: u32, from: u32) -> Option<u32>
        requires at { StandsAmong self.now.sound.now self.now.table.now self.now.signs.now self.now.d }
        requires across { IsTableArc self.now.table.now (arc_of a i b 0) }
        requires from { from ≡ slot self.now.table.now.pieces (arc_of a i b 0) }
        ensures across { IfSome result (λ j. j < pieces_of self.now.table.now b) }
        ensures ahead { IfSome result (λ j. All (λ n. pos 0 <ℤ dot n self.now.d)
            (facets_of self.now.table.now (arc_of a i b j))) }
        ensures first { (h : IsAhead self.now.table.now self.now.d a b) → h.i ≡ i
            → IsSomeAnd result (λ j. j ≤ h.j) }
    {
        let _set = self.table.set();
        self.signs.first_full(from, self.table.pieces(b))
    }

    /// The first two pieces of two parts with which the one blocks the other along the vertex, and their slot.
    pub(crate) fn least_arc(&self, ends: (u32, u32)) -> (Arc, u32)
        requires at { StandsAmong self.now.sound.now self.now.table.now self.now.signs.now self.now.d }
        requires ahead { AreEndsAhead self.now.table.now self.now.d ends }
        ensures across { IsTableArc self.now.table.now result.0 }
        ensures ends { outward result.0 ≡ ends }
        ensures least { IsLeastArc self.now.sound.now self.now.d result.0 }
        ensures slot { result.1 ≡ slot self.now.table.now.pieces result.0 }
    {
        let (a, b) = ends;
        for i in 0..self.table.pieces(a) {
            let from = self.table.slot(Arc { a, i, b, j: 0 });
            if let Some(j) = self.first_met(a, i, b, from) {
                return (Arc { a, i, b, j }, from + j);
            }
        }
        unreachable!()
    }
}
