// The side of a set of parts that begins to move.
ghost use Rattle.std.specs.Prelude.{◌≡◌, ◌≤◌, ◌↔◌, IfSome, None};
ghost use Rattle.std.specs.FinSet as set;
ghost use Rattle.staat_vec.specs.Vectors.{IsWithin};
ghost use Rattle.staat_model.specs.Outcomes.{IsMovedSideBy};
ghost use Rattle.staat_model.specs.Sets.{IsSide};
ghost use Rattle.staat_pairs.specs.Tables.{WasMadeFrom};
ghost use Rattle.staat_local.specs.Beginnings.{IsBeginning, IsTight, Loosens};
ghost use Rattle.staat_local.specs.Contacts.{Starts};
ghost use Rattle.staat_local.specs.Touching.{AreMarks};

use crate::graph::graph_of;
use crate::side::Loose;
use crate::tight::marked_core;
use crate::touching::{TouchMarks, touching};
use staat_core::{TableCore, Trial, Tried, first_vertex};
use staat_graph::{is_strong, sink_of};
use staat_model::{PartSet, Sound};
use staat_planes::PlaneTable;
use staat_vec::{DIRECTION, V3};

// The contacts of the parts of a table. Where no side begins to move along a direction, none does along its opposite.
#[derive(Clone, Copy)]
struct Contacts<'a> {
    marks: &'a TouchMarks,
}

impl<'a> Trial for Contacts<'a> {
    type Found = PartSet;

    ghost knows = { λ self parts t. AreMarks parts t self.marks.now };

    ghost serves = { Loosens };

    ghost finds = { IsMovedSideBy Starts };

    ghost among = { IsSide };

    fn ask(&self, table: &PlaneTable, w: PartSet, d: V3) -> Tried<PartSet> {
        let graph = graph_of(self.marks, table, d);
        if is_strong(&graph, w) {
            Tried::Neither
        } else {
            Tried::Ahead(sink_of(&graph, w))
        }
    }

    fn core(&self, table: &PlaneTable, w: PartSet) -> TableCore {
        marked_core(self.marks, table, w)
    }
}

/// The side of the table's set of parts that begins to move: along the first of the vertices of its planes along which
/// some side does, in the order of the pairs of planes. None exactly where no side begins to move along any direction.
///
/// The table was made from this assembly, and its set has at least two parts. Which pieces touch is decided once for
/// each two. Of a vertex and its negative only the first is looked at. It takes no memory.
pub fn local_step(table: &PlaneTable, sound: &Sound) -> Option<Loose>
    requires made { WasMadeFrom sound.now table.now }
    requires two { 2 ≤ set.len table.now.of }
    ensures side { IfSome result (λ loose. IsSide table.now.of loose.side) }
    ensures size { IfSome result (λ loose. IsWithin DIRECTION loose.d) }
    ensures beginning { IfSome result (IsBeginning sound.now table.now.of) }
    ensures tight { (result ≡ None) ↔ IsTight sound.now table.now.of }
{
    let marks = touching(table, sound);
    let contacts = Contacts { marks: &marks };
    match first_vertex(table, table.set(), &contacts) {
        Some(served) => Some(Loose {
            side: served.found,
            d: served.d,
        }),
        None => None,
    }
}
