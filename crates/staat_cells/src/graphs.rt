// The blocking graph of a cell, from its signs.
ghost use Rattle.std.specs.Prelude.{◌≡◌, IfOk, List};
ghost use Rattle.staat_vec.specs.declared.vector.V3.{V3 as Vector};
ghost use Rattle.staat_model.specs.declared.assembly.Part.{Part as PartValue};
ghost use Rattle.staat_model.specs.Cells.{signs_of};
ghost use Rattle.staat_graph.specs.Blocking.{ShowsBlocking};
ghost use Rattle.staat_pairs.specs.Tables.{Table, WasMadeFrom};
ghost use Rattle.staat_cells.specs.CellGraphs.{HasArcsOf, IsCellGraph};

use crate::joined_batches::{JoinedBatch, add_batch_arcs, joined_batches};
use crate::part_arcs::all_batches;
use staat_graph::Graph;
use staat_planes::PlaneTable;
use staat_vec::{OutOfMemory, Sign};
use std::alloc::Global;
use std::marker::Model;

/// The cones of the directions ahead of the pieces of a table, so that signs alone tell which parts block which.
#[derive(Drop)]
pub struct CellGraphs {
    batches: Vec<JoinedBatch>,
}

impl Model for CellGraphs {
    ghost use Rattle.std.specs.Prelude.{All, List};
    ghost use Rattle.staat_cells.specs.declared.joined_batches.JoinedBatch.{JoinedBatch};
    ghost use Rattle.staat_cells.specs.Batches.{IsJoinedBatch};

    ghost Value = { List JoinedBatch };

    ghost view = { λ g. g.batches.items };

    ghost invariant = { λ g. All IsJoinedBatch g.batches.items };
}

impl CellGraphs {
    /// Finds the half-spaces ahead of the pieces of a table once for all cells. A cone that lies in another of the
    /// same two parts is left out.
    pub fn of(alloc: Global, table: &PlaneTable) -> Result<CellGraphs, OutOfMemory>
        ensures { IfOk result (λ graphs. HasArcsOf table.now graphs) }
    {
        let batches = all_batches(alloc, table)?;
        Ok(CellGraphs {
            batches: joined_batches(alloc, &batches)?,
        })
    }

    /// The blocking graph of the cell with these signs: its arcs are those at every direction of the cell (Wilson and
    /// Latombe, 1994). It takes no memory and forms no products.
    pub fn graph_of(&self, signs: &[Sign]) -> Graph
        ensures table { (t : Table) → HasArcsOf t self.now → IsCellGraph t signs.now result.rows }
        ensures shows { (t : Table) (parts : List PartValue) (d : Vector) → HasArcsOf t self.now
            → WasMadeFrom parts t → signs_of t.planes d ≡ signs.now → ShowsBlocking parts d t.of result.rows }
    {
        let mut rows = [0u32; 32];
        for batch in &self.batches {
            add_batch_arcs(&mut rows, batch, signs);
        }
        Graph { rows }
    }
}
