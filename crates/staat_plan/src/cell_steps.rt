// The step of a set of parts in a robust plan.
ghost use Rattle.std.specs.Prelude.{◌≤◌, ◌<◌, [], ◌∷◌, All, IfOk, IfSome, Some, length, map, true};
ghost use Rattle.staat_model.specs.Sets.{IsNonempty, IsSubset};
ghost use Rattle.staat_pairs.specs.Tables.{AreTablePlanes};
ghost use Rattle.staat_cells.specs.{CellGraphs.HasArcsOf, Compositions.entry_of, Skeletons.{IsSkeleton, opens_before}};
ghost use Rattle.staat_plan.specs.{CellSteps.{IsStepAmong, IsTableCell}, Planning.IsSetStep};

use crate::marked::{Marked, side_of};
use staat_cells::{Cell, CellGraphs, Skeleton, first_open};
use staat_limits::MOST_CELL_PLANES;
use staat_model::{Kind, PartSet, Step};
use staat_planes::PlaneTable;
use staat_vec::OutOfMemory;
use std::alloc::Global;

/// The step of the set `w` of parts along the representative of the first open cell of its planes, if a side moves
/// along it: then it is the step of `w` in a robust plan.
///
/// `w` is not empty, and lies in the table's set, which has at most [`MOST_CELL_PLANES`] planes. Its planes are picked
/// from the table, and no other cell is made. It fails for want of memory alone.
pub(crate) fn first_open_step(
    alloc: Global,
    table: &PlaneTable,
    w: PartSet,
) -> Result<Option<Marked>, OutOfMemory>
    requires some { IsNonempty w }
    requires within { IsSubset w table.now.of }
    requires few { length table.now.planes ≤ MOST_CELL_PLANES }
    ensures { IfOk result (λ found. IfSome found (λ m. IsSetStep true table.now w (Some m))) }
{
    let planes = table.planes_of(alloc, w)?;
    let d = first_open(planes.as_slice());
    let Some(moved) = side_of(&table.graph_in(w, d), w) else {
        return Ok(None);
    };
    Ok(Some(Marked {
        step: Step { moved, d },
        mark: Some(Kind::Open),
    }))
}

// The step along the representative of a cell, if a side moves along it. The graph comes from the cell's signs.
fn step_in(table: &PlaneTable, graphs: &CellGraphs, cell: &Cell) -> Option<Marked>
    requires graphs { HasArcsOf table.now graphs.now }
    requires cell { IsTableCell table.now (entry_of cell.now) }
    ensures { IsStepAmong table.now (entry_of cell.now ∷ []) result }
{
    let graph = graphs.graph_of(cell.signs.as_slice());
    let Some(moved) = side_of(&graph, table.set()) else {
        return None;
    };
    Some(Marked {
        step: Step { moved, d: cell.d },
        mark: Some(cell.kind),
    })
}

// the first step along representatives of cells
fn step_among(table: &PlaneTable, graphs: &CellGraphs, cells: &[Cell]) -> Option<Marked>
    requires graphs { HasArcsOf table.now graphs.now }
    requires cells { All (IsTableCell table.now) (map entry_of cells.now) }
    ensures { IsStepAmong table.now (map entry_of cells.now) result }
{
    for cell in cells {
        if let Some(found) = step_in(table, graphs, cell) {
            return Some(found);
        }
    }
    None
}

// The first step along representatives of open cells. They are composed one at a time, up to the first that serves.
fn open_step(
    alloc: Global,
    table: &PlaneTable,
    graphs: &CellGraphs,
    skeleton: &Skeleton,
) -> Result<Option<Marked>, OutOfMemory>
    requires graphs { HasArcsOf table.now graphs.now }
    requires planes { AreTablePlanes table.now.planes }
    requires skeleton { IsSkeleton table.now.planes skeleton.now }
    ensures { IfOk result (IsStepAmong table.now (opens_before skeleton.now (length skeleton.now.incidences.items))) }
{
    for i in 0..skeleton.places() {
        if let Some(cell) = skeleton.open_at(alloc, i)? {
            if let Some(found) = step_in(table, graphs, &cell) {
                return Ok(Some(found));
            }
        }
    }
    Ok(None)
}

/// The step of the table's set of parts in a robust plan: that along the representative of the first cell that serves,
/// of the open cells, then the edges, then the points, each kind ascending by signs. None where the set is stuck.
///
/// The table has at most [`MOST_CELL_PLANES`] planes. The points and the edges are made once, since the open cells are
/// composed of them, and the open cells one at a time, up to the first that serves.
pub(crate) fn cell_step(alloc: Global, table: &PlaneTable) -> Result<Option<Marked>, OutOfMemory>
    requires { length table.now.planes ≤ MOST_CELL_PLANES }
    ensures { IfOk result (IsSetStep true table.now table.now.of) }
{
    // the planes of a table keep its rules
    let _planes = table.planes();
    let graphs = CellGraphs::of(alloc, table)?;
    let skeleton = Skeleton::of(alloc, table)?;
    if let Some(first) = open_step(alloc, table, &graphs, &skeleton)? {
        return Ok(Some(first));
    }
    if let Some(found) = step_among(table, &graphs, skeleton.edges()) {
        return Ok(Some(found));
    }
    Ok(step_among(table, &graphs, skeleton.points()))
}
