// All cells of the planes of a table: the points, the edges and the open cells.
ghost use Rattle.std.specs.Prelude.{◌≡◌, ◌≢◌, ◌≤◌, All, IfOk, length, map};
ghost use Rattle.staat_vec.specs.declared.vector.V3.{V3 as Vector};
ghost use Rattle.staat_vec.specs.Vectors.{IsWithin, origin};
ghost use Rattle.staat_model.specs.Cells.{AreCells, HasOneCell, signs_of};
ghost use Rattle.staat_cells.specs.Compositions.{entry_of};

use crate::cell::Cells;
use crate::compose::composed_cells;
use crate::skeleton::Skeleton;
use staat_limits::MOST_CELL_PLANES;
use staat_model::Kind;
use staat_planes::PlaneTable;
use staat_vec::{DIRECTION, OutOfMemory};
use std::alloc::Global;

/// All cells of the planes of the table: the points, then the edges, then the open cells, each kind ascending by
/// signs.
///
/// The table has at most [`MOST_CELL_PLANES`] planes. Each cell has the representative that the definition names,
/// which lies in it, with components of at most [`DIRECTION`] in absolute value, and every direction other than zero
/// lies in exactly one cell.
pub fn all_cells(alloc: Global, table: &PlaneTable) -> Result<Cells, OutOfMemory>
    requires { length table.now.planes ≤ MOST_CELL_PLANES }
    ensures cells { IfOk result (λ cells. AreCells table.now.planes (map entry_of cells)) }
    ensures representatives { IfOk result (λ cells. All (λ c. signs_of table.now.planes c.d ≡ c.signs) cells) }
    ensures size { IfOk result (λ cells. All (λ c. IsWithin DIRECTION c.d) cells) }
    ensures one { IfOk result (λ cells. (d : Vector) → d ≢ origin
        → HasOneCell table.now.planes (map entry_of cells) d) }
{
    let skeleton = Skeleton::of_planes(alloc, table.planes())?;
    let mut opens = composed_cells(alloc, Kind::Open, &skeleton.edges, &skeleton.incidences)?;
    let mut edges = skeleton.edges;
    let mut cells = skeleton.points;
    cells.append(&mut edges)?;
    cells.append(&mut opens)?;
    Ok(Cells::from_vec(cells))
}
