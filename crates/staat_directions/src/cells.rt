// The command `cells`: all cells of directions, each with its blocking graph.
ghost use Rattle.std.specs.Prelude.{◌≡◌, ◌≤◌, ◌<◌, IfOk, IfErr, length};
ghost use Rattle.std.specs.Prelude.{[]};
ghost use Rattle.staat_input.specs.Opened.{OpensSomeOf};
ghost use Rattle.staat_input.specs.declared.limits.TheConstants.Limits.{ASSEMBLY};
ghost use Rattle.staat_limits.specs.declared.limits.TheConstants.{LEAST_PLANES, MOST_CELL_PLANES};
ghost use Rattle.staat_words.specs.Requests.{IsCellsRequest};
ghost use Rattle.staat_pairs.specs.Tables.{WasMadeFrom};
ghost use Rattle.staat_input.specs.Work.{Follows};
ghost use Rattle.staat_directions.specs.CellTables.{AreCountedCells, AreTabled, CellsWork};
ghost use Rattle.staat_input.specs.Counting.{all_parts};
ghost use Rattle.staat_input.specs.Causes.{HasCause, ShelfSide};
ghost use Rattle.staat_input.specs.Taking.{DoesWork, IsWorkedOut};

use staat_cells::all_cells;
use staat_edge::Shelf;
use staat_fault::Fault;
use staat_input::{Answer, read_sound, table_of, text_fault};
use staat_model::Sound;
use staat_planes::PlaneTable;
use staat_text::cells_text;
use staat_words::CellsRequest;
use std::alloc::Global;

// The text of the cells of a table.
fn tabled(alloc: Global, sound: &Sound, table: &PlaneTable) -> Result<Answer, Fault>
    requires few { length table.now.planes ≤ MOST_CELL_PLANES }
    requires made { WasMadeFrom sound.now table.now }
    requires all { table.now.of ≡ all_parts sound.now }
    ensures status { IfOk result (λ a. a.status < 2) }
    ensures tabled { Follows (AreTabled sound.now) result }
    ensures cause { (shelf : ShelfSide) → IfErr result (HasCause shelf) }
{
    let parts = sound.assembly().parts();
    let cells = all_cells(alloc, table)?;
    match cells_text(alloc, table, &cells, parts) {
        Ok(text) => Ok(Answer { status: 0, text }),
        Err(refusal) => Err(text_fault(refusal)),
    }
}

// The answer for a sound assembly that has at most so many planes.
fn counted(alloc: Global, sound: &Sound, planes: u32) -> Result<Answer, Fault>
    requires least { LEAST_PLANES ≤ planes }
    requires most { planes ≤ MOST_CELL_PLANES }
    ensures { IsWorkedOut (AreCountedCells planes sound.now) result }
{
    let table = table_of(alloc, sound, planes)?;
    tabled(alloc, sound, &table)
}

/// The answer to the command `cells`: all cells into which the planes of all parts cut the directions, each with the
/// arcs of the blocking graph at every direction of the cell.
pub fn cells<H: Shelf>(
    alloc: Global,
    request: &CellsRequest,
    shelf: &mut H,
) -> Result<Answer, Fault>
    requires { IsCellsRequest request.now }
    ensures { DoesWork (CellsWork request.now) (OpensSomeOf ASSEMBLY request.now.asked.input []) HasCause
        (H.told shelf.old) (H.told shelf.new) result }
{
    let sound = read_sound(alloc, shelf, &request.asked)?;
    counted(alloc, &sound, request.planes)
}
