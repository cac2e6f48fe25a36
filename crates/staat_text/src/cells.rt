// The text of all cells of directions, each with its blocking graph.
ghost use Rattle.std.specs.Prelude.{◌≡◌, ◌++◌, ◌<◌, ◌≤◌, ◌^◌, [], IfOk, List};
ghost use Rattle.std.specs.Prelude.{codes, length, map, string_bytes};
ghost use Rattle.std.specs.Fmt.{signed_decimal};
ghost use Rattle.staat_model.specs.declared.assembly.Part.{Part as PartValue};
ghost use Rattle.staat_model.specs.Cells.{AreCells};
ghost use Rattle.staat_model.specs.Lines.{vector_numbers};
ghost use Rattle.staat_model.specs.Sets.{below};
ghost use Rattle.staat_pairs.specs.Tables.{Table, WasMadeFrom};
ghost use Rattle.staat_cells.specs.CellGraphs.{HasArcsOf};
ghost use Rattle.staat_cells.specs.Compositions.{entry_of};
ghost use Rattle.staat_text.specs.CellTexts.{IsAnswer, IsCellsAnswer, IsTextOfCells, count_line, line_with};
ghost use Rattle.staat_text.specs.CellTexts.{kind_count, kind_word, same_kind, short_arcs, totals_line};
ghost use Rattle.staat_text.specs.GraphTexts.{arcs_of};
ghost use Rattle.staat_text.specs.Holding.{HoldsCells};
ghost use Rattle.staat_text.specs.PlanTexts.{numbers_before};

use crate::arcs::{ArcForm, push_arcs_among};
use crate::holding::{HeldText, hold};
use staat_cells::{Cell, CellGraphs, Cells};
use staat_graph::Graph;
use staat_limits::{MOST_PARTS, TEXT_LIMIT};
use staat_model::{Kind, TextRefusal};
use staat_number::push_number;
use staat_planes::PlaneTable;
use staat_vec::{Bytes, V3};
use std::alloc::{AllocError, Global};

/// How many bytes a line is mostly at most: the text then grows in the room that it has.
const LINE: usize = 128;

// The word for a kind of cell.
fn kind_word(kind: Kind) -> &'static [u8]
    ensures { result.now ≡ kind_word kind }
{
    match kind {
        Kind::Point => b"point",
        Kind::Edge => b"edge",
        Kind::Open => b"open",
    }
}

// Adds a number after a space.
fn push_spaced(line: &mut Vec<u8>, z: i128) -> Result<(), AllocError>
    ensures { IfOk result (λ _. line.new.items ≡ line.old.items ++ (codes " " ++ signed_decimal z)) }
{
    line.push(b' ')?;
    push_number(line, z)
}

// Adds the components, each after a space.
fn push_vector(line: &mut Vec<u8>, d: V3) -> Result<(), AllocError>
    ensures { IfOk result (λ _. line.new.items ≡ line.old.items ++ numbers_before (vector_numbers d) []) }
{
    push_spaced(line, d.x)?;
    push_spaced(line, d.y)?;
    push_spaced(line, d.z)
}

// Adds the arcs, or a dash where there is none.
fn push_arcs_or_dash(line: &mut Vec<u8>, g: &Graph, parts: u32) -> Result<(), AllocError>
    requires { parts ≤ MOST_PARTS }
    ensures { IfOk result (λ _. line.new.items ≡ line.old.items ++ short_arcs (arcs_of g.now.rows parts)) }
{
    let before = line.len();
    push_arcs_among(line, g, parts, ArcForm::Short)?;
    if line.len() == before {
        line.extend_from_slice(b" -")?;
    }
    Ok(())
}

// Makes the text of the arcs that of g, where it was that of the last graph: mostly these have the same arcs.
fn renew_arcs(arcs: &mut Vec<u8>, last: &mut Graph, g: &Graph, parts: u32) -> Result<(), AllocError>
    requires parts { parts ≤ MOST_PARTS }
    requires before { arcs.old.items ≡ short_arcs (arcs_of last.old.rows parts) }
    ensures last { IfOk result (λ _. last.new.rows ≡ g.now.rows) }
    ensures arcs { IfOk result (λ _. arcs.new.items ≡ short_arcs (arcs_of g.now.rows parts)) }
{
    if last.rows != g.rows {
        arcs.clear();
        push_arcs_or_dash(arcs, g, parts)?;
        last.rows = g.rows;
    }
    Ok(())
}

// Writes the line of a cell with these arcs in place of what was there.
fn write_cell(line: &mut Vec<u8>, cell: &Cell, arcs: &[u8]) -> Result<(), AllocError>
    ensures { IfOk result (λ _. line.new.items ≡ line_with (entry_of cell.now) arcs.now) }
{
    line.clear();
    line.extend_from_slice(kind_word(cell.kind))?;
    push_vector(line, cell.d)?;
    line.extend_from_slice(arcs)?;
    line.push(b'\n')?;
    Ok(())
}

// Whether two kinds are one.
fn same_kind(kind: Kind, other: Kind) -> bool
    ensures { result ≡ same_kind kind other }
{
    match (kind, other) {
        (Kind::Point, Kind::Point) | (Kind::Edge, Kind::Edge) | (Kind::Open, Kind::Open) => true,
        _ => false,
    }
}

// How many cells there are of a kind.
fn kind_count(cells: &[Cell], kind: Kind) -> usize
    ensures { result ≡ kind_count kind (map entry_of cells.now) }
{
    let mut count = 0;
    for cell in cells {
        if same_kind(kind, cell.kind) {
            count += 1;
        }
    }
    count
}

// The line with these numbers.
fn count_line(
    alloc: Global,
    planes: u32,
    points: usize,
    edges: usize,
    opens: usize,
) -> Result<String, AllocError>
    ensures { IfOk result (λ s. string_bytes s ≡ count_line planes points edges opens) }
{
    format!(in alloc; "planes {planes} points {points} edges {edges} open {opens}\n")
}

// The line with the numbers of planes and of cells of each kind.
fn totals_line(alloc: Global, planes: u32, cells: &[Cell]) -> Result<String, AllocError>
    ensures { IfOk result (λ s. string_bytes s ≡ totals_line planes (map entry_of cells.now)) }
{
    let points = kind_count(cells, Kind::Point);
    let edges = kind_count(cells, Kind::Edge);
    let opens = kind_count(cells, Kind::Open);
    count_line(alloc, planes, points, edges, opens)
}

// Adds a line for each cell.
fn hold_cells(
    alloc: Global,
    graphs: &CellGraphs,
    cells: &[Cell],
    parts: u32,
    held: &mut HeldText,
) -> Result<(), AllocError>
    requires parts { parts ≤ MOST_PARTS }
    requires room { held.old.length < 2 ^ 64 }
    ensures { IfOk result (λ _. (t : Table) → HasArcsOf t graphs.now
        → HoldsCells t parts (map entry_of cells.now) held.old held.new) }
{
    let mut line = Vec::new(alloc);
    let mut arcs = Vec::new(alloc);
    let mut last = Graph { rows: [0; 32] };
    push_arcs_or_dash(&mut arcs, &last, parts)?;
    for cell in cells {
        let g = graphs.graph_of(cell.signs.as_slice());
        renew_arcs(&mut arcs, &mut last, &g, parts)?;
        write_cell(&mut line, cell, &arcs)?;
        hold(held, line.as_slice())?;
    }
    Ok(())
}

/// The text of cells of a table's planes, or its length in bytes where that is above [`TEXT_LIMIT`].
///
/// The table's set is that of the parts below `parts`, at most [`MOST_PARTS`] of them. The cells may be any, as those
/// of [`all_cells`](staat_cells::all_cells).
///
/// It has the line `planes N points P edges E open O`; then for each cell in order a line of its kind, the three
/// numbers of its representative and the arcs ` A>B` of the blocking graph, ascending by `A` and then by `B`, or ` -`
/// where there is none. The arcs are those by the cell's signs, which are those at every direction with these signs.
pub fn cells_text(
    alloc: Global,
    table: &PlaneTable,
    cells: &Cells,
    parts: u32,
) -> Result<Bytes, TextRefusal>
    requires parts { parts ≤ MOST_PARTS }
    requires set { table.now.of ≡ below parts }
    ensures text { IsAnswer (IsTextOfCells table.now parts (map entry_of cells.now)) result }
    ensures all { AreCells table.now.planes (map entry_of cells.now) → (all : List PartValue)
        → WasMadeFrom all table.now → IsCellsAnswer all parts result }
{
    let graphs = CellGraphs::of(alloc, table)?;
    let bytes = Vec::with_capacity(alloc, cells.as_slice().len().saturating_mul(LINE))?;
    let mut held = HeldText { bytes, length: 0 };
    let first = totals_line(alloc, table.len(), cells.as_slice())?;
    hold(&mut held, first.as_bytes())?;
    hold_cells(alloc, &graphs, cells.as_slice(), parts, &mut held)?;
    if held.length > TEXT_LIMIT {
        return Err(TextRefusal::TextTooLong(held.length));
    }
    Ok(Bytes::from_vec(held.bytes))
}
