// The points, ascending by their signs.
ghost use Rattle.std.specs.Prelude.{◌≡◌, ◌<◌, ◌≤◌, All, IfOk, IsTrue, length, map, slice_index_or, take};
ghost use Rattle.staat_vec.specs.Lists.{Lists};
ghost use Rattle.staat_vec.specs.Vectors.{IsWithin, origin};
ghost use Rattle.staat_model.specs.declared.tree.Kind.TheVariants.{Point};
ghost use Rattle.staat_model.specs.Cells.{AreCellsOf, signs_of};
ghost use Rattle.staat_pairs.specs.Tables.{AreTablePlanes};
ghost use Rattle.staat_cells.specs.Packing.{incidence_cmp};
ghost use Rattle.staat_cells.specs.Compositions.{entry_of};
ghost use Rattle.staat_cells.specs.Stages.{HaveSigns, IsOwnIncidence, cell_at, point_entry};

use crate::cell::{Cell, Signs};
use crate::incidence::{Incidence, incidence_of};
use crate::order::in_order;
use crate::signs::{flipped_signs, signs_where};
use staat_limits::MOST_CELL_PLANES;
use staat_model::Kind;
use staat_pairs::directions;
use staat_vec::{Normal, OutOfMemory, SMALL, Sign, V3, VERTEX, are_within, is_same, neg};
use std::alloc::Global;

// the signs of the vertex k, where the points at the vertices before it are listed: mostly one of these is opposite to it
fn signs_after(
    alloc: Global,
    planes: &[Normal],
    small: bool,
    vertices: &[V3],
    cells: &[Cell],
    k: usize,
) -> Result<Vec<Sign>, OutOfMemory>
    requires small { IsTrue small → All (IsWithin SMALL) planes.now }
    requires vertices { All (IsWithin VERTEX) vertices.now }
    requires place { k < length vertices.now }
    requires long { length cells.now ≡ k }
    requires before { map entry_of cells.now ≡ map (point_entry planes.now) (take k vertices.now) }
    ensures { IfOk result (λ signs. signs.items ≡ signs_of planes.now (slice_index_or vertices.now k origin)) }
{
    let v = vertices[k];
    let mirror = vertices.len() - 1 - k;
    if mirror < k && is_same(neg(vertices[mirror]), v) {
        flipped_signs(alloc, cells[mirror].signs.as_slice())
    } else {
        signs_where(alloc, planes, small, v)
    }
}

// the points at the vertices
fn points_at(alloc: Global, planes: &[Normal], vertices: &[V3]) -> Result<Vec<Cell>, OutOfMemory>
    requires { All (IsWithin VERTEX) vertices.now }
    ensures { IfOk result (λ cells. map entry_of cells.items ≡ map (point_entry planes.now) vertices.now) }
{
    let small = are_within(planes, SMALL);
    let mut cells = Vec::with_capacity(alloc, vertices.len())?;
    for k in 0..vertices.len() {
        let signs = signs_after(alloc, planes, small, vertices, &cells, k)?;
        cells.push(Cell {
            kind: Kind::Point,
            d: vertices[k],
            signs: Signs::from_vec(signs),
        })?;
    }
    Ok(cells)
}

// the incidences of cells with their own signs and places, in order
fn own_incidences(alloc: Global, cells: &[Cell]) -> Result<Vec<Incidence>, OutOfMemory>
    ensures { IfOk result (λ found. Lists incidence_cmp (IsOwnIncidence (map entry_of cells.now)) found.items) }
{
    let mut incidences = Vec::with_capacity(alloc, cells.len())?;
    for k in 0..cells.len() {
        incidences.push(incidence_of(cells[k].signs.as_slice(), k))?;
    }
    Ok(in_order(incidences))
}

// a cell once more
fn copied(alloc: Global, cell: &Cell) -> Result<Cell, OutOfMemory>
    ensures { IfOk result (λ same. entry_of same ≡ entry_of cell.now) }
{
    let signs = cell.signs.as_slice().to_vec(alloc)?;
    Ok(Cell {
        kind: cell.kind,
        d: cell.d,
        signs: Signs::from_vec(signs),
    })
}

// the cells of the incidences, with room for the edges and the open cells behind them: for planes in general position
// that are all cells, by Euler's formula
fn cells_of(
    alloc: Global,
    cells: &[Cell],
    incidences: &[Incidence],
) -> Result<Vec<Cell>, OutOfMemory>
    requires { All (λ x. x.of < length cells.now) incidences.now }
    ensures { IfOk result (λ found. map entry_of found.items
        ≡ map (λ x. cell_at (map entry_of cells.now) x.of) incidences.now) }
{
    let room = incidences.len().saturating_mul(4).saturating_add(2);
    let mut found = Vec::with_capacity(alloc, room)?;
    for x in incidences {
        found.push(copied(alloc, &cells[x.of])?)?;
    }
    Ok(found)
}

/// The points, ascending by signs, and incidences with their signs.
pub(crate) fn points_of(
    alloc: Global,
    planes: &[Normal],
) -> Result<(Vec<Cell>, Vec<Incidence>), OutOfMemory>
    requires planes { AreTablePlanes planes.now }
    requires few { length planes.now ≤ MOST_CELL_PLANES }
    ensures points { IfOk result (λ found. AreCellsOf planes.now Point (map entry_of found.0.items)) }
    ensures signs { IfOk result (λ found. HaveSigns (map entry_of found.0.items) found.1.items) }
{
    // a refusal of version 1 lists just the vertices
    let raw = points_at(alloc, planes, &directions(alloc, 1, planes)?)?;
    let incidences = own_incidences(alloc, &raw)?;
    let points = cells_of(alloc, &raw, &incidences)?;
    Ok((points, incidences))
}
