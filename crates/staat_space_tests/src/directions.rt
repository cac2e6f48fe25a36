// Worked directions: the cells of two cubes that touch, and what touches and holds back at once.
ghost use Rattle.staat_pairs.specs.Tables.{WasMadeFrom};

use crate::conditions::is_across;
use crate::fixtures::{
    BESIDE, CUBE, CUBES, Corners, Shape, same, same_vector, sound, table, table_of,
};
use staat_cells::{Cell, CellGraphs, all_cells, first_open};
use staat_local::{local_graph, touch};
use staat_model::{Arc, Kind, Sound};
use staat_planes::PlaneTable;
use staat_samples::at;
use staat_vec::Sign;
use std::alloc::Global;
use std::process::Abort;

// the cells of two cubes, whose last is open
fn are_cells(rt: &impl Abort, cells: &[Cell]) {
    assert!(rt; cells.len() == 26);
    let kinds = [cells[0].kind, cells[6].kind, cells[18].kind];
    same(rt, &kinds, &[Kind::Point, Kind::Edge, Kind::Open]);
    is_last(rt, &cells[25]);
}

fn is_last(rt: &impl Abort, cell: &Cell) {
    same(rt, &cell.signs.as_slice(), &[Sign::Pos; 3].as_slice());
    same_vector(rt, cell.d, at(1, 1, 2));
}

// the cells of a table, and one direction that is on none of its planes
fn has_cells(rt: &impl Abort, alloc: Global, table: &PlaneTable) {
    assert!(rt; table.len() == 3);
    let cells = all_cells(alloc, table).expect(rt, "memory");
    are_cells(rt, cells.as_slice());
    same_vector(rt, first_open(table.planes()), at(-2, -1, -1));
}

// the first two words of the graph of an open cell of the planes of a table
fn rows_on(rt: &impl Abort, alloc: Global, table: &PlaneTable, signs: &[Sign]) -> [u32; 2] {
    assert!(rt; signs.len() == 3 && table.len() == 3);
    let graphs = CellGraphs::of(alloc, table).expect(rt, "memory");
    let rows = graphs.graph_of(signs).rows;
    [rows[0], rows[1]]
}

#[test]
fn each_cell_has_the_graph_of_its_directions(rt: HostRuntime) {
    let alloc = rt.alloc();
    let table = table(&rt, alloc, &CUBES);
    has_cells(&rt, alloc, &table);
    let rows = rows_on(&rt, alloc, &table, [Sign::Pos; 3].as_slice());
    same(&rt, &rows, &[0b10, 0]);
}

const FIRST: Arc = Arc {
    a: 0,
    i: 0,
    b: 1,
    j: 0,
};

// whether two parts touch, and the parts that hold the first back along x at once, and sooner or later
fn backing(rt: &impl Abort, planes: &PlaneTable, sound: &Sound) -> (bool, u32, u32)
    requires { WasMadeFrom sound.now planes.now }
{
    let along = at(1, 0, 0);
    assert!(rt; is_across(planes, FIRST));
    (
        touch(planes, sound, FIRST),
        local_graph(planes, sound, along).rows[0],
        planes.graph_at(along).rows[0],
    )
}

fn backing_of(rt: &impl Abort, alloc: Global, sound: &Sound) -> (bool, u32, u32) {
    backing(rt, &table_of(rt, alloc, sound), sound)
}

// the same of the cube and a box
fn holds_back(rt: &impl Abort, alloc: Global, second: Corners, wanted: (bool, u32, u32)) {
    let shapes = [Shape::Boxes(&[CUBE]), Shape::Boxes(&[second])];
    let sound = sound(rt, alloc, &shapes);
    same(rt, &backing_of(rt, alloc, &sound), &wanted);
}

// Boxes at a corner of the cube, at a face and apart.
#[test]
fn a_cube_and_a_box(rt: HostRuntime) {
    let alloc = rt.alloc();
    holds_back(&rt, alloc, [2, 2, 2, 4, 4, 4], (true, 0, 0));
    holds_back(&rt, alloc, BESIDE, (true, 0b10, 0b10));
    holds_back(&rt, alloc, [3, 0, 0, 5, 2, 2], (false, 0, 0b10));
}
