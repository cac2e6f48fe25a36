//! Laws on lists of cells. Each is a function that does nothing, and its contract is the law.
ghost use Rattle.std.specs.Prelude.{◌≢◌, ◌↔◌, ◌≤◌, ℕ, List, length};
ghost use Rattle.staat_vec.specs.declared.vector.V3.{V3 as Vector};
ghost use Rattle.staat_vec.specs.Vectors.{origin};
ghost use Rattle.staat_model.specs.Cells.{AreCells, CellEntry, HasOneCell, signs_of};
ghost use Rattle.staat_pairs.specs.Tables.{AreTablePlanes, IsTable, Table};
ghost use Rattle.staat_planes.specs.Tables.{IsAhead};
ghost use Rattle.staat_cells.specs.CellGraphs.{IsAheadBy};

use staat_limits::MOST_CELL_PLANES;

/// Each direction other than zero, of any size, lies in exactly one of all cells of some planes.
#[tactic(auto, using(crate::proofs::OneCell::one_cell))]
pub fn one_cell()
    ensures { (planes : List Vector) (cells : List CellEntry) (d : Vector) → AreCells planes cells → d ≢ origin
        → HasOneCell planes cells d }
{}

/// The planes of a table, at most [`MOST_CELL_PLANES`] of them, have a list of all cells.
#[tactic(auto, using(crate::proofs::SomeCells::some_cells))]
pub fn some_cells()
    ensures { (planes : List Vector) → AreTablePlanes planes → length planes ≤ MOST_CELL_PLANES
        → (cells : List CellEntry) × AreCells planes cells }
{}

/// The arcs that a table has by the signs of a direction are those that it has at the direction.
pub fn arcs_by_signs()
    ensures { (t : Table) (d : Vector) (a b : ℕ) → IsTable t
        → IsAheadBy t (signs_of t.planes d) a b ↔ IsAhead t d a b }
{}
