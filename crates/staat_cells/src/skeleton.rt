// The points and edges of the planes of a table, and its open cells one at a time.
ghost use Rattle.std.specs.Prelude.{◌≡◌, ◌<◌, ◌≤◌, IfOk, length, map};
ghost use Rattle.staat_model.specs.declared.tree.Kind.TheVariants.{Open};
ghost use Rattle.staat_pairs.specs.Tables.{AreTablePlanes};
ghost use Rattle.staat_cells.specs.Compositions.{entry_of};
ghost use Rattle.staat_cells.specs.Skeletons.{HasEdges, IsFoundAt, IsSkeleton};

use crate::cell::Cell;
use crate::compose::{begun, composed_at, composed_cells};
use crate::edge_incidences::edge_incidences;
use crate::incidence::Incidence;
use crate::open_incidences::open_incidences;
use crate::points::points_of;
use staat_limits::MOST_CELL_PLANES;
use staat_model::Kind;
use staat_planes::PlaneTable;
use staat_vec::{Normal, OutOfMemory};
use std::alloc::Global;

/// The points and edges of the planes of a table, and the incidences of its edges with its open cells, in the order
/// of these: so the open cells are composed one at a time.
#[derive(Drop)]
pub struct Skeleton {
    pub(crate) points: Vec<Cell>,
    pub(crate) edges: Vec<Cell>,
    pub(crate) incidences: Vec<Incidence>,
}

impl Skeleton {
    /// That of planes.
    pub(crate) fn of_planes(alloc: Global, planes: &[Normal]) -> Result<Skeleton, OutOfMemory>
        requires planes { AreTablePlanes planes.now }
        requires few { length planes.now ≤ MOST_CELL_PLANES }
        ensures { IfOk result (IsSkeleton planes.now) }
    {
        let (points, own) = points_of(alloc, planes)?;
        let ends = edge_incidences(alloc, planes, &points, &own)?;
        let edges = composed_cells(alloc, Kind::Edge, &points, &ends)?;
        let own = begun(alloc, &ends)?;
        let incidences = open_incidences(alloc, planes, ends, &edges, &own)?;
        Ok(Skeleton {
            points,
            edges,
            incidences,
        })
    }

    /// The skeleton of the planes of the table, which has at most [`MOST_CELL_PLANES`] planes.
    pub fn of(alloc: Global, table: &PlaneTable) -> Result<Skeleton, OutOfMemory>
        requires { length table.now.planes ≤ MOST_CELL_PLANES }
        ensures { IfOk result (IsSkeleton table.now.planes) }
    {
        Skeleton::of_planes(alloc, table.planes())
    }

    /// The points, ascending by signs.
    pub fn points(&self) -> &[Cell]
        ensures { result.now ≡ self.now.points.items }
    {
        &self.points
    }

    /// The edges, ascending by signs.
    pub fn edges(&self) -> &[Cell]
        ensures { result.now ≡ self.now.edges.items }
    {
        &self.edges
    }

    /// How many places there are at which an open cell may begin.
    pub fn places(&self) -> usize
        ensures { result ≡ length self.now.incidences.items }
    {
        self.incidences.len()
    }

    /// The open cell that begins at the place `i`, if one does. Over all places the open cells ascend by signs.
    pub fn open_at(&self, alloc: Global, i: usize) -> Result<Option<Cell>, OutOfMemory>
        requires place { i < length self.now.incidences.items }
        requires has { HasEdges self.now }
        ensures { IfOk result (IsFoundAt Open (map entry_of self.now.edges.items) self.now.incidences.items i) }
    {
        composed_at(alloc, Kind::Open, &self.edges, &self.incidences, i)
    }
}
