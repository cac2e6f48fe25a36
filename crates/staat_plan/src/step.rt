// The step of a set of parts.
ghost use Rattle.std.specs.Prelude.{◌≡◌, ◌≤◌, ◌↔◌, List, IfSome, MatchOption, None, false};
ghost use Rattle.std.specs.FinSet as set;
ghost use Rattle.staat_vec.specs.Vectors.{IsWithin};
ghost use Rattle.staat_model.specs.{Outcomes.{HasNoStep, IsMovedSide, IsStep, Serves, try_vertex}, Plans.IsStuck};
ghost use Rattle.staat_model.specs.{Sets.{IsNonempty, IsSide, IsSubset}, declared.assembly.Part.Part as PartValue};
ghost use Rattle.staat_pairs.specs.Tables.{WasMadeFrom};

use crate::marked::side_of;
use staat_core::{Moving, TableCore, Trial, Tried, first_vertex};
use staat_model::{PartSet, Step};
use staat_planes::PlaneTable;
use staat_vec::{DIRECTION, V3};

/// What looks for the side of a set of parts that moves along a direction.
#[derive(Clone, Copy)]
pub(crate) struct Sides;

impl Trial for Sides {
    type Found = PartSet;

    ghost knows = { λ s parts t. Unit {0} };

    ghost serves = { Serves };

    ghost finds = { IsMovedSide };

    ghost among = { IsSide };

    // by the law `opposite_serves` a side moves along the opposite direction exactly where one moves along this one
    fn ask(&self, table: &PlaneTable, w: PartSet, d: V3) -> Tried<PartSet> {
        match side_of(&table.graph_in(w, d), w) {
            None => Tried::Neither,
            Some(side) => Tried::Ahead(side),
        }
    }

    fn core(&self, table: &PlaneTable, w: PartSet) -> TableCore {
        TableCore::of(table, w, Moving::AnySide)
    }
}

/// The step of a set of parts that is not empty and lies in the table's set: the first of the vertices of its planes
/// along which some side of the set is free of the rest, and the side that moves.
///
/// The vertices are taken in the order of the pairs of planes. Of a vertex and its negative only the first is looked
/// at: by [`opposite_serves`](crate::laws::opposite_serves) the one serves exactly where the other does. It takes no
/// memory.
pub(crate) fn step_of(table: &PlaneTable, w: PartSet) -> Option<Step>
    requires within { IsSubset w table.now.of }
    requires some { IsNonempty w }
    ensures side { IfSome result (λ s. IsSide w s.moved) }
    ensures size { IfSome result (λ s. IsWithin DIRECTION s.d) }
    ensures step { (parts : List PartValue) → WasMadeFrom parts table.now
        → MatchOption result (HasNoStep false parts w) (λ s. IsStep false parts w (try_vertex s.d) s.moved) }
{
    match first_vertex(table, w, &Sides) {
        None => None,
        Some(served) => Some(Step {
            moved: served.found,
            d: served.d,
        }),
    }
}

/// The step of the table's set of parts: the first of the vertices of its planes along which some side of the set is
/// free of the rest, and the side that moves. None exactly where the set is stuck.
///
/// `w` is the table's set, and has at least two parts. The vertices are taken in the order of the pairs of planes. It
/// takes no memory.
#[tactic(auto, using(staat_certify::proofs::SomeMember::some_member))]
pub fn part_step(table: &PlaneTable, w: PartSet) -> Option<Step>
    requires set { w ≡ table.now.of }
    requires two { 2 ≤ set.len w }
    ensures side { IfSome result (λ s. IsSide w s.moved) }
    ensures size { IfSome result (λ s. IsWithin DIRECTION s.d) }
    ensures step { (parts : List PartValue) → WasMadeFrom parts table.now
        → MatchOption result (HasNoStep false parts w) (λ s. IsStep false parts w (try_vertex s.d) s.moved) }
    ensures stuck { (parts : List PartValue) → WasMadeFrom parts table.now
        → (result ≡ None) ↔ IsStuck parts w }
{
    step_of(table, w)
}
