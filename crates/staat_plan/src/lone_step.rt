// The step of a set of parts that comes apart along one line alone.
ghost use Rattle.std.specs.Prelude.{◌≢◌, ◌≤◌, List, IfOk, IfSome, IsTrue, Some, false, length, true};
ghost use Rattle.staat_vec.specs.Vectors.{IsWithin, origin};
ghost use Rattle.staat_model.specs.{Outcomes.{IsStep, try_vertex}, Sets.{IsNonempty, IsSubset}};
ghost use Rattle.staat_model.specs.declared.assembly.Part.{Part as PartValue};
ghost use Rattle.staat_pairs.specs.Tables.{WasMadeFrom};
ghost use Rattle.staat_plan.specs.{LoneLines.OnlyPlanesThroughServe, Planning.IsSetStep};

use crate::marked::{Marked, side_of};
use staat_core::{Moving, TableCore};
use staat_limits::MOST_CELL_PLANES;
use staat_model::{Kind, PartSet, Step};
use staat_planes::PlaneTable;
use staat_vec::{DIRECTION, Normal, OutOfMemory, Sign, V3, canon, neg, sign_dot};
use std::alloc::Global;

// Whether a core shows that no direction serves on any of the planes that v does not lie on. What it keeps on the stack
// is large, and is not to be part of the callers' frames.
#[inline(never)]
fn is_lone(table: &PlaneTable, w: PartSet, planes: &[Normal], v: V3) -> bool
    requires within { IsSubset w table.now.of }
    requires some { IsNonempty w }
    requires v { IsWithin DIRECTION v }
    ensures { IsTrue result → (parts : List PartValue) → WasMadeFrom parts table.now
        → OnlyPlanesThroughServe parts w planes.now v }
{
    let mut core = TableCore::of(table, w, Moving::AnySide);
    for n in planes {
        let g = n.vector();
        if sign_dot(g, v) != Sign::Zero && !core.holds_on(table, w, g) {
            return false;
        }
    }
    true
}

/// The step of the set `w` of parts in a robust plan, if it is seen that `w` comes apart along one line alone. Where it
/// is not seen, nothing is known.
///
/// `w` is not empty, and lies in the table's set, which has at most [`MOST_CELL_PLANES`] planes. `first` is its step in
/// a plan that is not robust. By the law [`lone_line_serves`](crate::laws::lone_line_serves) no open cell and no edge
/// serves, and of the line's two points the one stands first in the order of signs whose first component other than 0
/// is negative. It fails for want of memory alone.
pub(crate) fn lone_step(
    alloc: Global,
    table: &PlaneTable,
    w: PartSet,
    first: Step,
) -> Result<Option<Marked>, OutOfMemory>
    requires within { IsSubset w table.now.of }
    requires some { IsNonempty w }
    requires few { length table.now.planes ≤ MOST_CELL_PLANES }
    requires size { IsWithin DIRECTION first.d }
    requires nonzero { first.d ≢ origin }
    requires step { (parts : List PartValue) → WasMadeFrom parts table.now
        → IsStep false parts w (try_vertex first.d) first.moved }
    ensures { IfOk result (λ found. IfSome found (λ m. IsSetStep true table.now w (Some m))) }
{
    let planes = table.planes_of(alloc, w)?;
    if !is_lone(table, w, planes.as_slice(), first.d) {
        return Ok(None);
    }
    let d = neg(canon(first.d));
    let graph = table.graph_in(w, d);
    let Some(moved) = side_of(&graph, w) else {
        return Ok(None);
    };
    Ok(Some(Marked {
        step: Step { moved, d },
        mark: Some(Kind::Point),
    }))
}
