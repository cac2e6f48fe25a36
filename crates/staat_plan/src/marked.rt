// A step, with the mark that it has in a robust plan, and the side that moves in it.
ghost use Rattle.std.specs.Prelude.{◌≢◌, List, IfSome, MatchOption};
ghost use Rattle.staat_vec.specs.{Vectors.origin, declared.vector.V3.V3 as Vector};
ghost use Rattle.staat_model.specs.{Outcomes.{IsMovedSide, Serves}, Sets.{IsNonempty, IsSide}};
ghost use Rattle.staat_model.specs.declared.assembly.Part.{Part as PartValue};
ghost use Rattle.staat_graph.specs.Blocking.{ShowsBlocking};

use staat_graph::{Graph, is_strong, sink_of};
use staat_model::{Kind, PartSet, Step};

/// A step, with the kind of its cell where the plan is robust.
#[derive(Clone, Copy)]
pub(crate) struct Marked {
    pub(crate) step: Step,
    pub(crate) mark: Option<Kind>,
}

/// The side of `w` that moves along a direction with this blocking graph, if one does. `w` is not empty.
pub(crate) fn side_of(graph: &Graph, w: PartSet) -> Option<PartSet>
    requires { IsNonempty w }
    ensures side { IfSome result (IsSide w) }
    ensures moves { (parts : List PartValue) (d : Vector) → d ≢ origin → ShowsBlocking parts d w graph.now.rows
        → MatchOption result (Serves parts w d → ⊥) (λ s. Serves parts w d × IsMovedSide parts w d s) }
{
    if is_strong(graph, w) {
        None
    } else {
        Some(sink_of(graph, w))
    }
}
