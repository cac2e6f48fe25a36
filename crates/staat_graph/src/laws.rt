//! Laws on graphs and on the sides that are free. Each is a function that does nothing, and its contract is the law.
ghost use Rattle.std.specs.Prelude.{◌≡◌, ◌≢◌, ℕ, ◌↔◌, List, length};
ghost use Rattle.std.specs.FinSet as set;
ghost use Rattle.staat_vec.specs.declared.vector.V3.{V3 as Vector};
ghost use Rattle.staat_vec.specs.Vectors.{origin};
ghost use Rattle.staat_model.specs.declared.assembly.Part.{Part as PartValue};
ghost use Rattle.staat_model.specs.declared.set.PartSet.{PartSet as PartSetValue};
ghost use Rattle.staat_model.specs.Outcomes.{IsMinimal, IsMovedSide, Serves};
ghost use Rattle.staat_model.specs.Removal.{IsFree};
ghost use Rattle.staat_model.specs.Sets.{IsNonempty, IsSubset};
ghost use Rattle.staat_graph.specs.Blocking.{ShowsBlocking};
ghost use Rattle.staat_graph.specs.Graphs.{AreGroups, HasArc, IsFirstSink, IsShut, IsSink, IsStrong};

/// A set is strong exactly where it has one group.
pub fn strong_is_one_group()
    ensures { (rows : List ℕ) (w : PartSetValue) (groups : List PartSetValue) → IsNonempty w
        → AreGroups (HasArc rows) w groups → IsStrong (HasArc rows) w ↔ (length groups ≡ 1) }
{}

/// Parts of a set are free of the rest along a direction exactly where no arc of the blocking graph leaves them.
pub fn free_is_shut()
    ensures { (parts : List PartValue) (d : Vector) (w s : PartSetValue) (rows : List ℕ) → d ≢ origin
        → ShowsBlocking parts d w rows → IsSubset s w
        → IsFree parts s (set.difference w s) d ↔ IsShut (HasArc rows) w s }
{}

/// The free sides of which no side is free are the groups that no arc leaves.
pub fn minimal_sides_are_sinks()
    ensures { (parts : List PartValue) (d : Vector) (w s : PartSetValue) (rows : List ℕ) → d ≢ origin
        → ShowsBlocking parts d w rows → IsMinimal parts w d s ↔ IsSink (HasArc rows) w s }
{}

/// The side that moves is the group that no arc leaves, of several the one with the least part.
pub fn moved_side_is_first_sink()
    ensures { (parts : List PartValue) (d : Vector) (w s : PartSetValue) (rows : List ℕ) → d ≢ origin
        → ShowsBlocking parts d w rows → IsMovedSide parts w d s ↔ IsFirstSink (HasArc rows) w s }
{}

/// Some side of a set is free of the rest along a direction exactly where the blocking graph is not strong.
pub fn serves_where_not_strong()
    ensures { (parts : List PartValue) (d : Vector) (w : PartSetValue) (rows : List ℕ) → d ≢ origin
        → ShowsBlocking parts d w rows → Serves parts w d ↔ (IsStrong (HasArc rows) w → ⊥) }
{}
