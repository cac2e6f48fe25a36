// Laws on sets that a few arcs hold together. Each is a function that does nothing, and its contract is the law.
ghost use Rattle.std.specs.Prelude.{◌≡◌, ◌≢◌, ◌≤◌, ℕ, List, All, pos};
ghost use Rattle.std.specs.FinSet as set;
ghost use Rattle.staat_vec.specs.declared.vector.V3.{V3 as Vector};
ghost use Rattle.staat_vec.specs.Vectors.{dot, origin};
ghost use Rattle.staat_model.specs.declared.assembly.Part.{Part as PartValue};
ghost use Rattle.staat_model.specs.declared.set.PartSet.{PartSet as PartSetValue};
ghost use Rattle.staat_model.specs.declared.certificate.Arc.{Arc as ArcValue};
ghost use Rattle.staat_model.specs.Assemblies.{IsPart};
ghost use Rattle.staat_model.specs.Cores.{HasCorePlanes, HoldsAtCrossings, HoldsAtVertices, HoldsTogether};
ghost use Rattle.staat_model.specs.Cores.{IsFreeAtCrossing, IsFreeAtVertex, IsFreeInCore};
ghost use Rattle.staat_model.specs.Groups.{AreNodes, HoldsNodes, HoldsNodesAtCrossings, HoldsNodesAtVertices};
ghost use Rattle.staat_model.specs.Outcomes.{Serves};
ghost use Rattle.staat_model.specs.Plans.{IsStuck};
ghost use Rattle.staat_model.specs.Removal.{IsFree};
ghost use Rattle.staat_model.specs.SetLists.{union_of};
ghost use Rattle.staat_model.specs.Sets.{Has, IsSubset};

/// What is free of another set along some direction, as far as a core tells, is so along a vertex of the core's own
/// planes. The sets may be any: a side of a set and its rest, or a single part and all others.
pub fn free_at_vertex()
    ensures { (parts : List PartValue) (core : List ArcValue) (planes : List Vector) (s r : PartSetValue)
        (d : Vector) → All IsPart parts → HasCorePlanes parts core planes → d ≢ origin
        → IsFreeInCore parts core s r d → IsFreeAtVertex parts core planes s r }
{}

/// What is free of another set along some direction on the plane of g, as far as a core tells, is so along a direction
/// in which that plane crosses one of the core's own planes.
#[tactic(auto, using(crate::proofs::CoreLemmas::free_at_crossing_lemma))]
pub fn free_at_crossing()
    ensures { (parts : List PartValue) (core : List ArcValue) (planes : List Vector) (g : Vector)
        (s r : PartSetValue) (d : Vector) → All IsPart parts → HasCorePlanes parts core planes → g ≢ origin
        → d ≢ origin → dot g d ≡ pos 0
        → IsFreeInCore parts core s r d → IsFreeAtCrossing parts core planes g s r }
{}

/// A core that holds a set of parts together at each vertex of the core's own planes does so along each direction. So
/// the set is stuck, if it has two parts.
pub fn core_holds()
    ensures holds { (parts : List PartValue) (core : List ArcValue) (w : PartSetValue) (planes : List Vector)
        (d : Vector) → All IsPart parts → HasCorePlanes parts core planes
        → HoldsAtVertices parts core w planes → d ≢ origin → HoldsTogether parts core w d }
    ensures stuck { (parts : List PartValue) (core : List ArcValue) (w : PartSetValue) (planes : List Vector)
        → All IsPart parts → 2 ≤ set.len w → HasCorePlanes parts core planes
        → HoldsAtVertices parts core w planes → IsStuck parts w }
{}

/// A core that holds a set of parts together wherever the plane of g crosses one of the core's own planes does so
/// along each direction on that plane. So none of them serves the set.
pub fn core_holds_on_plane()
    ensures holds { (parts : List PartValue) (core : List ArcValue) (w : PartSetValue) (planes : List Vector)
        (g d : Vector) → All IsPart parts → HasCorePlanes parts core planes → g ≢ origin
        → HoldsAtCrossings parts core w g planes
        → d ≢ origin → dot g d ≡ pos 0 → HoldsTogether parts core w d }
    ensures none { (parts : List PartValue) (core : List ArcValue) (w : PartSetValue) (planes : List Vector)
        (g d : Vector) → All IsPart parts → HasCorePlanes parts core planes → g ≢ origin
        → HoldsAtCrossings parts core w g planes
        → dot g d ≡ pos 0 → Serves parts w d → ⊥ }
{}

/// A set of parts that is stuck stays together: where parts of a set that holds it are free of the rest, they have all
/// of it or none of it.
pub fn stuck_moves_whole()
    ensures { (parts : List PartValue) (a w s : PartSetValue) (d : Vector) (p q : ℕ) → IsStuck parts a
        → IsSubset a w → IsFree parts s (set.difference w s) d → Has a p → Has a q → Has s p → Has s q }
{}

/// Nodes are parts by themselves, and sets of parts that are stuck. A core that holds them together at each vertex of
/// its own planes does so along each direction. Then all of them together are stuck: a side that is free keeps each
/// node whole.
pub fn nodes_stick()
    ensures holds { (parts : List PartValue) (core : List ArcValue) (nodes : List PartSetValue)
        (planes : List Vector) (d : Vector) → All IsPart parts → HasCorePlanes parts core planes
        → HoldsNodesAtVertices parts core nodes planes → d ≢ origin → HoldsNodes parts core nodes d }
    ensures stuck { (parts : List PartValue) (core : List ArcValue) (nodes : List PartSetValue)
        (planes : List Vector) → All IsPart parts → AreNodes parts nodes → HasCorePlanes parts core planes
        → HoldsNodesAtVertices parts core nodes planes → IsStuck parts (union_of nodes) }
{}

/// Nodes that a core holds together wherever the plane of g crosses one of the core's own planes are held together
/// along each direction on that plane. So none of them serves all nodes together.
pub fn nodes_hold_on_plane()
    ensures holds { (parts : List PartValue) (core : List ArcValue) (nodes : List PartSetValue)
        (planes : List Vector) (g d : Vector) → All IsPart parts → HasCorePlanes parts core planes → g ≢ origin
        → HoldsNodesAtCrossings parts core nodes g planes
        → d ≢ origin → dot g d ≡ pos 0 → HoldsNodes parts core nodes d }
    ensures none { (parts : List PartValue) (core : List ArcValue) (nodes : List PartSetValue)
        (planes : List Vector) (g d : Vector) → All IsPart parts → AreNodes parts nodes
        → HasCorePlanes parts core planes → g ≢ origin → HoldsNodesAtCrossings parts core nodes g planes
        → dot g d ≡ pos 0 → Serves parts (union_of nodes) d → ⊥ }
{}
