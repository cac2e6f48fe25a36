// Laws on assemblies, their planes and their plans. Each is a function that does nothing, and its contract is the law.
ghost use Rattle.std.specs.Prelude.{◌≡◌, ◌≤◌, ◌↔◌, ◌∷◌, ℕ, List, Contains, length};
ghost use Rattle.std.specs.FinSet as set;
ghost use Rattle.staat_vec.specs.declared.vector.V3.{V3 as Vector};
ghost use Rattle.staat_vec.specs.Vectors.{negative};
ghost use Rattle.staat_model.specs.declared.assembly.Part.{Part as PartValue};
ghost use Rattle.staat_model.specs.declared.set.PartSet.{PartSet as PartSetValue};
ghost use Rattle.staat_model.specs.Sets.{AreApart, Has, IsSide, IsSubset, below};
ghost use Rattle.staat_model.specs.Assemblies.{IsAssembly};
ghost use Rattle.staat_model.specs.Removal.{Blocks, IsFree};
ghost use Rattle.staat_model.specs.Plans.{IsGood, IsStuck, Plan};
ghost use Rattle.staat_model.specs.Planes.{ArePlanes, vertices};
ghost use Rattle.staat_model.specs.Cells.{IsBorder, signs_of};
ghost use Rattle.staat_model.specs.declared.certificate.Dir.{Dir as DirValue};
ghost use Rattle.staat_model.specs.declared.certificate.Node.{Node as NodeValue};
ghost use Rattle.staat_model.specs.declared.certificate.Witness.{Witness as WitnessValue};
ghost use Rattle.staat_model.specs.declared.certificate.Certificate.{Certificate as CertificateValue};
ghost use Rattle.staat_model.specs.declared.tree.Kind.{Kind as KindValue};
ghost use Rattle.staat_model.specs.Certificates.{IsValidPlan, IsValidRefusal, PlanHolds, RefusalHolds, WalledPlan};
ghost use Rattle.staat_model.specs.Certificates.{nodes_of, unwalled};
ghost use Rattle.staat_model.specs.Certify.{IsCertificateOf};
ghost use Rattle.staat_model.specs.Outcomes.{planned, stuck};
ghost use Rattle.staat_model.specs.Borders.{HasFreeVertex};
ghost use Rattle.staat_model.specs.SetLists.{union_of};
ghost use Rattle.staat_model.specs.Leaving.{AreGoodPlans, IsLeavingOrder, LeaveInTurn, in_turn};

/// A set of parts that is stuck rules out every plan of every set that holds it.
pub fn restrict()
    ensures { (parts : List PartValue) (a w : PartSetValue) → IsStuck parts a → IsSubset a w → (plan : Plan)
        → IsGood parts w plan → ⊥ }
{}

/// The blocking graph at the opposite direction is the reversed graph.
#[tactic(auto, using(crate::proofs::GraphLemmas::opposite_blocks_lemma))]
pub fn opposite_graph()
    ensures { (parts : List PartValue) (d : Vector) (a b : ℕ)
        → Blocks parts (negative d) a b ↔ Blocks parts d b a }
{}

/// On the border of a cell no part of the set blocks another that it does not block in the cell.
pub fn graph_on_border()
    ensures { (parts : List PartValue) (w : PartSetValue) (planes : List Vector) (d v : Vector) → IsAssembly parts
        → ArePlanes parts w planes → IsBorder (signs_of planes v) (signs_of planes d) → (a b : ℕ) → Has w a
        → Has w b
        → Blocks parts v a b → Blocks parts d a b }
{}

/// Directions with the same signs have the same blocking graph among the parts of the set.
pub fn graph_of_cell()
    ensures { (parts : List PartValue) (w : PartSetValue) (planes : List Vector) (d e : Vector) → IsAssembly parts
        → ArePlanes parts w planes → signs_of planes d ≡ signs_of planes e → (a b : ℕ) → Has w a
        → Has w b
        → Blocks parts d a b ↔ Blocks parts e a b }
{}

/// Vertices decide: parts of a set that are free of others of the set along some direction are free of them along a
/// vertex of the set's planes.
pub fn vertices_decide()
    ensures { (parts : List PartValue) (w s r : PartSetValue) (planes : List Vector) (d : Vector) → IsAssembly parts
        → ArePlanes parts w planes → IsSubset s w → IsSubset r w → AreApart s r → IsFree parts s r d
        → HasFreeVertex parts planes s r }
{}

/// A set of at least two parts is stuck if at each vertex of its planes no side of it is free of the rest.
pub fn stuck_at_vertices()
    ensures { (parts : List PartValue) (w : PartSetValue) (planes : List Vector) → IsAssembly parts
        → ArePlanes parts w planes → 2 ≤ set.len w
        → ((v : Vector) (s : PartSetValue) → Contains (vertices planes) v → IsSide w s
        → IsFree parts s (set.difference w s) v → ⊥)
        → IsStuck parts w }
{}

/// A certificate's plan that keeps its rules takes all parts of the assembly apart, and at no split do the two sides
/// ever meet.
pub fn plan_is_right()
    ensures { (parts : List PartValue) (stated : ℕ) (nodes : List NodeValue) → IsAssembly parts
        → PlanHolds parts stated nodes
        → (tree : WalledPlan) × (nodes ≡ nodes_of tree) × IsGood parts (below (length parts)) (unwalled tree) }
{}

/// A certificate's refusal that keeps its rules names a set that is stuck, and no plan takes all parts apart: from the
/// root no part of a side that is free is reached, or all parts are. In version 2 one of two opposite directions is
/// enough: a side that is free of the rest along one leaves the rest free of it along the other.
pub fn refusal_is_right()
    ensures { (parts : List PartValue) (version stated : ℕ) (w : PartSetValue) (witnesses : List WitnessValue)
        (dirs : List DirValue) → IsAssembly parts → RefusalHolds parts version stated w witnesses dirs
        → IsStuck parts w × ((plan : Plan) → IsGood parts (below (length parts)) plan → ⊥) }
{}

/// The certificate of an outcome is valid: that of a plan that takes all parts apart, and that of a set of parts that
/// is stuck.
pub fn certificates_are_valid()
    ensures plan { (parts : List PartValue) (version : ℕ) (plan : Plan) (marks : List KindValue)
        (c : CertificateValue)
        → IsGood parts (below (length parts)) plan → IsCertificateOf parts version (planned plan marks) c
        → IsValidPlan parts c }
    ensures refusal { (parts : List PartValue) (version : ℕ) (w : PartSetValue) (c : CertificateValue)
        → IsAssembly parts → IsStuck parts w → IsCertificateOf parts version (stuck w) c
        → IsValidRefusal parts c }
{}

/// Sets of parts, of which none blocks along d a later one, leave along d one after the other: each is free of all the
/// later ones together.
#[tactic(auto, using(crate::proofs::LeavingLemmas::leave_in_turn_lemma))]
pub fn leave_in_turn()
    ensures { (parts : List PartValue) (d : Vector) (sets : List PartSetValue) → IsLeavingOrder parts d sets
        → LeaveInTurn parts d sets }
{}

/// So a plan that splits them off along d one after the other, and goes on within each by a good plan of its own,
/// takes them all apart.
#[tactic(auto, using(crate::proofs::LeavingLemmas::plans_in_turn_lemma))]
pub fn plans_in_turn()
    ensures { (parts : List PartValue) (d : Vector) (s : PartSetValue) (sets : List PartSetValue) (plan : Plan)
        (plans : List Plan)
        → IsLeavingOrder parts d (s ∷ sets) → AreGoodPlans parts (s ∷ sets) (plan ∷ plans)
        → IsGood parts (union_of (s ∷ sets)) (in_turn d plan plans) }
{}
