//! Laws on what the planner finds. Each is a function that does nothing, and its contract is the law.
ghost use Rattle.std.specs.Prelude.{◌≡◌, ◌≢◌, ◌↔◌, ◌≤◌, ℕ, All, Bool, List, length, true};
ghost use Rattle.std.specs.FinSet as set;
ghost use Rattle.staat_limits.specs.{Versions.IsVersion, declared.limits.TheConstants.TEXT_LIMIT};
ghost use Rattle.staat_vec.specs.{Vectors.{cross, negative, origin}, declared.vector.TheConstants.DIRECTION};
ghost use Rattle.staat_vec.specs.declared.vector.V3.{V3 as Vector};
ghost use Rattle.staat_model.specs.{Assemblies.IsAssembly, Certify.IsCertificateOf};
ghost use Rattle.staat_model.specs.Outcomes.{AreTries, Finding, IsOutcome, IsStep, Serves, Try, planned, stuck};
ghost use Rattle.staat_model.specs.{Planes.ArePlanes, Plans.{IsStuck, Plan}, Sets.{IsSubset, below}, Texts.text_of};
ghost use Rattle.staat_model.specs.declared.assembly.Part.{Part as PartValue};
ghost use Rattle.staat_model.specs.declared.certificate.Certificate.{Certificate as CertificateValue};
ghost use Rattle.staat_model.specs.{declared.set.PartSet.PartSet as PartSetValue, declared.tree.Kind.Kind as KindValue};
ghost use Rattle.staat_certify.specs.Plans.{AreWithin};
ghost use Rattle.staat_plan.specs.{LoneLines.OnlyPlanesThroughServe, Marks.{HasOneMark, MarksHold}, Planning.Settles};

/// Some side of a set is free of the rest along a direction exactly where one is along the opposite direction.
#[tactic(auto, using(crate::proofs::Opposites::serves_both))]
pub fn opposite_serves()
    ensures { (parts : List PartValue) (w : PartSetValue) (d : Vector)
        → Serves parts w (negative d) ↔ Serves parts w d }
{}

/// A smaller set has no more planes.
pub fn fewer_planes()
    ensures { (parts : List PartValue) (w v : PartSetValue) (ps qs : List Vector)
        → IsSubset w v → ArePlanes parts w ps → ArePlanes parts v qs → length ps ≤ length qs }
{}

/// The plan of an outcome takes the set apart, and the set that an outcome names as stuck is stuck; of robust plans,
/// too.
#[tactic(auto, using(crate::proofs::Right::right_lemma))]
pub fn outcomes_are_right()
    ensures { (robust : Bool) (parts : List PartValue) (w : PartSetValue) (f : Finding)
        → IsAssembly parts → IsOutcome robust parts w f → Settles parts w f }
{}

/// The directions that are tried decide, in a plan that is not robust and in a robust one: a set of at least two parts
/// is stuck exactly where none of them serves it. So where no vertex serves a set, no representative of a cell does,
/// and the other way.
#[tactic(auto, using(crate::proofs::Tries::tries_decide_lemma))]
pub fn tries_decide()
    ensures { (robust : Bool) (parts : List PartValue) (w : PartSetValue) (tries : List Try)
        → IsAssembly parts → 2 ≤ set.len w → AreTries robust parts w tries
        → IsStuck parts w ↔ All (λ t. Serves parts w t.d → ⊥) tries }
{}

/// Where each plane of a set on which some direction serves passes through v, each direction that serves lies on the
/// line of v. So no edge and no open cell serves.
pub fn lone_line_serves()
    ensures { (parts : List PartValue) (w : PartSetValue) (planes : List Vector) (v d : Vector)
        → IsAssembly parts → ArePlanes parts w planes → v ≢ origin → OnlyPlanesThroughServe parts w planes v
        → Serves parts w d → cross d v ≡ origin }
{}

/// In a robust plan a step has one mark. It is an open cell only where the direction lies off all planes of the set, an
/// edge or a point only where no direction off all planes serves it, and a point only where each direction that serves
/// it is a positive multiple of a vertex.
pub fn mark_holds()
    ensures { (parts : List PartValue) (w : PartSetValue) (try : Try) (side : PartSetValue)
        → IsAssembly parts → IsStep true parts w try side → HasOneMark parts w try }
{}

/// A robust plan has one mark for each split, in preorder, and each of them says of the set that is split what the
/// mark of its step says.
#[tactic(auto, using(crate::proofs::MarkLemmas::marks_hold_lemma))]
pub fn marks_hold()
    ensures { (parts : List PartValue) (w : PartSetValue) (plan : Plan) (marks : List KindValue)
        → IsAssembly parts → IsOutcome true parts w (planned plan marks) → MarksHold parts plan marks }
{}

/// The directions of a plan that is found are within their bound, in a robust plan too.
#[tactic(auto, using(crate::proofs::OutcomeSizes::outcome_sized))]
pub fn outcome_is_sized()
    ensures { (robust : Bool) (parts : List PartValue) (w : PartSetValue) (plan : Plan) (marks : List KindValue) →
        IsAssembly parts → IsOutcome robust parts w (planned plan marks) → AreWithin DIRECTION plan }
{}

/// So a plan that is found, robust or not, has a certificate whose text is not too long.
pub fn outcome_has_certificate()
    ensures { (robust : Bool) (parts : List PartValue) (version : ℕ) (plan : Plan) (marks : List KindValue) →
        IsAssembly parts → IsVersion version → IsOutcome robust parts (below (length parts)) (planned plan marks) →
        (c : CertificateValue) × IsCertificateOf parts version (planned plan marks) c ×
        (length (text_of c) ≤ TEXT_LIMIT) }
{}
