//! Laws on certificates that are made. Each is a function that does nothing, and its contract is the law.
ghost use Rattle.std.specs.Prelude.{◌≡◌, ◌≤◌, ℕ, All, List, length, map, take};
ghost use Rattle.staat_limits.specs.Versions.{IsVersion};
ghost use Rattle.staat_limits.specs.declared.limits.TheConstants.{TEXT_LIMIT};
ghost use Rattle.staat_vec.specs.declared.vector.V3.{V3 as Vector};
ghost use Rattle.staat_vec.specs.declared.vector.TheConstants.{DIRECTION};
ghost use Rattle.staat_model.specs.declared.assembly.Part.{Part as PartValue};
ghost use Rattle.staat_model.specs.declared.certificate.Certificate.{Certificate as CertificateValue};
ghost use Rattle.staat_model.specs.declared.certificate.Witness.{Witness as WitnessValue};
ghost use Rattle.staat_model.specs.declared.set.PartSet.{PartSet as PartSetValue};
ghost use Rattle.staat_model.specs.Assemblies.{IsAssembly};
ghost use Rattle.staat_model.specs.Bridges.{swapped};
ghost use Rattle.staat_model.specs.Certificates.{inward, outward};
ghost use Rattle.staat_model.specs.Certify.{IsCertificateOf, IsLeastArc, IsWitnessAt};
ghost use Rattle.staat_model.specs.declared.tree.Kind.{Kind as KindValue};
ghost use Rattle.staat_model.specs.Outcomes.{planned, stuck};
ghost use Rattle.staat_model.specs.Plans.{IsGood, IsStuck, Plan};
ghost use Rattle.staat_model.specs.Sets.{IsLeastOf, below};
ghost use Rattle.staat_model.specs.Texts.{text_of};
ghost use Rattle.staat_graph.specs.declared.trees.Trees.{Trees as TreesValue};
ghost use Rattle.staat_graph.specs.Blocking.{ShowsBlocking};
ghost use Rattle.staat_graph.specs.Graphs.{AreTrees, HasArc};
ghost use Rattle.staat_certify.specs.Plans.{AreWithin};

/// Arcs with the ends of the trees of a graph that shows who blocks whom along a direction, each with the least
/// pieces, are the witness of the direction.
pub fn witness_of_trees()
    ensures { (parts : List PartValue) (d : Vector) (w : PartSetValue) (rows : List ℕ) (trees : TreesValue)
        (root : ℕ) (witness : WitnessValue)
        → ShowsBlocking parts d w rows → AreTrees (HasArc rows) w trees → IsLeastOf w root
        → map outward witness.outs ≡ take trees.count trees.outs
        → map inward witness.ins ≡ map swapped (take trees.count trees.ins)
        → All (IsLeastArc parts d) witness.outs → All (IsLeastArc parts d) witness.ins
        → IsWitnessAt parts w d witness }
{}

/// A plan that takes all parts apart has a certificate.
pub fn plan_has_certificate()
    ensures { (parts : List PartValue) (version : ℕ) (plan : Plan) (marks : List KindValue) →
        IsAssembly parts → IsGood parts (below (length parts)) plan →
        (c : CertificateValue) × IsCertificateOf parts version (planned plan marks) c }
{}

/// The text of the certificate of a plan is never too long, where the directions of the plan are within their bound: a
/// plan has at most 63 nodes, a split at most one wall for each two of the 64 pieces, and a line has at most 128 bytes.
pub fn plan_certificate_is_short()
    ensures { (parts : List PartValue) (version : ℕ) (plan : Plan) (marks : List KindValue) (c : CertificateValue) →
        IsAssembly parts → IsVersion version → IsGood parts (below (length parts)) plan →
        AreWithin DIRECTION plan → IsCertificateOf parts version (planned plan marks) c →
        length (text_of c) ≤ TEXT_LIMIT }
{}

/// A set that is stuck has a certificate, too, in each version.
pub fn refusal_has_certificate()
    ensures { (parts : List PartValue) (version : ℕ) (w : PartSetValue) →
        IsAssembly parts → IsStuck parts w → (c : CertificateValue) × IsCertificateOf parts version (stuck w) c }
{}
