// Laws that what is defined is one alone. Each is a function that does nothing, and its contract is the law.
ghost use Rattle.std.specs.Prelude.{◌≡◌, ◌⊎◌, ℕ, Bool, List};
ghost use Rattle.staat_model.specs.declared.assembly.Part.{Part as PartValue};
ghost use Rattle.staat_model.specs.declared.certificate.Certificate.{Certificate as CertificateValue};
ghost use Rattle.staat_model.specs.declared.set.PartSet.{PartSet as PartSetValue};
ghost use Rattle.staat_model.specs.declared.verdict.Reason.{Reason as ReasonValue};
ghost use Rattle.staat_model.specs.declared.verdict.Verdict.{Verdict as VerdictValue};
ghost use Rattle.staat_model.specs.Certificates.{IsValidPlan, IsValidRefusal};
ghost use Rattle.staat_model.specs.Certify.{IsCertificateOf};
ghost use Rattle.staat_model.specs.Outcomes.{Finding, IsOutcome};
ghost use Rattle.staat_model.specs.Reasons.{IsReason, IsVerdict};
ghost use Rattle.staat_model.specs.Texts.{IsReading, IsTextOf, IsWellFormed, Reading};

/// A set of parts has one outcome, in a robust plan and in any other.
pub fn one_outcome()
    ensures { (robust : Bool) (parts : List PartValue) (w : PartSetValue) (f g : Finding)
        → IsOutcome robust parts w f
        → IsOutcome robust parts w g → f ≡ g }
{}

/// A certificate has one reason at most for which it is not valid.
pub fn one_reason()
    ensures { (parts : List PartValue) (c : CertificateValue) (r s : ReasonValue) → IsReason parts c r
        → IsReason parts c s → r ≡ s }
{}

/// A certificate that has a reason is no valid plan and no valid refusal.
pub fn no_reason_if_valid()
    ensures plan { (parts : List PartValue) (c : CertificateValue) (r : ReasonValue) → IsReason parts c r
        → IsValidPlan parts c → ⊥ }
    ensures refusal { (parts : List PartValue) (c : CertificateValue) (r : ReasonValue) → IsReason parts c r
        → IsValidRefusal parts c → ⊥ }
{}

/// A certificate has one verdict at most.
pub fn one_verdict()
    ensures { (parts : List PartValue) (c : CertificateValue) (v u : VerdictValue) → IsVerdict parts c v
        → IsVerdict parts c u → v ≡ u }
{}

/// A certificate that keeps its form has a verdict: where no reason applies, it is valid.
#[tactic(auto, using(crate::proofs::SomeVerdict::some_verdict_lemma, crate::proofs::SomeVerdict::valid_lemma))]
pub fn some_verdict()
    ensures verdict { (parts : List PartValue) (c : CertificateValue) → IsWellFormed c
        → (v : VerdictValue) × IsVerdict parts c v }
    ensures valid { (parts : List PartValue) (c : CertificateValue) → IsWellFormed c
        → ((r : ReasonValue) → IsReason parts c r → ⊥) → IsValidPlan parts c ⊎ IsValidRefusal parts c }
{}

/// An outcome has one certificate of each version.
pub fn one_certificate()
    ensures { (parts : List PartValue) (version : ℕ) (f : Finding) (c d : CertificateValue)
        → IsCertificateOf parts version f c → IsCertificateOf parts version f d → c ≡ d }
{}

/// Bytes have one reading at most: they are the text of one certificate, or have one first bad line, or are too short.
pub fn one_reading()
    ensures { (bytes : List ℕ) (r s : Reading) → IsReading bytes r → IsReading bytes s → r ≡ s }
{}

/// A certificate has one spelling.
pub fn one_spelling()
    ensures { (bytes other : List ℕ) (c : CertificateValue) → IsTextOf bytes c → IsTextOf other c
        → bytes ≡ other }
{}
