//! Laws on rings. Each is a function that does nothing, and its contract is the law.
ghost use Rattle.std.specs.Prelude.{◌≡◌, ◌↔◌, ℕ, [], List};
ghost use Rattle.staat_vec.specs.declared.vector.V3.{V3 as Vector};
ghost use Rattle.staat_model.specs.declared.assembly.Part.{Part as PartValue};
ghost use Rattle.staat_model.specs.declared.certificate.Arc.{Arc as ArcValue};
ghost use Rattle.staat_model.specs.declared.set.PartSet.{PartSet as SetValue};
ghost use Rattle.staat_model.specs.Removal.{Blocks};
ghost use Rattle.staat_model.specs.Sets.{Has};
ghost use Rattle.staat_pairs.specs.Tables.{AreTablePlanes, IsTableArc, Table};
ghost use Rattle.staat_ring.specs.Belonging.{IsCountedAt};
ghost use Rattle.staat_ring.specs.Laws.{AreOtherPlanes, AreRelinked, AreRingsOfSet, AreUnlinked, HasNoAxis};
ghost use Rattle.staat_ring.specs.Laws.{HoldsAllSigns};
ghost use Rattle.staat_ring.specs.Rings.{Arrangement, WereMadeFrom};
ghost use Rattle.staat_ring.specs.CountedSigns.{HasBlockingPair};
ghost use Rattle.staat_ring.specs.Walked.{Walked};

/// Planes that were unlinked and are relinked in the reverse order leave the rings as they were.
#[tactic(auto, using(crate::proofs::Made::undone))]
pub fn undone()
    ensures { (ps : List ℕ) (a b c : Arrangement) → AreUnlinked ps a b → AreRelinked ps b c → c ≡ a }
{}

/// Once all other planes are unlinked, the circles are those of the planes of a set of parts.
pub fn rings_of_a_set()
    ensures { (parts : List PartValue) (w : SetValue) (planes : List Vector) (ps : List ℕ) (a b : Arrangement)
        → AreTablePlanes planes → WereMadeFrom planes a → a.unlinked ≡ [] → HasNoAxis ps
        → AreOtherPlanes parts w planes ps → AreUnlinked ps a b → AreRingsOfSet parts w planes b }
{}

/// What it means that a walk was made from a table: once the linked planes have their signs at a direction, it counts,
/// of each ordered pair of pieces whose planes are all linked, the facets that are positive there. Of two parts whose
/// planes are all linked, some pair of pieces has positive facets alone exactly where the one blocks the other there.
pub fn walk_of_a_table()
    ensures counts { (parts : List PartValue) (t : Table) (walk : Walked) (v : Vector) (w : SetValue)
        → HoldsAllSigns parts t walk v w → (arc : ArcValue) → IsTableArc t arc → Has w arc.a → Has w arc.b
        → IsCountedAt v t walk.signs arc }
    ensures blocks { (parts : List PartValue) (t : Table) (walk : Walked) (v : Vector) (w : SetValue)
        → HoldsAllSigns parts t walk v w → (a b : ℕ) → Has w a → Has w b
        → HasBlockingPair walk.signs a b ↔ Blocks parts v a b }
{}
