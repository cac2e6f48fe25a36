//! Laws on cores that hold nodes together. Each is a function that does nothing, and its contract is the law.
ghost use Rattle.std.specs.Prelude.{◌↔◌, ℕ, ◌≤◌, List, All, Option, length};
ghost use Rattle.std.specs.List.Sorted.{IsStrictlySortedBy};
ghost use Rattle.std.specs.Ordering.{nat_cmp};
ghost use Rattle.staat_model.specs.declared.assembly.Part.{Part as PartValue};
ghost use Rattle.staat_model.specs.declared.certificate.Arc.{Arc as ArcValue};
ghost use Rattle.staat_model.specs.declared.set.PartSet.{PartSet as PartSetValue};
ghost use Rattle.staat_model.specs.Assemblies.{IsPart};
ghost use Rattle.staat_model.specs.Groups.{AreNodes};
ghost use Rattle.staat_model.specs.Plans.{IsStuck};
ghost use Rattle.staat_model.specs.SetLists.{union_of};
ghost use Rattle.staat_model.specs.Sets.{Has};
ghost use Rattle.staat_holds.specs.declared.hold.BrokenHold.{BrokenHold as BrokenValue};
ghost use Rattle.staat_holds.specs.declared.hold.Hold.{Hold as HoldValue};
ghost use Rattle.staat_holds.specs.Chains.{AllKeep, IsFirstBroken, IsJoinedLast};
ghost use Rattle.staat_holds.specs.Holds.{AreNodeSets, IsCorePair, JoinsNodes};

/// Nodes are parts by themselves, and sets of parts that are stuck. Where a core holds them together wherever two of
/// its planes cross, all of their parts together are stuck.
pub fn held_nodes_stick()
    ensures { (parts : List PartValue) (nodes : List (Option ℕ)) (count : ℕ) (core : List ArcValue)
        (sets : List PartSetValue) → All IsPart parts → All (IsCorePair parts nodes count) core
        → AreNodeSets nodes count sets → AreNodes parts sets → JoinsNodes parts nodes count core
        → IsStuck parts (union_of sets) }
{}

/// Where all holds of a list, one at least, keep the rules, the parts that the last of them joins are stuck together.
pub fn joined_parts_stick()
    ensures { (parts : List PartValue) (holds : List HoldValue) (w : PartSetValue) → All IsPart parts
        → All (λ hold. IsStrictlySortedBy nat_cmp hold.nodes) holds → AllKeep parts holds → 1 ≤ length holds
        → ((p : ℕ) → Has w p ↔ IsJoinedLast parts holds p) → IsStuck parts w }
{}

/// Holds of which one is the first that breaks a rule do not all keep them.
pub fn broken_holds_break()
    ensures { (parts : List PartValue) (holds : List HoldValue) (broken : BrokenValue)
        → IsFirstBroken parts holds broken → AllKeep parts holds → ⊥ }
{}
