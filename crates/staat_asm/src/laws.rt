//! Laws over overlaps. Each is a function that does nothing, and its contract is the law.
ghost use Rattle.std.specs.Prelude.{◌≡◌, ◌↔◌, List};
ghost use Rattle.staat_model.specs.declared.assembly.Part.{Part as Parted};
ghost use Rattle.staat_model.specs.declared.certificate.Arc.{Arc as Pair};
ghost use Rattle.staat_model.specs.Assemblies.{IsSound};
ghost use Rattle.staat_asm.specs.Overlaps.{IsOverlap, IsFirstOverlap};

/// Parts are sound exactly where no two pieces overlap whose parts are named in ascending order: overlap is mutual.
pub fn sound_by_order()
    ensures { (parts : List Parted) → IsSound parts ↔ ((arc : Pair) → IsOverlap parts arc → ⊥) }
{}

/// There is one first overlap.
pub fn one_first_overlap()
    ensures { (parts : List Parted) (one other : Pair) →
        IsFirstOverlap parts one → IsFirstOverlap parts other → one ≡ other }
{}
