//! Laws on moves that begin. Each is a function that does nothing, and its contract is the law.
ghost use Rattle.std.specs.Prelude.{◌≡◌, ◌↔◌, List, Option};
ghost use Rattle.staat_vec.specs.declared.vector.V3.{V3 as Vector};
ghost use Rattle.staat_model.specs.declared.assembly.Part.{Part as PartValue};
ghost use Rattle.staat_model.specs.declared.set.PartSet.{PartSet as PartSetValue};
ghost use Rattle.staat_model.specs.Meeting.{Meets};
ghost use Rattle.staat_model.specs.Pieces.{IsPiece};
ghost use Rattle.staat_model.specs.Plans.{IsStuck};
ghost use Rattle.staat_local.specs.Beginnings.{IsFoundIn, IsTight};
ghost use Rattle.staat_local.specs.Contacts.{Contact, Starts};
ghost use Rattle.staat_local.specs.declared.side.Loose.{Loose as LooseValue};

/// A piece collides with another as soon as it moves along a direction exactly where the two touch and the first, on
/// its way, meets the second.
pub fn starts_by_contact()
    ensures { (p q : List Vector) (d : Vector) → IsPiece p → IsPiece q
        → Starts p q d ↔ (Contact p q × Meets p q d) }
{}

/// A set of which no side begins to move away from the rest is stuck.
pub fn tight_is_stuck()
    ensures { (parts : List PartValue) (w : PartSetValue) → IsTight parts w → IsStuck parts w }
{}

/// Of a set of parts one beginning is found at most, and none where the set is tight.
pub fn one_beginning()
    ensures { (parts : List PartValue) (w : PartSetValue) (x y : Option LooseValue)
        → IsFoundIn parts w x → IsFoundIn parts w y → x ≡ y }
{}
