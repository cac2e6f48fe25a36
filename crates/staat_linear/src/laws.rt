//! Laws on orders. Each is a function that does nothing, and its contract is the law.
ghost use Rattle.std.specs.Prelude.{◌≡◌, ℕ, List};
ghost use Rattle.staat_model.specs.declared.assembly.Part.{Part as PartValue};
ghost use Rattle.staat_model.specs.declared.set.PartSet.{PartSet as PartSetValue};
ghost use Rattle.staat_model.specs.Sets.{IsSubset};
ghost use Rattle.staat_linear.specs.declared.order.Leave.{Leave as LeaveValue};
ghost use Rattle.staat_linear.specs.declared.order.Order.{Order as OrderValue};
ghost use Rattle.staat_linear.specs.Orders.{IsChosen, IsGoodOrder, IsLocked};

/// A set that is locked rules out every order of every set that holds it.
pub fn locked_within()
    ensures { (parts : List PartValue) (a w : PartSetValue) (leaves : List LeaveValue) (last : ℕ)
        → IsLocked parts a → IsSubset a w → IsGoodOrder parts w leaves last → ⊥ }
{}

/// A set of parts has one chosen order.
pub fn one_order()
    ensures { (parts : List PartValue) (w : PartSetValue) (a b : OrderValue) → IsChosen parts w a
        → IsChosen parts w b → a ≡ b }
{}
