// Ways between nodes.
ghost use Rattle.std.specs.Prelude.{◌≡◌, ◌⊎◌, ◌↔◌, ℕ, IfOk, IsTrue, OnOk, map};
ghost use Rattle.staat_holds.specs.VisitedNodes.{HasWay, turned_way};

use std::alloc::{AllocError, Global};

/// A way from one node to another.
#[derive(Clone, Copy, PartialEq, Eq)]
pub struct Way {
    pub from: u32,
    pub to: u32,
}

/// The ways turned round.
pub fn turned(alloc: Global, ways: &[Way]) -> Result<Vec<Way>, AllocError>
    ensures { IfOk result (λ back. back.items ≡ map turned_way ways.now) }
{
    let mut back = Vec::new(alloc);
    for way in ways {
        back.push(Way {
            from: way.to,
            to: way.from,
        })?;
    }
    Ok(back)
}

/// Adds a way, if it is open.
pub fn add_way(ways: &mut Vec<Way>, is_open: bool, from: u32, to: u32) -> Result<(), AllocError>
    ensures { OnOk result ((x y : ℕ) → HasWay ways.new.items x y
        ↔ (HasWay ways.old.items x y ⊎ (IsTrue is_open × (from ≡ x) × (to ≡ y)))) }
{
    if is_open {
        ways.push(Way { from, to })?;
    }
    Ok(())
}
