// Copies of holds.
ghost use Rattle.std.specs.Prelude.{◌≡◌, IfOk};

use staat_holds::{Hold, Holds};
use staat_model::Arcs;
use staat_vec::{Listed, OutOfMemory};
use std::alloc::Global;

// a copy of a hold
fn copied_hold(alloc: Global, hold: &Hold) -> Result<Hold, OutOfMemory>
    ensures { IfOk result (λ copy. copy ≡ hold.now) }
{
    let mut nodes = Vec::new(alloc);
    nodes.extend_from_slice(hold.nodes.as_slice())?;
    let mut pairs = Vec::new(alloc);
    pairs.extend_from_slice(hold.pairs.as_slice())?;
    Ok(Hold {
        nodes: Listed::from_vec(nodes),
        pairs: Arcs::from_vec(pairs),
    })
}

/// A copy of all holds.
pub fn copied_holds(alloc: Global, holds: &[Hold]) -> Result<Holds, OutOfMemory>
    ensures { IfOk result (λ copy. copy ≡ holds.now) }
{
    let mut copy = Vec::new(alloc);
    for hold in holds {
        copy.push(copied_hold(alloc, hold)?)?;
    }
    Ok(Holds::from_vec(copy))
}
