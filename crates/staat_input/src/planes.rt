// The planes of all parts.
ghost use Rattle.std.specs.Prelude.{◌≡◌, ◌≤◌, IfErr, IfOk};
ghost use Rattle.staat_limits.specs.declared.limits.TheConstants.{LEAST_PLANES, MOST_PLANES};
ghost use Rattle.staat_pairs.specs.Tables.{WasMadeFrom};
ghost use Rattle.staat_input.specs.Counting.{AreCounted, all_parts};
ghost use Rattle.staat_input.specs.Work.{Follows};
ghost use Rattle.staat_input.specs.Causes.{HasCause, ShelfSide};

use crate::refusals::planes_fault;
use staat_cone::Scan;
use staat_fault::Fault;
use staat_model::{PartSet, Sound};
use staat_planes::{PlaneTable, tabulate};
use std::alloc::Global;

/// The table of the planes of all parts, of which there may be at most `limit`.
#[tactic(auto, using(crate::proofs::CountingLemmas::counting))]
pub fn table_of(alloc: Global, sound: &Sound, limit: u32) -> Result<PlaneTable, Fault>
    requires least { LEAST_PLANES ≤ limit }
    requires most { limit ≤ MOST_PLANES }
    ensures counted { IfOk result (λ table. AreCounted sound.now limit (Ok table.planes)) }
    ensures made { IfOk result (WasMadeFrom sound.now) }
    ensures all { IfOk result (λ table. table.of ≡ all_parts sound.now) }
    ensures refused { IfErr result (λ fault. Follows (AreCounted sound.now limit) (Err fault)) }
    ensures cause { (shelf : ShelfSide) → IfErr result (HasCause shelf) }
{
    let all = PartSet::first(sound.assembly().parts());
    match tabulate(alloc, &Scan, sound, all, limit) {
        Ok(table) => Ok(table),
        Err(refusal) => Err(planes_fault(refusal)),
    }
}
