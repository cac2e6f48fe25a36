// The order of an assembly.
ghost use Rattle.std.specs.Prelude.{◌≡◌, ◌≤◌, List, IfOk, MatchResult, length};
ghost use Rattle.staat_model.specs.declared.assembly.Part.{Part as PartValue};
ghost use Rattle.staat_model.specs.Sets.{IsNonempty, IsSubset, below};
ghost use Rattle.staat_pairs.specs.Tables.{WasMadeFrom};
ghost use Rattle.staat_planes.specs.Refusals.{IsPlanesRefusal};
ghost use Rattle.staat_linear.specs.Orders.{HasTableWithin, IsChosen, SettlesOrder};

use crate::order::{Leaves, Order};
use crate::step::linear_step;
use staat_cone::FacetSource;
use staat_limits::{LEAST_PLANES, MOST_PLANES};
use staat_model::{PartSet, Sound};
use staat_planes::{PlaneTable, PlanesRefusal, tabulate};
use staat_vec::OutOfMemory;
use std::alloc::Global;

/// Why there is no order.
pub type LinearRefusal = PlanesRefusal;

// the chosen order of the parts of w, or the parts that are left when none can be taken
fn order_of(alloc: Global, table: &PlaneTable, w: PartSet) -> Result<Order, OutOfMemory>
    requires some { IsNonempty w }
    requires within { IsSubset w table.now.of }
    ensures { IfOk result (λ order. (parts : List PartValue) → WasMadeFrom parts table.now
        → IsChosen parts w order) }
{
    let mut leaves = Vec::new(alloc);
    let mut left = w;
    while left.count() > 1 {
        let Some(leave) = linear_step(table, left) else {
            return Ok(Order::Locked(left));
        };
        // all members are below the number of bits
        let _bits = left.bits();
        left = left.without(PartSet::single(leave.part));
        leaves.push(leave)?;
    }
    Ok(Order::Whole {
        leaves: Leaves::from_vec(leaves),
        last: left.least(),
    })
}

/// The chosen order of an assembly: in what order its parts are taken away, one at a time, each free of all that are
/// left; or the set of parts at which none can be taken.
///
/// Each step is that of [`linear_step`](crate::linear_step). There are at most `planes` planes, from 3 to
/// [`MOST_PLANES`]; [`TooManyPlanes`](PlanesRefusal::TooManyPlanes) comes exactly where all parts together have more,
/// with their number. The facets of each two pieces are asked of `source` once.
pub fn linear<F: FacetSource>(
    alloc: Global,
    source: &F,
    sound: &Sound,
    planes: u32,
) -> Result<Order, LinearRefusal>
    requires least { LEAST_PLANES ≤ planes }
    requires most { planes ≤ MOST_PLANES }
    ensures order { IfOk result (IsChosen sound.now (below (length sound.now))) }
    ensures right { IfOk result (SettlesOrder sound.now (below (length sound.now))) }
    ensures planes { MatchResult result (λ _. HasTableWithin sound.now (below (length sound.now)) planes)
        (IsPlanesRefusal sound.now (below (length sound.now)) planes) }
{
    let all = PartSet::first(sound.assembly().parts());
    let table = tabulate(alloc, source, sound, all, planes)?;
    Ok(order_of(alloc, &table, all)?)
}
