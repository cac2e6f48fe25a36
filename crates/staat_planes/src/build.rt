// The making of a table.
ghost use Rattle.std.specs.Prelude.{◌<◌, ◌≤◌, ℕ, MatchResult, length};
ghost use Rattle.staat_model.specs.Sets.{Has, IsNonempty};
ghost use Rattle.staat_planes.specs.Refusals.{IsPlanesRefusal, IsTableWithin};

use crate::refusal::PlanesRefusal;
use crate::table::PlaneTable;
use staat_cone::FacetSource;
use staat_limits::{LEAST_PLANES, MOST_PLANES};
use staat_model::{PartSet, Sound};
use staat_pairs::facet_table;
use std::alloc::Global;

/// The table of the parts of `of`: their planes, and the facets of each two pieces of different parts, each asked of
/// `source` once for an unordered pair.
///
/// The set `of` is not empty and holds parts of the assembly. The limit on planes is from 3 to [`MOST_PLANES`].
/// [`TooManyPlanes`](PlanesRefusal::TooManyPlanes) comes exactly where the planes are more than the limit, with their
/// number.
pub fn tabulate<F: FacetSource>(
    alloc: Global,
    source: &F,
    sound: &Sound,
    of: PartSet,
    limit: u32,
) -> Result<PlaneTable, PlanesRefusal>
    requires some { IsNonempty of }
    requires parts { (p : ℕ) → Has of p → p < length sound.now }
    requires least { LEAST_PLANES ≤ limit }
    requires most { limit ≤ MOST_PLANES }
    ensures { MatchResult result (IsTableWithin sound.now of limit) (IsPlanesRefusal sound.now of limit) }
{
    let table = facet_table(alloc, source, sound, of)?;
    let count = table.planes().len();
    if count > limit as usize {
        return Err(PlanesRefusal::TooManyPlanes(count as u64));
    }
    Ok(PlaneTable::seal(table))
}
