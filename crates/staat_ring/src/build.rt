// The making of rings.
ghost use Rattle.std.specs.Prelude.{◌≡◌, [], IfOk, length};
ghost use Rattle.staat_ring.specs.Linking.{AreLinkedBelow};
ghost use Rattle.staat_ring.specs.Rings.{WereMadeFrom};

use crate::arrays::RingArrays;
use crate::circle::circle_of;
use crate::nodes::counted;
use crate::rings::Rings;
use staat_planes::PlaneTable;
use staat_vec::OutOfMemory;
use std::alloc::Global;

// the circles of all planes, made and linked one after another
fn linked_arrays(alloc: Global, table: &PlaneTable) -> Result<RingArrays, OutOfMemory>
    ensures { IfOk result (AreLinkedBelow table.now.planes (length table.now.planes) (length table.now.planes)) }
{
    let planes = table.len();
    let mut arrays = RingArrays::alone(alloc, planes)?;
    for c in 0..planes {
        let stops = circle_of(alloc, table, c)?;
        arrays.link_circle(planes, c, &stops);
    }
    Ok(arrays)
}

impl Rings {
    /// The rings of the planes of a table, all of them linked.
    ///
    /// For n planes it takes about 2 n n determinants of normals, and sorts n lists of n whole numbers; no two vertices
    /// are multiplied.
    pub fn build(alloc: Global, table: &PlaneTable) -> Result<Rings, OutOfMemory>
        ensures made { IfOk result (WereMadeFrom table.now.planes) }
        ensures all { IfOk result (λ r. r.unlinked ≡ []) }
    {
        let planes = table.len();
        let order = counted(alloc, planes)?;
        let linked = vec![in alloc; true; planes as usize]?;
        let arrays = linked_arrays(alloc, table)?;
        arrays.sizes();
        Ok(Rings {
            arrays,
            planes,
            order,
            count: 0,
            linked,
        })
    }
}
