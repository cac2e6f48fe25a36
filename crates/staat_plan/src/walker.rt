// The step of a set of parts by a walk along rings that are made once, for all parts.
ghost use Rattle.std.specs.Prelude.{◌≡◌, ◌<◌, ◌≤◌, IfOk, length};
ghost use Rattle.std.specs.FinSet as set;
ghost use Rattle.staat_model.specs.Sets.{IsSubset};
ghost use Rattle.staat_planes.specs.MarkedPlanes.{AreUsedMarks};
ghost use Rattle.staat_ring.specs.{Rings.{WereMadeFrom, linked_of}, Walked.WalkWasMadeFrom};
ghost use Rattle.staat_plan.specs.{Planning.IsVertexStep, RingSets.{AreForTable, AreLinkedOrPast}};

use crate::ring_step::part_step_rings;
use staat_limits::LEAST_PLANES;
use staat_model::{PartSet, Step};
use staat_planes::{PlaneTable, Steps};
use staat_ring::{Rings, Walk};
use staat_vec::OutOfMemory;
use std::alloc::Global;
use std::marker::Brand;
use std::sync::ledger::{Blank, Ledger};

/// Rings with all planes of a table, and a walk along their circles.
#[derive(Drop)]
pub(crate) struct Walker {
    rings: Rings,
    walk: Walk,
}

// The step of w, whose planes are marked, where of the planes before k those of w alone are linked. Each plane from k on
// that is none of w is taken out before the later ones and put back after them, so that the rings are left as they were.
fn step_past<L: Ledger>(
    table: &PlaneTable,
    rings: &mut Rings,
    walk: &mut Walk,
    w: PartSet,
    marks: &[bool; 1024],
    k: u32,
    steps: &mut Steps<L>,
) -> Option<Step>
    requires made { WalkWasMadeFrom table.now walk.old }
    requires rings { WereMadeFrom table.now.planes rings.old }
    requires within { IsSubset w table.now.of }
    requires marks { AreUsedMarks table.now w marks.now }
    requires two { 2 ≤ set.len w }
    requires axes { LEAST_PLANES ≤ k }
    requires place { k ≤ length table.now.planes }
    requires linked { AreLinkedOrPast (length table.now.planes) marks.now (linked_of rings.old.rings) k }
    ensures rings { rings.new ≡ rings.old }
    ensures made { WalkWasMadeFrom table.now walk.new }
    ensures step { IsVertexStep table.now w result }
{
    if k >= table.len() {
        return part_step_rings(table, rings, walk, w, steps);
    }
    if marks[k as usize] {
        return step_past(table, rings, walk, w, marks, k + 1, steps);
    }
    rings.unlink(k);
    let step = step_past(table, rings, walk, w, marks, k + 1, steps);
    rings.relink(k);
    step
}

// the step of w, with a count of steps of its own
fn counted_step<L: Ledger>(
    table: &PlaneTable,
    rings: &mut Rings,
    walk: &mut Walk,
    w: PartSet,
    blank: Blank,
) -> Option<Step>
    requires name { blank.name ≡ L.name }
    requires parts { blank.parts ≡ L.parts }
    requires some { 0 < blank.parts }
    requires ready { AreForTable table.now rings.old walk.old }
    requires within { IsSubset w table.now.of }
    requires two { 2 ≤ set.len w }
    ensures ready { AreForTable table.now rings.new walk.new }
    ensures step { IsVertexStep table.now w result }
{
    let _len = table.len();
    let mut steps = Steps::<L>::new(blank);
    let marks = table.used_marks(w);
    step_past(table, rings, walk, w, &marks, LEAST_PLANES, &mut steps)
}

impl Walker {
    /// Rings and a walk for a table.
    pub(crate) fn new(alloc: Global, table: &PlaneTable) -> Result<Walker, OutOfMemory>
        ensures { IfOk result (λ x. AreForTable table.now x.rings x.walk) }
    {
        let rings = Rings::build(alloc, table)?;
        let walk = Walk::new(alloc, table)?;
        Ok(Walker { rings, walk })
    }

    /// The step of a set of at least two parts that lies in the table's set, by a walk along the circles of its
    /// planes. It takes no memory.
    ///
    /// The planes that are none of the set are unlinked before, and linked again behind it.
    pub(crate) fn step(&mut self, table: &PlaneTable, w: PartSet) -> Option<Step>
        requires ready { AreForTable table.now self.old.rings self.old.walk }
        requires within { IsSubset w table.now.of }
        requires two { 2 ≤ set.len w }
        ensures ready { AreForTable table.now self.new.rings self.new.walk }
        ensures step { IsVertexStep table.now w result }
    {
        counted_step::<Brand>(table, &mut self.rings, &mut self.walk, w, Blank::new(1))
    }
}
