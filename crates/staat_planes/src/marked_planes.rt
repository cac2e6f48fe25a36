// The planes of a smaller set of parts. They are marked in one pass over its facets.
ghost use Rattle.std.specs.Prelude.{◌≡◌, ◌<◌, ◌≤◌, ◌↔◌, ℕ, List, Contains, IsTrue, Some, false, length};
ghost use Rattle.std.specs.Prelude.{IfOk, slice_get, slice_index_or};
ghost use Rattle.staat_vec.specs.declared.vector.V3.{V3 as Vector};
ghost use Rattle.staat_model.specs.declared.assembly.Part.{Part as PartValue};
ghost use Rattle.staat_model.specs.Planes.{ArePlanes};
ghost use Rattle.staat_model.specs.Sets.{Has, IsSubset};
ghost use Rattle.staat_pairs.specs.Searches.{HasPlane, HasPlaneBetween, HasPlaneOf, IsCanonOf};
ghost use Rattle.staat_pairs.specs.Tables.{IsTableArc, WasMadeFrom, facets_of};
ghost use Rattle.staat_planes.specs.MarkedPlanes.{AddsMarks, AreUsedMarks, IsPlaneMarked};
ghost use Rattle.staat_planes.specs.SetPlanes.{ArePlanesIn};
ghost use Rattle.staat_planes.specs.Tables.{IsPlaneOf};

use crate::pairs::PlanePairs;
use crate::table::PlaneTable;
use staat_limits::{MOST_PARTS, MOST_PLANES};
use staat_model::{Arc, PartSet};
use staat_vec::{Normal, OutOfMemory};
use std::alloc::Global;

// marks the coordinate planes
fn mark_axes(marks: &mut [bool; 1024])
    ensures axes { (k : ℕ) → k < 3 → IsPlaneMarked marks.new k }
    ensures others { (k : ℕ) → 3 ≤ k → slice_index_or marks.new k false ≡ slice_index_or marks.old k false }
{
    marks[0] = true;
    marks[1] = true;
    marks[2] = true;
}

impl PlaneTable {
    // marks the planes of the facets of two pieces, that of the lesser part first
    fn mark_facets(&self, arc: Arc, marks: &mut [bool; 1024])
        requires across { IsTableArc self.now arc }
        requires order { arc.a < arc.b }
        ensures { AddsMarks self.now.planes (IsCanonOf (facets_of self.now arc)) marks.old marks.new }
    {
        for m in 0..self.kept_count(arc) {
            marks[self.kept_number(arc, m) as usize] = true;
        }
    }

    // marks those of all pieces of the part a and all pieces of the part b
    fn mark_between(&self, a: u32, b: u32, marks: &mut [bool; 1024])
        requires a_in { Has self.now.of a }
        requires b_in { Has self.now.of b }
        requires order { a < b }
        ensures { AddsMarks self.now.planes (λ n. HasPlaneBetween self.now n a b) marks.old marks.new }
    {
        for i in 0..self.pieces(a) {
            for j in 0..self.pieces(b) {
                self.mark_facets(Arc { a, i, b, j }, marks);
            }
        }
    }

    // marks those of the part a and of all greater ones of w
    fn mark_of(&self, a: u32, w: PartSet, marks: &mut [bool; 1024])
        requires a_in { Has self.now.of a }
        requires set { IsSubset w self.now.of }
        ensures { AddsMarks self.now.planes (λ n. HasPlaneOf self.now w n a) marks.old marks.new }
    {
        // all members are below the number of bits
        let _bits = w.bits();
        for b in 0..MOST_PARTS {
            if a < b && w.has(b) {
                self.mark_between(a, b, marks);
            }
        }
    }

    // marks those of different parts of w
    fn mark_in(&self, w: PartSet, marks: &mut [bool; 1024])
        requires { IsSubset w self.now.of }
        ensures { AddsMarks self.now.planes (λ n. HasPlane self.now w n) marks.old marks.new }
    {
        // all members are below the number of bits
        let _bits = w.bits();
        for a in 0..MOST_PARTS {
            if w.has(a) {
                self.mark_of(a, w, marks);
            }
        }
    }

    /// Which planes are those of the set `w` of parts, which lies in the table's set: the mark of each.
    ///
    /// Each facet of two pieces of `w` is looked at once. It takes no memory.
    pub fn used_marks(&self, w: PartSet) -> [bool; 1024]
        requires { IsSubset w self.now.of }
        ensures is { AreUsedMarks self.now w result }
        ensures most { length self.now.planes ≤ MOST_PLANES }
    {
        if self.set().within(w) {
            return [true; 1024];
        }
        let mut marks = [false; 1024];
        self.mark_in(w, &mut marks);
        mark_axes(&mut marks);
        marks
    }

    /// Whether the plane `k` is one of the planes of the set `w` of parts.
    ///
    /// `k` is below [`len`](PlaneTable::len), and `w` lies in the table's set. It takes no memory.
    pub fn used(&self, k: u32, w: PartSet) -> bool
        requires plane { k < length self.now.planes }
        requires set { IsSubset w self.now.of }
        ensures plane { (parts : List PartValue) (n : Vector) → WasMadeFrom parts self.now →
            slice_get self.now.planes k ≡ Some n → IsTrue result ↔ IsPlaneOf parts w n }
        ensures planes { (parts : List PartValue) (planes : List Vector) (n : Vector) →
            WasMadeFrom parts self.now → slice_get self.now.planes k ≡ Some n →
            ArePlanes parts w planes → IsTrue result ↔ Contains planes n }
    {
        let marks = self.used_marks(w);
        marks[k as usize]
    }

    /// The planes of the set `w` of parts, which lies in the table's set: the coordinate planes, then the others
    /// ascending.
    ///
    /// They are those of the table that belong to `w`. Each facet of two pieces of `w` is looked up once, and no source
    /// of facets is asked. It fails for want of memory alone.
    pub fn planes_of(&self, alloc: Global, w: PartSet) -> Result<Vec<Normal>, OutOfMemory>
        requires { IsSubset w self.now.of }
        ensures { IfOk result (λ planes. ArePlanesIn self.now w planes.items) }
    {
        let pairs = PlanePairs::of(self, w);
        let mut planes = Vec::new(alloc);
        for k in pairs.numbers(self) {
            planes.push(Normal::of(self.plane(*k)))?;
        }
        Ok(planes)
    }
}
