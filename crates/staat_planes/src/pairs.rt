// The pairs of the planes of a set of parts, in pair order.
ghost use Rattle.std.specs.Prelude.{◌≡◌, ◌≢◌, ◌+◌, ◌<◌, ◌≤◌, List, [], ◌∷◌, IfSome, MatchOption};
ghost use Rattle.staat_vec.specs.declared.vector.V3.{V3 as Vector};
ghost use Rattle.staat_vec.specs.Vectors.{IsWithin, negative, origin};
ghost use Rattle.staat_model.specs.declared.assembly.Part.{Part as PartValue};
ghost use Rattle.staat_model.specs.Planes.{ArePlanes, vertices};
ghost use Rattle.staat_model.specs.Sets.{IsSubset};
ghost use Rattle.staat_pairs.specs.Tables.{WasMadeFrom};
ghost use Rattle.staat_planes.specs.PairOrder.{HasRowBefore, IsPlaceIn, IsRowOf, numbers_of, planes_at};
ghost use Rattle.staat_planes.specs.PairOrder.{vertices_left};
ghost use Rattle.staat_planes.specs.SetPlanes.{ArePlanesIn};

use crate::table::PlaneTable;
use staat_model::PartSet;
use staat_pairs::crossing;
use staat_vec::{DIRECTION, V3};

/// A place among the pairs of the planes of a set of parts, in pair order: each plane with each later one.
///
/// The planes of the set are known by their numbers in a table of the set or of a larger one, ascending; the first
/// `count` are in use. It takes no memory.
#[derive(Drop)]
pub struct PlanePairs {
    numbers: [u32; 1024],
    count: u32,
    first: u32,
    second: u32,
}

impl PlanePairs {
    /// The first pair of the planes of `w`, which lies in the table's set.
    pub fn of(table: &PlaneTable, w: PartSet) -> PlanePairs
        requires { IsSubset w table.now.of }
        ensures place { IsPlaceIn table.now.planes result }
        ensures planes { ArePlanesIn table.now w (planes_at table.now.planes (numbers_of result)) }
        ensures vertices { (parts : List PartValue) (planes : List Vector) → WasMadeFrom parts table.now →
            ArePlanes parts w planes → vertices_left table.now.planes result ≡ vertices planes }
    {
        let marks = table.used_marks(w);
        let mut numbers = [0u32; 1024];
        let mut count = 0;
        for k in 0..table.len() {
            if marks[k as usize] {
                numbers[count as usize] = k;
                count += 1;
            }
        }
        PlanePairs {
            numbers,
            count,
            first: 0,
            second: 1,
        }
    }

    /// The numbers of the planes of the set.
    pub(crate) fn numbers(&self, table: &PlaneTable) -> &[u32]
        requires { IsPlaceIn table.now.planes self.now }
        ensures { result.now ≡ numbers_of self.now }
    {
        &self.numbers[..self.count as usize]
    }

    // goes on to the first pair of the next row where the row has ended
    fn enter_row(&mut self, table: &PlaneTable)
        requires { IsPlaceIn table.now.planes self.old }
        ensures place { IsPlaceIn table.now.planes self.new }
        ensures left { vertices_left table.now.planes self.new ≡ vertices_left table.now.planes self.old }
        ensures end { self.new.count ≤ self.new.second → self.new.count ≤ self.new.first + 1 }
    {
        if self.second >= self.count && self.first < self.count {
            self.first += 1;
            self.second = self.first + 1;
        }
    }

    /// The plane of the row that begins at the place, if a row with pairs does. Where a row has ended, the next one is
    /// gone to first.
    ///
    /// The table is the one that the pairs were made for.
    pub fn row_begun(&mut self, table: &PlaneTable) -> Option<V3>
        requires { IsPlaceIn table.now.planes self.old }
        ensures place { IsPlaceIn table.now.planes self.new }
        ensures left { vertices_left table.now.planes self.new ≡ vertices_left table.now.planes self.old }
        ensures row { IfSome result (IsRowOf table.now.planes self.new) }
    {
        self.enter_row(table);
        if self.second != self.first + 1 || self.second >= self.count {
            return None;
        }
        // the number is that of a plane
        let _len = table.len();
        Some(table.plane(self.numbers[self.first as usize]))
    }

    /// Passes over the rest of a row, which has pairs left.
    pub fn end_row(&mut self, table: &PlaneTable)
        requires place { IsPlaceIn table.now.planes self.old }
        requires some { self.old.second < self.old.count }
        ensures place { IsPlaceIn table.now.planes self.new }
        ensures left { HasRowBefore table.now.planes self.old self.new }
    {
        self.second = self.count;
    }

    // the direction of the pair, which is no place behind the last
    fn crossing_here(&self, table: &PlaneTable) -> V3
        requires place { IsPlaceIn table.now.planes self.now }
        requires some { self.now.second < self.now.count }
        ensures left { vertices_left table.now.planes self.now ≡ result ∷ negative result
            ∷ vertices_left table.now.planes (record self.now { second = self.now.second + 1 }) }
        ensures some { result ≢ origin }
        ensures size { IsWithin DIRECTION result }
    {
        // no two planes of a table are parallel
        let _len = table.len();
        let g = table.plane(self.numbers[self.first as usize]);
        let h = table.plane(self.numbers[self.second as usize]);
        crossing(g, h)
    }

    /// The primitive vector along which the two planes cross, which turns from the first to the second; then the next
    /// pair is the place. None behind the last pair.
    ///
    /// The table is the one that the pairs were made for.
    pub fn next_crossing(&mut self, table: &PlaneTable) -> Option<V3>
        requires place { IsPlaceIn table.now.planes self.old }
        ensures place { IsPlaceIn table.now.planes self.new }
        ensures crossing { MatchOption result (vertices_left table.now.planes self.old ≡ [])
            (λ d. vertices_left table.now.planes self.old
            ≡ d ∷ negative d ∷ vertices_left table.now.planes self.new) }
        ensures some { IfSome result (λ d. d ≢ origin) }
        ensures size { IfSome result (λ d. IsWithin DIRECTION d) }
    {
        self.enter_row(table);
        if self.second >= self.count {
            return None;
        }
        let d = self.crossing_here(table);
        self.second += 1;
        Some(d)
    }
}
