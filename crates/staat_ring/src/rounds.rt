// From vertex to vertex of a circle among all planes of a table, with their signs.
ghost use Rattle.std.specs.Prelude.{◌≡◌, ◌-◌, ◌<◌, All, false, length};
ghost use Rattle.staat_ring.specs.Belonging.{BelongTo};
ghost use Rattle.staat_ring.specs.SignChanges.{with_stop_signs};
ghost use Rattle.staat_ring.specs.WholeCircles.{AreSignsAt, HaveSameFull, IsWholeCircle, vertex_at};

use crate::circle::Circle;
use crate::counted_signs::CountedSigns;
use crate::entry::Entry;
use crate::walk::stop_sign;
use staat_planes::PlaneTable;
use staat_vec::Course;

// Gives the planes through a vertex their signs, those there or those just after it. Each call has a loop of its own,
// in which most of what a change of sign asks is known.
#[inline(always)]
fn sign_entries(signs: &mut CountedSigns, entries: &[Entry], leaves: bool) -> bool
    requires { All (λ e. e.plane < length signs.old.states) entries.now }
    ensures signs { signs.new ≡ with_stop_signs leaves entries.now signs.old }
    ensures same { result ≡ false → HaveSameFull signs.old signs.new }
{
    let mut told = false;
    for entry in entries {
        let now = signs.set(entry.plane, stop_sign(leaves, entry.turned));
        told = told | now;
    }
    told
}

impl CountedSigns {
    /// Gives each plane its sign at the vertex `k` of a circle.
    pub fn enter(&mut self, table: &PlaneTable, circle: &Circle, k: usize)
        requires made { BelongTo table.now self.old }
        requires circle { IsWholeCircle table.now.planes circle.now }
        requires place { k < length circle.now.stops }
        ensures made { BelongTo table.now self.new }
        ensures signs { AreSignsAt table.now.planes self.new (vertex_at table.now.planes circle.now k) }
    {
        let d = circle.vertex(table, k).direction();
        let course = Course::of(d);
        for j in 0..table.len() {
            self.set(j, course.sign(table.plane(j)));
        }
    }

    /// To the vertex `k` of a circle from the one before it: only the planes through the two get new signs.
    ///
    /// Where the answer is false, the same pairs of pieces have positive facets alone as before, so that the same
    /// pieces meet along both vertices.
    #[tactic(auto, using(crate::proofs::WholeCircles::crossing_steps))]
    pub fn cross(&mut self, table: &PlaneTable, circle: &Circle, k: usize) -> bool
        requires made { BelongTo table.now self.old }
        requires circle { IsWholeCircle table.now.planes circle.now }
        requires later { 0 < k }
        requires place { k < length circle.now.stops }
        requires signs { AreSignsAt table.now.planes self.old (vertex_at table.now.planes circle.now (k - 1)) }
        ensures made { BelongTo table.now self.new }
        ensures signs { AreSignsAt table.now.planes self.new (vertex_at table.now.planes circle.now k) }
        ensures same { result ≡ false → HaveSameFull self.old self.new }
    {
        let _set = table.set();
        let left = sign_entries(self, circle.stop(k - 1), true);
        let reached = sign_entries(self, circle.stop(k), false);
        left | reached
    }
}
