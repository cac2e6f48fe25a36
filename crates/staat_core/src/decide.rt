// Whether a core sees that a set of parts is held.
ghost use Rattle.std.specs.Prelude.{◌≡◌, ◌≢◌, List, IsTrue, pos};
ghost use Rattle.staat_vec.specs.declared.vector.V3.{V3 as Vector};
ghost use Rattle.staat_vec.specs.Vectors.{IsWithin, dot, origin};
ghost use Rattle.staat_model.specs.declared.assembly.Part.{Part as PartValue};
ghost use Rattle.staat_model.specs.Sets.{IsNonempty};
ghost use Rattle.staat_core.specs.Cores.{HasGrown, HoldsWhere, HoldsWithFirst, IsCore, core_pairs};
ghost use Rattle.staat_core.specs.Moves.{HoldsMoves};
ghost use Rattle.staat_core.specs.Sources.{both_ways};

use crate::cores::{Core, MOST_CORE_PLANES};
use crate::joins::Moving;
use crate::source::PairSource;
use staat_model::PartSet;
use staat_vec::{NORMAL, ORIGIN, V3, cross_normal, is_same};

impl Core {
    // Whether nothing of w moves in the direction in which two planes cross. It is not seen where mostly something does,
    // or the core has no more room.
    fn settle_crossing<S: PairSource>(
        &mut self,
        source: &S,
        w: PartSet,
        moving: Moving,
        g: V3,
        h: V3,
    ) -> bool
        requires core { IsCore (S.pairs source.now) (S.speaks source.now) self.old }
        requires some { IsNonempty w }
        requires g { IsWithin NORMAL g }
        requires h { IsWithin NORMAL h }
        ensures core { IsCore (S.pairs source.now) (S.speaks source.now) self.new }
        ensures grows { HasGrown self.old self.new }
        ensures held { IsTrue result → (parts : List PartValue) → S.speaks source.now parts
            → HoldsWhere parts (core_pairs self.new) moving w g h }
    {
        let d = cross_normal(g, h);
        if is_same(d, ORIGIN) {
            return true;
        }
        self.settle(source, w, moving, d)
    }

    // so in the directions in which the plane of g crosses each of the first n planes of the core
    fn holds_with_first<S: PairSource>(
        &mut self,
        source: &S,
        w: PartSet,
        moving: Moving,
        g: V3,
        n: u32,
    ) -> bool
        requires core { IsCore (S.pairs source.now) (S.speaks source.now) self.old }
        requires some { IsNonempty w }
        requires g { IsWithin NORMAL g }
        ensures core { IsCore (S.pairs source.now) (S.speaks source.now) self.new }
        ensures grows { HasGrown self.old self.new }
        ensures held { IsTrue result → (parts : List PartValue) → S.speaks source.now parts
            → HoldsWithFirst parts self.new moving w g n }
    {
        for k in 0..n {
            let Some(h) = self.plane(k) else {
                return true;
            };
            if !self.settle_crossing(source, w, moving, g, h) {
                return false;
            }
        }
        true
    }

    /// Whether it is seen that nothing of `w` moves along any direction on the plane with the normal `g`.
    ///
    /// `w` is not empty, and the components of `g` are at most [`NORMAL`] in absolute value. The core is one for this
    /// source. It is asked where the plane crosses its own planes, and grows where it does not hold the set there. Where
    /// it answers no, mostly something moves; else the core has no more room. It takes no memory.
    pub fn holds_on<S: PairSource>(&mut self, source: &S, w: PartSet, moving: Moving, g: V3) -> bool
        requires core { IsCore (S.pairs source.now) (S.speaks source.now) self.old }
        requires some { IsNonempty w }
        requires g { IsWithin NORMAL g }
        ensures core { IsCore (S.pairs source.now) (S.speaks source.now) self.new }
        ensures grows { HasGrown self.old self.new }
        ensures held { IsTrue result → (parts : List PartValue) (d : Vector) → S.speaks source.now parts
            → g ≢ origin → dot g d ≡ pos 0 → d ≢ origin
            → HoldsMoves parts (both_ways (core_pairs self.new)) moving w d }
    {
        // the parts of the source are parts
        let _pairs = source.pairs();
        self.holds_with_first(source, w, moving, g, MOST_CORE_PLANES)
    }

    /// Whether it is seen that nothing of `w` moves along any direction.
    ///
    /// `w` is not empty. The core is one for this source. It is asked where its own planes cross, and grows where it
    /// does not hold the set there. Where it answers no, mostly something moves; else the core has no more room. It
    /// takes no memory.
    pub fn holds<S: PairSource>(&mut self, source: &S, w: PartSet, moving: Moving) -> bool
        requires core { IsCore (S.pairs source.now) (S.speaks source.now) self.old }
        requires some { IsNonempty w }
        ensures core { IsCore (S.pairs source.now) (S.speaks source.now) self.new }
        ensures grows { HasGrown self.old self.new }
        ensures held { IsTrue result → (parts : List PartValue) (d : Vector) → S.speaks source.now parts
            → d ≢ origin → HoldsMoves parts (both_ways (core_pairs self.new)) moving w d }
    {
        // the parts of the source are parts
        let _pairs = source.pairs();
        for j in 0..MOST_CORE_PLANES {
            let Some(h) = self.plane(j) else {
                return true;
            };
            if !self.holds_with_first(source, w, moving, h, j) {
                return false;
            }
        }
        true
    }
}
