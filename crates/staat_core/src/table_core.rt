// A core of pairs of a table.
ghost use Rattle.std.specs.Prelude.{◌≡◌, List, All, IsTrue, pos};
ghost use Rattle.staat_vec.specs.declared.vector.V3.{V3 as Vector};
ghost use Rattle.staat_vec.specs.Vectors.{IsWithin, dot};
ghost use Rattle.staat_model.specs.declared.assembly.Part.{Part as PartValue};
ghost use Rattle.staat_model.specs.Sets.{IsNonempty, IsSubset};
ghost use Rattle.staat_pairs.specs.Tables.{WasMadeFrom};
ghost use Rattle.staat_core.specs.Listed.{HasListRoom, IsTablePair, pairs_in_use};
ghost use Rattle.staat_core.specs.TableCores.{CoreHolds, IsTableCore};

use crate::bonds::stays_together;
use crate::cores::Core;
use crate::joins::Moving;
use crate::listed::PairList;
use crate::table_pairs::TablePairs;
use staat_model::PartSet;
use staat_planes::PlaneTable;
use staat_vec::{NORMAL, ORIGIN, SMALL, V3, are_within, is_same};

/// Pairs of a table, and a core that grows by them, so that they hold sides or single parts. It takes no memory.
#[derive(Drop)]
pub struct TableCore {
    list: PairList,
    // what it is to hold
    moving: Moving,
    core: Core,
    // whether the planes of the table are known to be small
    low: bool,
}

impl TableCore {
    /// A core that may grow by these pairs of the table.
    pub fn new(table: &PlaneTable, list: PairList, moving: Moving) -> TableCore
        requires room { HasListRoom list }
        requires pairs { All (IsTablePair table.now) (pairs_in_use list) }
        ensures core { IsTableCore table.now result }
        ensures list { result.list ≡ list }
        ensures moving { result.moving ≡ moving }
    {
        TableCore {
            list,
            moving,
            core: Core::none(),
            low: are_within(table.planes(), SMALL),
        }
    }

    /// A core that may grow by all pairs of pieces of different parts of `w`, which lies in the table's set.
    pub fn of(table: &PlaneTable, w: PartSet, moving: Moving) -> TableCore
        requires { IsSubset w table.now.of }
        ensures core { IsTableCore table.now result }
        ensures moving { result.moving ≡ moving }
    {
        TableCore::new(table, PairList::of(table, w), moving)
    }

    /// Whether the pairs are seen to hold `w` along each direction on the plane with the normal `g`, so that nothing
    /// moves. Where it answers no, nothing is known.
    ///
    /// `w` is not empty, and the components of `g` are at most [`NORMAL`] in absolute value.
    pub fn holds_on(&mut self, table: &PlaneTable, w: PartSet, g: V3) -> bool
        requires core { IsTableCore table.now self.old }
        requires some { IsNonempty w }
        requires g { IsWithin NORMAL g }
        ensures core { IsTableCore table.now self.new }
        ensures list { self.new.list ≡ self.old.list }
        ensures moving { self.new.moving ≡ self.old.moving }
        ensures held { IsTrue result → (parts : List PartValue) (d : Vector) → WasMadeFrom parts table.now
            → dot g d ≡ pos 0 → CoreHolds parts self.old w d }
    {
        if is_same(g, ORIGIN) {
            return false;
        }
        let source = TablePairs {
            table,
            pairs: self.list.pairs(),
            low: self.low,
        };
        self.core.holds_on(&source, w, self.moving, g)
    }

    // whether w has two parts, and a chain of parts that hold each other leads from the least one to each other
    fn is_bonded(&self, table: &PlaneTable, w: PartSet) -> bool
        requires core { IsTableCore table.now self.now }
        requires some { IsNonempty w }
        ensures { IsTrue result → (parts : List PartValue) (d : Vector) → WasMadeFrom parts table.now
            → CoreHolds parts self.now w d }
    {
        if w.count() < 2 {
            return false;
        }
        let source = TablePairs {
            table,
            pairs: self.list.pairs(),
            low: self.low,
        };
        stays_together(&source, w)
    }

    /// Whether the pairs are seen to hold `w` along each direction, so that nothing moves. Where it answers no, nothing
    /// is known.
    ///
    /// `w` is not empty.
    pub fn holds(&mut self, table: &PlaneTable, w: PartSet) -> bool
        requires core { IsTableCore table.now self.old }
        requires some { IsNonempty w }
        ensures core { IsTableCore table.now self.new }
        ensures list { self.new.list ≡ self.old.list }
        ensures moving { self.new.moving ≡ self.old.moving }
        ensures held { IsTrue result → (parts : List PartValue) (d : Vector) → WasMadeFrom parts table.now
            → CoreHolds parts self.old w d }
    {
        if self.is_bonded(table, w) {
            return true;
        }
        let source = TablePairs {
            table,
            pairs: self.list.pairs(),
            low: self.low,
        };
        self.core.holds(&source, w, self.moving)
    }
}
