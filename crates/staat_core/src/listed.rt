// The pairs of a table.
ghost use Rattle.std.specs.Prelude.{◌≡◌, ◌⊎◌, ◌<◌, [], ◌∷◌, ◌++◌, All, Contains};
ghost use Rattle.staat_model.specs.declared.certificate.Arc.{Arc as ArcValue};
ghost use Rattle.staat_model.specs.Sets.{Has, IsSubset};
ghost use Rattle.staat_core.specs.Listed.{AreTablePairs, HasListRoom, IsTablePair, pairs_in_use};

use staat_limits::MOST_PARTS;
use staat_model::{Arc, PartSet};
use staat_planes::PlaneTable;

/// How many pairs are listed at most: one for each two of 64 pieces.
const MOST_LISTED: u32 = 2016;

/// Pairs of pieces of different parts, each once. Its room is its own, so that it takes no memory.
#[derive(Drop)]
pub struct PairList {
    pairs: [Arc; 2016],
    count: u32,
}

impl PairList {
    /// No pairs.
    pub fn none() -> PairList
        ensures room { HasListRoom result }
        ensures none { pairs_in_use result ≡ [] }
    {
        let nowhere = Arc {
            a: 0,
            i: 0,
            b: 0,
            j: 0,
        };
        PairList {
            pairs: [nowhere; 2016],
            count: 0,
        }
    }

    /// The pairs.
    pub fn pairs(&self) -> &[Arc]
        requires { HasListRoom self.now }
        ensures { result.now ≡ pairs_in_use self.now }
    {
        &self.pairs[..self.count as usize]
    }

    // puts a pair behind the others
    fn push(&mut self, pair: Arc)
        requires room { HasListRoom self.old }
        requires few { self.old.count < MOST_LISTED }
        ensures room { HasListRoom self.new }
        ensures pairs { pairs_in_use self.new ≡ pairs_in_use self.old ++ pair ∷ [] }
    {
        self.pairs[self.count as usize] = pair;
        self.count += 1;
    }

    /// Puts a pair behind the others, if there is room.
    pub fn put(&mut self, pair: Arc)
        requires { HasListRoom self.old }
        ensures room { HasListRoom self.new }
        ensures pairs { (x : ArcValue) → Contains (pairs_in_use self.new) x
            → Contains (pairs_in_use self.old) x ⊎ (x ≡ pair) }
    {
        if self.count >= MOST_LISTED {
            return;
        }
        self.push(pair)
    }

    // the pairs of each piece of a and each piece of b
    fn put_between(&mut self, table: &PlaneTable, a: u32, b: u32)
        requires pairs { AreTablePairs table.now self.old }
        requires a_in { Has table.now.of a }
        requires b_in { Has table.now.of b }
        requires order { a < b }
        ensures { AreTablePairs table.now self.new }
    {
        for i in 0..table.pieces(a) {
            for j in 0..table.pieces(b) {
                self.put(Arc { a, i, b, j });
            }
        }
    }

    /// The pairs of pieces of different parts of `w`, that of the lesser part first. `w` lies in the table's set.
    pub fn of(table: &PlaneTable, w: PartSet) -> PairList
        requires { IsSubset w table.now.of }
        ensures room { HasListRoom result }
        ensures pairs { All (IsTablePair table.now) (pairs_in_use result) }
    {
        let mut list = PairList::none();
        for b in 0..MOST_PARTS {
            for a in 0..b {
                if w.has(a) && w.has(b) {
                    list.put_between(table, a, b);
                }
            }
        }
        list
    }
}
