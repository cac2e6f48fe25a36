// A table as a source of pairs.
ghost use Rattle.std.specs.Prelude.{All, IsTrue};
ghost use Rattle.staat_vec.specs.declared.words.TheConstants.{SMALL};
ghost use Rattle.staat_vec.specs.Vectors.{IsWithin};
ghost use Rattle.staat_core.specs.Listed.{IsTablePair};

use crate::source::PairSource;
use staat_model::Arc;
use staat_planes::PlaneTable;
use staat_vec::Normal;

/// Pairs of a table, in each of which the piece of the lesser part comes first, with the facets that the table keeps.
#[derive(Clone, Copy)]
pub struct TablePairs<'a> {
    pub table: &'a PlaneTable,
    pub pairs: &'a [Arc],
    pub low: bool,
    pub ghost all: { All (IsTablePair table.now) pairs.now },
    pub ghost lowness: { IsTrue low → All (IsWithin SMALL) table.now.planes },
}

impl<'a> PairSource for TablePairs<'a> {
    ghost use Rattle.staat_pairs.specs.Tables.{WasMadeFrom};

    ghost pairs = { λ s. s.pairs.now };

    ghost speaks = { λ s parts. WasMadeFrom parts s.table.now };

    ghost low = { λ s. s.low };

    fn pairs(&self) -> &[Arc] {
        // the parts of the set are below the number of bits
        let _set = self.table.set();
        self.pairs
    }

    fn has_low_facets(&self) -> bool {
        self.low
    }

    fn facets(&self, pair: Arc) -> &[Normal] {
        self.table.kept_facets(pair)
    }
}
