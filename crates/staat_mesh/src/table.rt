// A table of the edges between points.
ghost use Rattle.std.specs.Prelude.{◌≡◌, ◌<◌, ◌+◌, ◌∷◌, ◌++◌, [], IfOk, List, ℕ};
ghost use Rattle.std.specs.Prelude.{slice_index};
ghost use Rattle.staat_mesh.specs.Counts.{Counts, cell};

use staat_limits::MOST_POINTS;
use std::alloc::{AllocError, Global};
use std::marker::Model;

// how many places the table has
const CELLS: usize = (MOST_POINTS * MOST_POINTS) as usize;

/// How many edges lead from one point to another, up to 255. The points go by number.
#[derive(Drop)]
pub struct EdgeTable {
    counts: Vec<u8>,
}

impl Model for EdgeTable {
    ghost use Rattle.std.specs.Prelude.{◌≡◌, List, ℕ, length};
    ghost use Rattle.staat_mesh.specs.declared.table.TheConstants.{CELLS};

    ghost Value = { List ℕ };

    ghost view = { λ t. t.counts.items };

    ghost invariant = { λ t. length t.counts.items ≡ CELLS };
}

// the place in the table
fn place(from: u8, to: u8) -> usize
    requires from { from < MOST_POINTS }
    requires to { to < MOST_POINTS }
    ensures value { result ≡ cell from to }
    ensures within { result < CELLS }
{
    usize::from(from) * MOST_POINTS as usize + usize::from(to)
}

impl EdgeTable {
    /// A table of no edges.
    pub fn new(alloc: Global) -> Result<EdgeTable, AllocError>
        ensures { IfOk result (λ table. Counts table []) }
    {
        let counts = vec![in alloc; 0; CELLS]?;
        Ok(EdgeTable { counts })
    }

    /// Counts one more edge.
    pub fn add(&mut self, from: u8, to: u8)
        requires from { from < MOST_POINTS }
        requires to { to < MOST_POINTS }
        ensures { (edges : List (ℕ × ℕ)) → Counts self.old edges →
            Counts self.new (edges ++ (from, to) ∷ []) }
    {
        let at = place(from, to);
        self.counts[at] = self.counts[at].saturating_add(1);
    }

    /// How many edges join the two points, up to 255 for each way.
    pub fn between(&self, one: u8, other: u8) -> u16
        requires one { one < MOST_POINTS }
        requires other { other < MOST_POINTS }
        ensures { result ≡ slice_index self.now (cell one other) + slice_index self.now (cell other one) }
    {
        u16::from(self.counts[place(one, other)]) + u16::from(self.counts[place(other, one)])
    }
}
