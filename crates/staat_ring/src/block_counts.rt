// How many pairs of pieces block for each ordered pair of parts, and the graph that shows where there are some.
ghost use Rattle.std.specs.Prelude.{◌≡◌, ◌+◌, ◌<◌, ◌^◌, ◌↔◌, IfOk, IsTrue, replicate, slice_index, slice_set, ◌-◌};
ghost use Rattle.staat_model.specs.Sets.{IsNonempty};
ghost use Rattle.staat_graph.specs.Graphs.{IsStrong};
ghost use Rattle.staat_ring.specs.BlockCounts.{HasBlock, IsArcWritten, IsGraphOf, part_pairs};

use staat_graph::{Graph, reach};
use staat_limits::MOST_PARTS;
use staat_model::PartSet;
use staat_vec::OutOfMemory;
use std::alloc::Global;
use std::marker::Model;

/// How many pairs of pieces block for each ordered pair of parts, seen as the list of these numbers: that of the part
/// `a` against the part `b` stands at 32 a + b.
///
/// Beside them stand the words of the graph in which an arc stands exactly where the number is not 0, and those of the
/// same graph with each arc turned round, so that arcs are found from either end.
#[derive(Drop)]
pub struct BlockCounts {
    counts: Vec<u16>,
    graph: Graph,
    back: Graph,
}

impl Model for BlockCounts {
    ghost use Rattle.std.specs.Prelude.{ℕ, List};
    ghost use Rattle.staat_ring.specs.BlockCounts.{ShowsCounts};

    ghost Value = { List ℕ };

    ghost view = { λ b. b.counts.items };

    ghost invariant = { λ b. ShowsCounts b.counts.items b.graph.rows b.back.rows };
}

// puts an arc into the graph, or takes it out
fn write_arc(rows: &mut [u32; 32], a: u32, b: u32, there: bool)
    requires from { a < MOST_PARTS }
    requires to { b < MOST_PARTS }
    ensures { IsArcWritten rows.old rows.new a b there }
{
    let row = PartSet::from_bits(rows[a as usize]);
    let arc = PartSet::single(b);
    rows[a as usize] = if there {
        row.union(arc).bits()
    } else {
        row.without(arc).bits()
    };
}

impl BlockCounts {
    /// No pair blocks.
    pub fn new(alloc: Global) -> Result<BlockCounts, OutOfMemory>
        ensures { IfOk result (λ b. b ≡ replicate part_pairs 0) }
    {
        let counts = vec![in alloc; 0u16; 1024]?;
        let graph = Graph { rows: [0; 32] };
        let back = Graph { rows: [0; 32] };
        Ok(BlockCounts {
            counts,
            graph,
            back,
        })
    }

    // so many block now
    fn write(&mut self, x: u16, count: u16)
        requires { x < part_pairs }
        ensures { self.new ≡ slice_set self.old x count }
    {
        let some = count != 0;
        let had_some = self.counts[x as usize] != 0;
        self.counts[x as usize] = count;
        if some != had_some {
            let (a, b) = (x as u32 / 32, x as u32 % 32);
            write_arc(&mut self.graph.rows, a, b, some);
            write_arc(&mut self.back.rows, b, a, some);
        }
    }

    /// One more pair of pieces blocks for the parts whose number stands at `x`.
    pub fn more(&mut self, x: u16)
        requires place { x < part_pairs }
        requires room { slice_index self.old x + 1 < 2 ^ 16 }
        ensures { self.new ≡ slice_set self.old x (slice_index self.old x + 1) }
    {
        let count = self.counts[x as usize] + 1;
        self.write(x, count);
    }

    /// One less blocks.
    pub fn less(&mut self, x: u16)
        requires place { x < part_pairs }
        requires some { 0 < slice_index self.old x }
        ensures { self.new ≡ slice_set self.old x (slice_index self.old x - 1) }
    {
        let count = self.counts[x as usize] - 1;
        self.write(x, count);
    }

    /// The graph in which an arc stands where some pair of pieces blocks.
    pub fn graph(&self) -> Graph
        ensures { IsGraphOf (HasBlock self.now) result.rows }
    {
        self.graph
    }

    /// Whether each part of `w` reaches each other by a walk inside `w` along the arcs of the graph. `w` is not empty.
    ///
    /// What reaches a part is found in the turned graph, which is kept and not made anew.
    pub fn is_strong(&self, w: PartSet) -> bool
        requires { IsNonempty w }
        ensures { IsTrue result ↔ IsStrong (HasBlock self.now) w }
    {
        // all members are below the number of bits
        let _bits = w.bits();
        let p = w.least();
        w.within(reach(&self.graph, w, p)) && w.within(reach(&self.back, w, p))
    }
}
