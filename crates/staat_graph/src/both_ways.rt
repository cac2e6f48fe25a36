// A graph with the reversed graph beside it.
ghost use Rattle.std.specs.Prelude.{◌≡◌};
ghost use Rattle.staat_graph.specs.Graphs.{AreReversed};

use crate::graph::Graph;

/// A graph, and the same graph with each arc turned round, so that arcs are found from either end.
#[derive(Drop)]
pub struct BothWays {
    pub ahead: Graph,
    pub back: Graph,
    pub ghost reversed: { AreReversed ahead.rows back.rows },
}

impl BothWays {
    /// The graph and its reversed graph.
    pub fn new(g: &Graph) -> BothWays
        ensures { result.ahead ≡ g.now }
    {
        BothWays {
            ahead: *g,
            back: g.reversed(),
        }
    }

    /// The two graphs exchanged.
    pub fn turned(&self) -> BothWays
        ensures ahead { result.ahead ≡ self.now.back }
        ensures back { result.back ≡ self.now.ahead }
    {
        BothWays {
            ahead: self.back,
            back: self.ahead,
        }
    }
}
