// Graphs in words of bits.
ghost use Rattle.std.specs.Prelude.{◌≡◌, ℕ, ◌<◌, ◌↔◌, ◌⊎◌};
ghost use Rattle.staat_model.specs.Sets.{Has};
ghost use Rattle.staat_graph.specs.Graphs.{AreReversed, HasArc};

use staat_limits::MOST_PARTS;
use staat_model::PartSet;

/// A graph on the parts: bit `b` of row `a` is the arc from the part `a` to the part `b`.
#[derive(Clone, Copy, PartialEq, Eq)]
pub struct Graph {
    pub rows: [u32; 32],
}

// adds an arc to the part a from each part of the set, of which only the members are looked at
fn lead_to(rows: &mut [u32; 32], a: u32, from: PartSet)
    requires { a < MOST_PARTS }
    ensures { (b q : ℕ) → HasArc rows.new b q ↔ (HasArc rows.old b q ⊎ (Has from b × (q ≡ a))) }
{
    let to = PartSet::single(a);
    let mut left = from;
    'parts: while left.meets(left) {
        let b = left.least();
        rows[b as usize] = PartSet::from_bits(rows[b as usize]).union(to).bits();
        left = left.without(PartSet::single(b));
    }
}

impl Graph {
    /// The parts to which an arc leads from the part `a`, which is below [`MOST_PARTS`].
    pub fn arcs_from(&self, a: u32) -> PartSet
        requires { a < MOST_PARTS }
        ensures members { (q : ℕ) → Has result q ↔ HasArc self.now.rows a q }
        ensures small { (q : ℕ) → HasArc self.now.rows a q → q < MOST_PARTS }
    {
        PartSet::from_bits(self.rows[a as usize])
    }

    /// The graph with each arc turned round.
    pub fn reversed(&self) -> Graph
        ensures { AreReversed self.now.rows result.rows }
    {
        let mut rows = [0u32; 32];
        for a in 0..MOST_PARTS {
            lead_to(&mut rows, a, self.arcs_from(a));
        }
        Graph { rows }
    }
}
