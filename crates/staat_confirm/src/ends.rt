// Where the nodes of each plan end.
ghost use Rattle.std.specs.Prelude.{◌≡◌, ◌+◌, ◌<◌, ◌^◌, IfOk, length};
ghost use Rattle.staat_short.specs.ShortTexts.{GroupedPlan, short_nodes_of};
ghost use Rattle.staat_confirm.specs.Members.{StandsAt};
ghost use Rattle.staat_confirm.specs.Owners.{AreEndsFrom, AreOnePlan};

use staat_short::ShortNode;
use staat_vec::OutOfMemory;
use std::alloc::Global;

// the number behind the last node of the plan that stands at node k, where those behind k are known
fn end_at(nodes: &[ShortNode], ends: &[usize], k: usize) -> usize
    requires plan { AreOnePlan nodes.now }
    requires few { length nodes.now < 2 ^ 32 }
    requires within { k < length nodes.now }
    requires count { length ends.now ≡ length nodes.now }
    requires behind { AreEndsFrom nodes.now (k + 1) ends.now }
    ensures { (plan : GroupedPlan) → StandsAt nodes.now k plan → result ≡ k + length (short_nodes_of plan) }
{
    match &nodes[k] {
        ShortNode::Split(_) => ends[ends[k + 1]],
        _ => k + 1,
    }
}

/// For each node the number behind the last node of the plan that begins with it: that of a split is the end of the
/// side that rests, which stands where the side that moves ends. The nodes are those of a plan.
pub fn ends_of(alloc: Global, nodes: &[ShortNode]) -> Result<Vec<usize>, OutOfMemory>
    requires plan { AreOnePlan nodes.now }
    requires few { length nodes.now < 2 ^ 32 }
    ensures count { IfOk result (λ ends. length ends.items ≡ length nodes.now) }
    ensures ends { IfOk result (λ ends. AreEndsFrom nodes.now 0 ends.items) }
{
    let mut ends = vec![in alloc; 0; nodes.len()]?;
    let mut k = nodes.len();
    while k > 0 {
        k -= 1;
        let end = end_at(nodes, ends.as_slice(), k);
        ends[k] = end;
    }
    Ok(ends)
}
