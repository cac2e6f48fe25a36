// Holds with their pairs in order.
ghost use Rattle.std.specs.Prelude.{◌≡◌, ◌≢◌, ℕ, ◌<◌, Contains, List, map};
ghost use Rattle.std.specs.List.Sorted.{IsStrictlySortedBy};
ghost use Rattle.std.specs.Ordering.{nat_cmp};
ghost use Rattle.staat_vec.specs.Lists.{Lists};
ghost use Rattle.staat_model.specs.declared.assembly.Part.{Part as PartValue};
ghost use Rattle.staat_model.specs.Certificates.{arc_cmp};
ghost use Rattle.staat_holds.specs.Chains.{KeepsHoldRules};
ghost use Rattle.staat_holds.specs.Holds.{lesser_first};
ghost use Rattle.staat_holds.specs.Partials.{IsOrderedHold};

use crate::hold::Hold;
use staat_model::Arc;
use staat_vec::Listed;

// the pair with its lesser part first
#[tactic(auto, unfolding(crate::specs::Holds::lesser_first))]
fn lesser_first(pair: Arc) -> Arc
    ensures { result ≡ lesser_first pair }
{
    let Arc { a, i, b, j } = pair;
    if b < a {
        Arc {
            a: b,
            i: j,
            b: a,
            j: i,
        }
    } else {
        pair
    }
}

// turns each pair so that its lesser part comes first
fn turn_each(pairs: &mut [Arc])
    ensures { pairs.new ≡ map lesser_first pairs.old }
{
    for pair in pairs.iter_mut() {
        *pair = lesser_first(*pair);
    }
}

// the pairs, ascending and each once
fn in_order(mut pairs: Vec<Arc>) -> Vec<Arc>
    ensures { Lists arc_cmp (Contains pairs.items) result.items }
{
    pairs.sort_unstable();
    pairs.dedup();
    pairs
}

/// The same hold with its pairs in order: of each pair the lesser part first, ascending, each once. It takes no memory.
/// Where the hold keeps the rules, whatever the parts and the names, so does the result.
pub fn ordered(hold: Hold) -> Hold
    ensures nodes { result.nodes ≡ hold.nodes }
    ensures ordered { (parts : List PartValue) (names : List ℕ) → IsStrictlySortedBy nat_cmp hold.nodes
        → KeepsHoldRules parts names hold → IsOrderedHold result }
    ensures keeps { (parts : List PartValue) (names : List ℕ) → KeepsHoldRules parts names hold
        → KeepsHoldRules parts names result }
{
    let Hold { nodes, pairs } = hold;
    let mut pairs = pairs.into_vec();
    turn_each(&mut pairs);
    Hold {
        nodes,
        pairs: Listed::from_vec(in_order(pairs)),
    }
}
