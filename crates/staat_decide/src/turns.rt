// One plan from those of sets that leave one after the other.
ghost use Rattle.std.specs.Prelude.{◌≡◌, ◌≤◌, ◌∷◌, List, IfOk, length, map};
ghost use Rattle.staat_model.specs.Leaving.{in_turn};
ghost use Rattle.staat_model.specs.Plans.{Plan, plan_of, split};

use staat_model::Tree;
use staat_vec::{OutOfMemory, V3};
use std::alloc::Global;

// the step that moves off along d what one plan takes apart from what the other does
fn step(alloc: Global, d: V3, moved: Tree, rest: Tree) -> Result<Tree, OutOfMemory>
    ensures { IfOk result (λ tree. plan_of tree ≡ split d (plan_of moved) (plan_of rest)) }
{
    let moved = Box::new(alloc, moved)?;
    let rest = Box::new(alloc, rest)?;
    Ok(Tree::Split { d, moved, rest })
}

/// The plan that moves off along `d` what the first plan takes apart, then what the next one does, and so on; what the
/// last one takes apart stays.
pub fn joined(alloc: Global, d: V3, trees: Vec<Tree>) -> Result<Tree, OutOfMemory>
    requires { 1 ≤ length trees.items }
    ensures { IfOk result (λ tree. (plan : Plan) (plans : List Plan) → map plan_of trees.items ≡ plan ∷ plans
        → plan_of tree ≡ in_turn d plan plans) }
{
    let mut ahead = trees;
    let Some(last) = ahead.pop() else {
        unreachable!();
    };
    let mut tree = last;
    while let Some(moved) = ahead.pop() {
        tree = step(alloc, d, moved, tree)?;
    }
    Ok(tree)
}
