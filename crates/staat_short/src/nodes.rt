// The nodes of a plan.
ghost use Rattle.std.specs.Prelude.{◌≡◌, ◌++◌, ◌∷◌, [], IfOk};
ghost use Rattle.staat_model.specs.Plans.{plan_of};
ghost use Rattle.staat_short.specs.PlanNodes.{grouped_plan_of, plan_nodes};
ghost use Rattle.staat_short.specs.ShortTexts.{short_nodes_of};

use crate::short::{ShortNode, ShortNodes};
use staat_holds::GroupedTree;
use staat_model::Tree;
use staat_vec::OutOfMemory;
use std::alloc::{AllocError, Global};

/// Adds a node.
pub(crate) fn push_node(nodes: &mut Vec<ShortNode>, node: ShortNode) -> Result<(), AllocError>
    ensures { IfOk result (λ _. nodes.new.items ≡ nodes.old.items ++ node ∷ []) }
{
    nodes.push(node)?;
    Ok(())
}

fn push_nodes(nodes: &mut Vec<ShortNode>, tree: &Tree) -> Result<(), AllocError>
    ensures { IfOk result (λ _. nodes.new.items ≡ nodes.old.items ++ plan_nodes (plan_of tree.now)) }
{
    match tree {
        Tree::Leaf(p) => push_node(nodes, ShortNode::Leaf(*p)),
        Tree::Split { d, moved, rest } => {
            push_node(nodes, ShortNode::Split(*d))?;
            push_nodes(nodes, moved)?;
            push_nodes(nodes, rest)
        }
    }
}

/// The nodes of a plan in preorder. The native stack is as deep as the plan.
pub fn plan_nodes(alloc: Global, tree: &Tree) -> Result<ShortNodes, OutOfMemory>
    ensures { IfOk result (λ nodes. nodes ≡ plan_nodes (plan_of tree.now)) }
{
    let mut nodes = Vec::new(alloc);
    push_nodes(&mut nodes, tree)?;
    Ok(ShortNodes::from_vec(nodes))
}

fn push_grouped_nodes(nodes: &mut Vec<ShortNode>, tree: GroupedTree) -> Result<(), AllocError>
    ensures { IfOk result (λ _. nodes.new.items ≡ nodes.old.items ++ short_nodes_of (grouped_plan_of tree)) }
{
    match tree {
        GroupedTree::Leaf(p) => push_node(nodes, ShortNode::Leaf(p)),
        GroupedTree::Group(group) => push_node(nodes, ShortNode::Group(group.holds)),
        GroupedTree::Split { d, moved, rest } => {
            push_node(nodes, ShortNode::Split(d))?;
            push_grouped_nodes(nodes, Box::into_inner(moved))?;
            push_grouped_nodes(nodes, Box::into_inner(rest))
        }
    }
}

/// The nodes of a plan that may end in groups, in preorder. The native stack is as deep as the plan.
pub fn grouped_nodes(alloc: Global, tree: GroupedTree) -> Result<ShortNodes, OutOfMemory>
    ensures { IfOk result (λ nodes. nodes ≡ short_nodes_of (grouped_plan_of tree)) }
{
    let mut nodes = Vec::new(alloc);
    push_grouped_nodes(&mut nodes, tree)?;
    Ok(ShortNodes::from_vec(nodes))
}
