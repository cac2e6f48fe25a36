// The nodes of a plan's certificate.
ghost use Rattle.std.specs.Prelude.{◌≡◌, ℕ, IfOk, List, OnOk, length};
ghost use Rattle.staat_model.specs.declared.tree.Kind.{Kind as KindValue};
ghost use Rattle.staat_model.specs.Certify.{IsBodyOf};
ghost use Rattle.staat_model.specs.Outcomes.{planned};
ghost use Rattle.staat_model.specs.Plans.{IsGood, parts_of, plan_of};
ghost use Rattle.staat_model.specs.Sets.{below};
ghost use Rattle.staat_certify.specs.Plans.{AddsNodes, AreWithin, HasPartNumbers};

use crate::walls::Parting;
use staat_cone::FacetSource;
use staat_model::{Assembly, Body, Node, Nodes, PartSet, Tree};
use staat_vec::{DIRECTION, OutOfMemory};
use std::alloc::Global;

// the parts at the leaves
fn leaves_of(tree: &Tree) -> PartSet
    requires { HasPartNumbers (plan_of tree.now) }
    ensures { result ≡ parts_of (plan_of tree.now) }
{
    match tree {
        Tree::Leaf(p) => PartSet::single(*p),
        Tree::Split { moved, rest, .. } => leaves_of(moved).union(leaves_of(rest)),
    }
}

// adds the nodes of a plan, in preorder
fn push_nodes<F: FacetSource>(
    alloc: Global,
    source: &F,
    assembly: &Assembly,
    tree: &Tree,
    nodes: &mut Vec<Node>,
) -> Result<(), OutOfMemory>
    requires sized { AreWithin DIRECTION (plan_of tree.now) }
    requires parts { HasPartNumbers (plan_of tree.now) }
    requires good { IsGood assembly.now (parts_of (plan_of tree.now)) (plan_of tree.now) }
    ensures { OnOk result (AddsNodes assembly.now (plan_of tree.now) nodes.old.items nodes.new.items) }
{
    match tree {
        Tree::Leaf(p) => {
            nodes.push(Node::Leaf(*p))?;
            Ok(())
        }
        Tree::Split { d, moved, rest } => {
            let parting = Parting {
                alloc,
                source,
                assembly,
                side: leaves_of(moved),
                rest: leaves_of(rest),
                d: *d,
            };
            parting.push_split(nodes)?;
            push_nodes(alloc, source, assembly, moved, nodes)?;
            push_nodes(alloc, source, assembly, rest, nodes)
        }
    }
}

/// What the certificate of a plan that takes all parts apart says: its nodes.
pub fn plan_body<F: FacetSource>(
    alloc: Global,
    source: &F,
    assembly: &Assembly,
    tree: &Tree,
) -> Result<Body, OutOfMemory>
    requires sized { AreWithin DIRECTION (plan_of tree.now) }
    requires good { IsGood assembly.now (below (length assembly.now)) (plan_of tree.now) }
    ensures { IfOk result (λ b. (version : ℕ) (marks : List KindValue)
        → IsBodyOf assembly.now version (planned (plan_of tree.now) marks) b) }
{
    // an assembly has few parts
    let _parts = assembly.parts();
    let mut nodes = Vec::new(alloc);
    push_nodes(alloc, source, assembly, tree, &mut nodes)?;
    Ok(Body::Plan(Nodes::from_vec(nodes)))
}
