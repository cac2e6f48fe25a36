// The pairs of a core by nodes, with the facets of their pieces.
ghost use Rattle.std.specs.Prelude.{◌≡◌, ◌<◌, ◌↔◌, ℕ, All, IfOk, IsTrue, Some, length};
ghost use Rattle.staat_model.specs.Assemblies.{IsPart, piece_at, piece_count};
ghost use Rattle.staat_motion.specs.Motions.{HasBothPieces};
ghost use Rattle.staat_holds.specs.Holds.{IsCorePair, IsOfNode, IsOfSomeNode};
ghost use Rattle.staat_holds.specs.Links.{AreLinks, IsLink, IsLinkOf};

use staat_cone::FacetSource;
use staat_model::{Arc, Part, Piece};
use staat_vec::{Listed, OutOfMemory, V3};
use std::alloc::Global;

/// A pair of pieces by the nodes of their parts, with the facets of the first piece and the second.
#[derive(Drop)]
pub struct Link {
    pub from: u32,
    pub to: u32,
    pub facets: Listed<V3>,
}

/// The piece `i` of the part `a`.
pub fn piece_of(parts: &[Part], a: u32, i: u32) -> &Piece
    requires part { a < length parts.now }
    requires piece { i < piece_count parts.now a }
    ensures { piece_at parts.now a i ≡ Some result.now }
{
    let part = &parts[a as usize];
    &part.pieces.as_slice()[i as usize]
}

// whether the part has a node, one of the first, so many
fn is_of_node(nodes: &[Option<u32>], count: u32, a: u32) -> bool
    ensures { IsTrue result ↔ IsOfSomeNode nodes.now count a }
{
    if a as usize >= nodes.len() {
        return false;
    }
    match nodes[a as usize] {
        Some(node) => node < count,
        None => false,
    }
}

// whether the part has the piece
fn has_piece(parts: &[Part], a: u32, i: u32) -> bool
    ensures { IsTrue result ↔ ((a < length parts.now) × (i < piece_count parts.now a)) }
{
    if a as usize >= parts.len() {
        return false;
    }
    let part = &parts[a as usize];
    (i as usize) < part.pieces.as_slice().len()
}

/// Whether the two pieces exist.
pub fn has_pieces(parts: &[Part], pair: Arc) -> bool
    ensures { IsTrue result ↔ HasBothPieces parts.now pair }
{
    has_piece(parts, pair.a, pair.i) && has_piece(parts, pair.b, pair.j)
}

// whether two parts that have nodes are of different nodes
fn are_apart(nodes: &[Option<u32>], count: u32, a: u32, b: u32) -> bool
    requires first { IsOfSomeNode nodes.now count a }
    requires second { IsOfSomeNode nodes.now count b }
    ensures { IsTrue result ↔ ((k : ℕ) → IsOfNode nodes.now k a → IsOfNode nodes.now k b → ⊥) }
{
    node_of(nodes, count, a) != node_of(nodes, count, b)
}

/// Whether a pair is of two pieces that exist, of parts of two different nodes below `count`.
pub fn is_core_pair(parts: &[Part], nodes: &[Option<u32>], count: u32, pair: Arc) -> bool
    ensures { IsTrue result ↔ IsCorePair parts.now nodes.now count pair }
{
    has_pieces(parts, pair)
        && is_of_node(nodes, count, pair.a)
        && is_of_node(nodes, count, pair.b)
        && are_apart(nodes, count, pair.a, pair.b)
}

// the number of the node of the part a
fn node_of(nodes: &[Option<u32>], count: u32, a: u32) -> u32
    requires { IsOfSomeNode nodes.now count a }
    ensures { IsOfNode nodes.now result a }
{
    match nodes[a as usize] {
        Some(node) => node,
        None => unreachable!(),
    }
}

// the link of a pair
fn link_of<F: FacetSource>(
    alloc: Global,
    source: &F,
    parts: &[Part],
    nodes: &[Option<u32>],
    count: u32,
    pair: Arc,
) -> Result<Link, OutOfMemory>
    requires { IsCorePair parts.now nodes.now count pair }
    ensures is { IfOk result (IsLinkOf parts.now nodes.now pair) }
    ensures link { IfOk result (IsLink count) }
{
    let first = piece_of(parts, pair.a, pair.i);
    let second = piece_of(parts, pair.b, pair.j);
    let facets = source.facets(alloc, first, second)?;
    Ok(Link {
        from: node_of(nodes, count, pair.a),
        to: node_of(nodes, count, pair.b),
        facets: Listed::from_vec(facets),
    })
}

/// The links of the pairs of a core.
pub fn links_of<F: FacetSource>(
    alloc: Global,
    source: &F,
    parts: &[Part],
    nodes: &[Option<u32>],
    count: u32,
    core: &[Arc],
) -> Result<Listed<Link>, OutOfMemory>
    requires { All (IsCorePair parts.now nodes.now count) core.now }
    ensures are { IfOk result (AreLinks parts.now nodes.now core.now) }
    ensures links { IfOk result (All (IsLink count)) }
{
    let mut links = Vec::new(alloc);
    for pair in core {
        links.push(link_of(alloc, source, parts, nodes, count, *pair)?)?;
    }
    Ok(Listed::from_vec(links))
}
