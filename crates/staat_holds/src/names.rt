// The names of the nodes of parts.
ghost use Rattle.std.specs.Prelude.{◌≡◌, ◌<◌, ◌≤◌, ◌^◌, ◌↔◌, IfOk, IsTrue, length, map, nat_eq};
ghost use Rattle.std.specs.List.{list_any};
ghost use Rattle.staat_holds.specs.Chains.{IsName, joined_name, own_names, place_of, places_of};

use staat_vec::OutOfMemory;
use std::alloc::Global;

/// For each of so many parts its own number: each is a node by itself.
pub fn own_names(alloc: Global, count: u32) -> Result<Vec<u32>, OutOfMemory>
    ensures { IfOk result (λ names. names.items ≡ own_names count) }
{
    let mut names = Vec::new(alloc);
    for p in 0..count {
        names.push(p)?;
    }
    Ok(names)
}

/// Whether some node has the name.
pub fn is_name(names: &[u32], name: u32) -> bool
    ensures { IsTrue result ↔ IsName names.now name }
{
    (name as usize) < names.len() && names[name as usize] == name
}

/// Whether the name is that of one of the nodes.
pub fn is_among(nodes: &[u32], name: u32) -> bool
    ensures { result ≡ list_any (nat_eq name) nodes.now }
{
    nodes.iter().any(|node| name == *node)
}

// the name of a node once these nodes are one
#[tactic(auto, unfolding(crate::specs::Chains::joined_name))]
fn joined_name(nodes: &[u32], name: u32) -> u32
    requires { 1 ≤ length nodes.now }
    ensures { result ≡ joined_name nodes.now name }
{
    if is_among(nodes, name) {
        nodes[0]
    } else {
        name
    }
}

/// The names once these nodes, one at least, are one.
pub fn joined_names(alloc: Global, nodes: &[u32], names: &[u32]) -> Result<Vec<u32>, OutOfMemory>
    requires { 1 ≤ length nodes.now }
    ensures { IfOk result (λ next. next.items ≡ map (joined_name nodes.now) names.now) }
{
    let mut next = Vec::new(alloc);
    for name in names {
        next.push(joined_name(nodes, *name))?;
    }
    Ok(next)
}

// the place of a name among the nodes
fn place_of(nodes: &[u32], name: u32) -> Option<u32>
    requires { length nodes.now < 2 ^ 32 }
    ensures { result ≡ place_of nodes.now name }
{
    for k in 0..nodes.len() {
        if name == nodes[k] {
            return Some(k as u32);
        }
    }
    None
}

/// For each part the place of its node among these, or none.
pub fn places_of(
    alloc: Global,
    nodes: &[u32],
    names: &[u32],
) -> Result<Vec<Option<u32>>, OutOfMemory>
    requires { length nodes.now < 2 ^ 32 }
    ensures { IfOk result (λ places. places.items ≡ places_of nodes.now names.now) }
{
    let mut places = Vec::new(alloc);
    for name in names {
        places.push(place_of(nodes, *name))?;
    }
    Ok(places)
}
