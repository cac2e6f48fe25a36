// All pairs of pieces of different parts of a set: the core that decides where no smaller one is found.
ghost use Rattle.std.specs.Prelude.{◌≡◌, ◌<◌, ◌^◌, ℕ, All, Contains, IfOk, OnOk, length};
ghost use Rattle.staat_model.specs.declared.certificate.Arc.{Arc as ArcValue};
ghost use Rattle.staat_model.specs.Assemblies.{piece_count};
ghost use Rattle.staat_holds.specs.Chains.{own_names, places_of};
ghost use Rattle.staat_holds.specs.Holds.{IsCorePair};
ghost use Rattle.staat_decide.specs.declared.every.End.{End as EndValue};
ghost use Rattle.staat_decide.specs.Ends.{arc_between};

use staat_holds::is_core_pair;
use staat_model::{Arc, Part};
use staat_vec::OutOfMemory;
use std::alloc::Global;

/// A piece by the number of its part and its own.
#[derive(Clone, Copy)]
pub struct End {
    pub part: u32,
    pub piece: u32,
}

// adds the first pieces of a part, so many
fn add_ends(ends: &mut Vec<End>, part: u32, count: u32) -> Result<(), OutOfMemory>
    ensures kept { OnOk result ((e : EndValue) → Contains ends.old.items e → Contains ends.new.items e) }
    ensures each { OnOk result ((i : ℕ) → i < count
        → Contains ends.new.items (record { part = part; piece = i })) }
{
    for piece in 0..count {
        ends.push(End { part, piece })?;
    }
    Ok(())
}

// all pieces of the parts of w
fn ends_of(alloc: Global, parts: &[Part], w: &[u32]) -> Result<Vec<End>, OutOfMemory>
    requires members { All (λ p. p < length parts.now) w.now }
    requires few { All (λ part. length part.pieces < 2 ^ 32) parts.now }
    ensures { IfOk result (λ ends. (p i : ℕ) → Contains w.now p → i < piece_count parts.now p
        → Contains ends.items (record { part = p; piece = i })) }
{
    let mut ends = Vec::new(alloc);
    for a in w {
        let part = &parts[*a as usize];
        add_ends(&mut ends, *a, part.pieces.as_slice().len() as u32)?;
    }
    Ok(ends)
}

fn between(p: End, q: End) -> Arc
    ensures { result ≡ arc_between p q }
{
    Arc {
        a: p.part,
        i: p.piece,
        b: q.part,
        j: q.piece,
    }
}

// adds the pairs of a piece with those of other nodes
fn add_pairs(
    pairs: &mut Vec<Arc>,
    parts: &[Part],
    nodes: &[Option<u32>],
    count: u32,
    ends: &[End],
    first: End,
) -> Result<(), OutOfMemory>
    requires { All (IsCorePair parts.now nodes.now count) pairs.old.items }
    ensures right { OnOk result (All (IsCorePair parts.now nodes.now count) pairs.new.items) }
    ensures kept { OnOk result ((pair : ArcValue) → Contains pairs.old.items pair → Contains pairs.new.items pair) }
    ensures each { OnOk result ((e : EndValue) → Contains ends.now e
        → IsCorePair parts.now nodes.now count (arc_between first e)
        → Contains pairs.new.items (arc_between first e)) }
{
    for end in ends {
        let pair = between(first, *end);
        if is_core_pair(parts, nodes, count, pair) {
            pairs.push(pair)?;
        }
    }
    Ok(())
}

// all pairs of pieces of different nodes among those listed
fn pairs_of(
    alloc: Global,
    parts: &[Part],
    nodes: &[Option<u32>],
    count: u32,
    ends: &[End],
) -> Result<Vec<Arc>, OutOfMemory>
    ensures right { IfOk result (λ pairs. All (IsCorePair parts.now nodes.now count) pairs.items) }
    ensures each { IfOk result (λ pairs. (p q : EndValue) → Contains ends.now p → Contains ends.now q
        → IsCorePair parts.now nodes.now count (arc_between p q)
        → Contains pairs.items (arc_between p q)) }
{
    let mut pairs = Vec::new(alloc);
    for end in ends {
        add_pairs(&mut pairs, parts, nodes, count, ends, *end)?;
    }
    Ok(pairs)
}

/// All pairs of pieces of different parts of `w`, of which each is a node of its own.
pub fn all_pairs(
    alloc: Global,
    parts: &[Part],
    nodes: &[Option<u32>],
    w: &[u32],
) -> Result<Vec<Arc>, OutOfMemory>
    requires members { All (λ p. p < length parts.now) w.now }
    requires places { nodes.now ≡ places_of w.now (own_names (length parts.now)) }
    requires few { length w.now < 2 ^ 32 }
    requires pieces { All (λ part. length part.pieces < 2 ^ 32) parts.now }
    ensures right { IfOk result (λ pairs. All (IsCorePair parts.now nodes.now (length w.now)) pairs.items) }
    ensures all { IfOk result (λ pairs. (pair : ArcValue) → IsCorePair parts.now nodes.now (length w.now) pair
        → Contains pairs.items pair) }
{
    let ends = ends_of(alloc, parts, w)?;
    pairs_of(alloc, parts, nodes, w.len() as u32, ends.as_slice())
}
