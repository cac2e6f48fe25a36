// The witness that no side of a set is free of its rest along a vertex.
ghost use Rattle.std.specs.Prelude.{◌≡◌, ◌≢◌, ◌++◌, All, IfOk, OnOk, map};
ghost use Rattle.staat_vec.specs.Vectors.{origin};
ghost use Rattle.staat_model.specs.Certify.{IsWitnessAt};
ghost use Rattle.staat_model.specs.Plans.{IsStuck};
ghost use Rattle.staat_pairs.specs.Tables.{slot};
ghost use Rattle.staat_certify.specs.Witnesses.{AreEndsAhead, AreEndsAndLeast, AreTreesAlong, StandsAmong};
ghost use Rattle.staat_certify.specs.Visits.{KeepsTrees};
ghost use Rattle.staat_certify.specs.WitnessListings.{IsOfTable, key_of, witness_in};

use crate::vantage::Vantage;
use staat_graph::{Graph, Trees, trees_of};
use staat_model::{Arc, Arcs, Witness};
use staat_vec::OutOfMemory;
use std::alloc::Global;

/// The graph that was looked at last, and its trees.
#[derive(Clone, Copy)]
pub struct GraphTrees {
    pub graph: Graph,
    pub trees: Trees,
}

/// The trees of the graph at the vertex, found anew only where that is not the graph that is kept.
///
/// They take much room on the stack, and most vertices need none.
#[inline(never)]
pub(crate) fn renew_trees(kept: &mut Option<GraphTrees>, at: &Vantage) -> Trees
    requires at { StandsAmong at.now.sound.now at.now.table.now at.now.signs.now at.now.d }
    requires stuck { IsStuck at.now.sound.now at.now.table.now.of }
    requires some { at.now.d ≢ origin }
    requires kept { KeepsTrees at.now.table.now.of kept.old }
    ensures kept { KeepsTrees at.now.table.now.of kept.new }
    ensures along { AreTreesAlong at.now.sound.now at.now.table.now at.now.d result }
{
    let w = at.table.set();
    let _root = w.least();
    let graph = at.graph();
    if let Some(known) = *kept {
        if known.graph == graph {
            return known.trees;
        }
    }
    // the graph is strong because the set is stuck
    match trees_of(&graph, w) {
        Some(trees) => {
            *kept = Some(GraphTrees { graph, trees });
            trees
        }
        None => unreachable!(),
    }
}

/// The arcs of the witness at the vertex that was looked at last, and its key, in room that is used again.
#[derive(Drop)]
pub struct WitnessRoom {
    pub outs: Vec<Arc>,
    pub ins: Vec<Arc>,
    pub key: Vec<u32>,
}

impl WitnessRoom {
    /// The room, with nothing in it.
    pub fn new(alloc: Global) -> WitnessRoom {
        WitnessRoom {
            outs: Vec::new(alloc),
            ins: Vec::new(alloc),
            key: Vec::new(alloc),
        }
    }

    /// The witness in lists of its own.
    pub fn witness(&self, alloc: Global) -> Result<Witness, OutOfMemory>
        ensures { IfOk result (λ w. w ≡ witness_in self.now) }
    {
        Ok(Witness {
            outs: Arcs::from_vec(self.outs.as_slice().to_vec(alloc)?),
            ins: Arcs::from_vec(self.ins.as_slice().to_vec(alloc)?),
        })
    }
}

// puts down for each pair of parts the first pieces with which the one blocks the other, and adds their slots to a key
fn put_arcs(
    arcs: &mut Vec<Arc>,
    key: &mut Vec<u32>,
    at: &Vantage,
    pairs: &[(u32, u32)],
) -> Result<(), OutOfMemory>
    requires at { StandsAmong at.now.sound.now at.now.table.now at.now.signs.now at.now.d }
    requires ahead { All (AreEndsAhead at.now.table.now at.now.d) pairs.now }
    ensures arcs { OnOk result
        (AreEndsAndLeast at.now.sound.now at.now.table.now at.now.d pairs.now arcs.new.items) }
    ensures key { OnOk result
        (key.new.items ≡ key.old.items ++ map (slot at.now.table.now.pieces) arcs.new.items) }
{
    arcs.clear();
    for ends in pairs {
        let (arc, slot) = at.least_arc(*ends);
        arcs.push(arc)?;
        key.push(slot)?;
    }
    Ok(())
}

/// Puts down the witness that along the vertex, which has these trees, no side of the table's set is free of its rest,
/// and its key.
pub(crate) fn put_witness(
    room: &mut WitnessRoom,
    at: &Vantage,
    trees: &Trees,
) -> Result<(), OutOfMemory>
    requires at { StandsAmong at.now.sound.now at.now.table.now at.now.signs.now at.now.d }
    requires along { AreTreesAlong at.now.sound.now at.now.table.now at.now.d trees.now }
    ensures witness { OnOk result (IsWitnessAt at.now.sound.now at.now.table.now.of at.now.d (witness_in room.new)) }
    ensures arcs { OnOk result (IsOfTable at.now.table.now (witness_in room.new)) }
    ensures key { OnOk result (room.new.key.items ≡ key_of at.now.table.now.pieces (witness_in room.new)) }
{
    let count = trees.count as usize;
    room.key.clear();
    put_arcs(&mut room.outs, &mut room.key, at, &trees.outs[..count])?;
    put_arcs(&mut room.ins, &mut room.key, at, &trees.ins[..count])
}
