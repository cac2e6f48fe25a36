// The facets of a table, for each ordered pair of parts the half-spaces ahead of their pieces.
ghost use Rattle.std.specs.Prelude.{◌≡◌, ◌≢◌, ◌<◌, ◌↔◌, All, Any, IfOk, List, OnOk};
ghost use Rattle.staat_vec.specs.declared.vector.Sign.{Sign as SignValue};
ghost use Rattle.staat_model.specs.Sets.{Has};
ghost use Rattle.staat_pairs.specs.Tables.{IsTable, pieces_of};
ghost use Rattle.staat_cells.specs.Batches.{IsBatch};
ghost use Rattle.staat_cells.specs.CellGraphs.{AddsArcs, AddsCones, AddsConesOf, ArePartsAhead, ListsArcsOf};
ghost use Rattle.staat_cells.specs.CellGraphs.{IsAheadBy, IsPieceAhead};
ghost use Rattle.staat_cells.specs.HalfSpaces.{AreInside};

use crate::batches::{Batch, add_cone};
use crate::half_spaces::{HalfSpaces, half_spaces, push_cone, wide_cones};
use staat_limits::MOST_PARTS;
use staat_model::{Arc, PartSet};
use staat_planes::PlaneTable;
use staat_vec::OutOfMemory;
use std::alloc::Global;

// adds the cone of a piece of the part a with each piece of the part b
fn push_piece(
    alloc: Global,
    table: &PlaneTable,
    a: u32,
    i: u32,
    b: u32,
    cones: &mut Vec<HalfSpaces>,
) -> Result<(), OutOfMemory>
    requires rules { IsTable table.now }
    requires a_in { Has table.now.of a }
    requires b_in { Has table.now.of b }
    requires different { a ≢ b }
    requires piece { i < pieces_of table.now a }
    ensures { OnOk result (AddsCones (IsPieceAhead table.now a b i) cones.old.items cones.new.items) }
{
    for j in 0..table.pieces(b) {
        push_cone(
            alloc,
            cones,
            &half_spaces(alloc, table, Arc { a, i, b, j })?,
        )?;
    }
    Ok(())
}

// the cones of each piece of the part a with each of the part b
fn cones_of(
    alloc: Global,
    table: &PlaneTable,
    a: u32,
    b: u32,
) -> Result<Vec<HalfSpaces>, OutOfMemory>
    requires rules { IsTable table.now }
    requires a_in { Has table.now.of a }
    requires b_in { Has table.now.of b }
    requires different { a ≢ b }
    ensures { IfOk result (λ cones. (signs : List SignValue)
        → Any (AreInside signs) cones.items ↔ IsAheadBy table.now signs a b) }
{
    let mut cones = Vec::new(alloc);
    for i in 0..table.pieces(a) {
        push_piece(alloc, table, a, i, b, &mut cones)?;
    }
    Ok(cones)
}

// adds cones of the parts a and b
fn add_cones(
    alloc: Global,
    cones: &[HalfSpaces],
    a: u32,
    b: u32,
    batches: &mut Vec<Batch>,
) -> Result<(), OutOfMemory>
    requires batches { All IsBatch batches.old.items }
    requires a { a < MOST_PARTS }
    requires b { b < MOST_PARTS }
    ensures { OnOk result (AddsConesOf cones.now a b batches.old.items batches.new.items) }
{
    for k in 0..cones.len() {
        add_cone(alloc, batches, cones[k].as_slice(), a, b)?;
    }
    Ok(())
}

// adds two parts, and none where they are one or not both in the set
fn push_parts(
    alloc: Global,
    table: &PlaneTable,
    set: PartSet,
    a: u32,
    b: u32,
    batches: &mut Vec<Batch>,
) -> Result<(), OutOfMemory>
    requires rules { IsTable table.now }
    requires batches { All IsBatch batches.old.items }
    requires set { set ≡ table.now.of }
    requires a { a < MOST_PARTS }
    requires b { b < MOST_PARTS }
    ensures { OnOk result (AddsArcs (ArePartsAhead table.now a b) batches.old.items batches.new.items) }
{
    if a != b && set.has(a) && set.has(b) {
        let wide = wide_cones(alloc, &cones_of(alloc, table, a, b)?)?;
        add_cones(alloc, &wide, a, b, batches)
    } else {
        Ok(())
    }
}

/// The cones of each ordered pair of different parts of the table's set, in batches. Pairs follow upon each other by
/// the sum of their numbers, so that the two orders of parts, whose cones have the same planes, mostly share a batch.
pub(crate) fn all_batches(alloc: Global, table: &PlaneTable) -> Result<Vec<Batch>, OutOfMemory>
    ensures arcs { IfOk result (λ batches. ListsArcsOf table.now batches.items) }
    ensures batches { IfOk result (λ batches. All IsBatch batches.items) }
    ensures rules { IsTable table.now }
{
    let set = table.set();
    let mut batches = Vec::new(alloc);
    for pair in 0..MOST_PARTS * MOST_PARTS {
        let a = pair % MOST_PARTS;
        let b = (pair / MOST_PARTS + MOST_PARTS - a) % MOST_PARTS;
        push_parts(alloc, table, set, a, b, &mut batches)?;
    }
    Ok(batches)
}
