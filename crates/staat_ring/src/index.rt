// Which facets lie on which plane, made from a table.
ghost use Rattle.std.specs.Prelude.{◌≡◌, ◌+◌, ◌<◌, IfOk, OnOk, Some, length, slice_get};
ghost use Rattle.staat_vec.specs.Primitives.{canon};
ghost use Rattle.staat_pairs.specs.Tables.{IsTableArc, IsTableFacet, slot};
ghost use Rattle.staat_ring.specs.Index.{with_facet, AreSameBut, AreToldBelow, AreZero, ArePlaces, IsFresh};
ghost use Rattle.staat_ring.specs.SignChanges.{uses};
ghost use Rattle.staat_ring.specs.Belonging.{BelongTo, IsPairOf, PlaneFacet as PlaneFacetValue, facet_at};

use crate::counted_signs::CountedSigns;
use staat_limits::{MOST_PARTS, MOST_PIECES};
use staat_model::Arc;
use staat_pairs::SLOTS;
use staat_planes::PlaneTable;
use staat_vec::{OutOfMemory, V3, canon, is_same};
use std::alloc::Global;

/// A piece of a part.
#[derive(Clone, Copy)]
pub struct PiecePlace {
    pub part: u32,
    pub piece: u32,
}

// adds the pieces of one part, if it is in the table's set
fn add_places(places: &mut Vec<PiecePlace>, table: &PlaneTable, a: u32) -> Result<(), OutOfMemory>
    requires part { a < MOST_PARTS }
    requires places { ArePlaces table.now a places.old.items }
    ensures { OnOk result (ArePlaces table.now (a + 1) places.new.items) }
{
    let set = table.set();
    if set.has(a) {
        for i in 0..table.pieces(a) {
            places.push(PiecePlace { part: a, piece: i })?;
        }
    }
    Ok(())
}

// all pieces, numbered through
fn places_of(alloc: Global, table: &PlaneTable) -> Result<Vec<PiecePlace>, OutOfMemory>
    ensures { IfOk result (λ v. ArePlaces table.now MOST_PARTS v.items) }
{
    let mut places = Vec::new(alloc);
    for a in 0..MOST_PARTS {
        add_places(&mut places, table, a)?;
    }
    Ok(places)
}

// puts down one facet of the pair q, in the list of its plane, which has this number, and its sense
fn push_facet(
    signs: &mut CountedSigns,
    table: &PlaneTable,
    facet: V3,
    plane: u32,
    q: u16,
) -> Result<(), OutOfMemory>
    requires facet { IsTableFacet table.now.planes facet }
    requires within { plane < length table.now.planes }
    requires plane { slice_get table.now.planes plane ≡ Some (canon facet) }
    requires states { length signs.old.states ≡ length table.now.planes }
    requires zero { AreZero signs.old }
    requires pair { q < length signs.old.pairs }
    requires room { uses q signs.old.states + 1 < 65536 }
    ensures { OnOk result ((w : PlaneFacetValue) × (w.plane < length table.now.planes)
        × (facet_at table.now.planes w ≡ facet) × (signs.new ≡ with_facet w q signs.old)) }
{
    let n = canon(facet);
    signs.push(plane, !is_same(n, facet), q)
}

// tells the pair q, and puts down its facets
#[tactic(auto, using(crate::proofs::PairNumbers::no_positives, crate::proofs::PairNumbers::told_start))]
fn add_pair(
    signs: &mut CountedSigns,
    table: &PlaneTable,
    arc: Arc,
    q: u16,
) -> Result<(), OutOfMemory>
    requires across { IsTableArc table.now arc }
    requires slot { slot table.now.pieces arc ≡ q }
    requires states { length signs.old.states ≡ length table.now.planes }
    requires pairs { q < length signs.old.pairs }
    requires zero { AreZero signs.old }
    requires fresh { IsFresh signs.old q }
    ensures pair { OnOk result (IsPairOf table.now signs.new arc) }
    ensures others { OnOk result (AreSameBut signs.old signs.new q) }
{
    // all parts are below the number of bits
    let _bits = table.set().bits();
    let count = table.facet_count(arc);
    signs.want(q, count as u16, (32 * arc.a + arc.b) as u16);
    for m in 0..count {
        push_facet(
            signs,
            table,
            table.facet(arc, m),
            table.facet_plane(arc, m),
            q,
        )?;
    }
    Ok(())
}

// adds the pair of the number q, if there is one: that of two pieces of different parts
fn add_slot(
    signs: &mut CountedSigns,
    table: &PlaneTable,
    places: &[PiecePlace],
    q: u32,
) -> Result<(), OutOfMemory>
    requires places { ArePlaces table.now MOST_PARTS places.now }
    requires pair { q < SLOTS }
    requires told { AreToldBelow table.now signs.old q }
    ensures { OnOk result (AreToldBelow table.now signs.new (q + 1)) }
{
    let _set = table.set();
    let (p, r) = ((q / MOST_PIECES) as usize, (q % MOST_PIECES) as usize);
    if p >= places.len() || r >= places.len() {
        return Ok(());
    }
    let (x, y) = (places[p], places[r]);
    if x.part == y.part {
        return Ok(());
    }
    let arc = Arc {
        a: x.part,
        i: x.piece,
        b: y.part,
        j: y.piece,
    };
    add_pair(signs, table, arc, q as u16)
}

impl CountedSigns {
    /// The signs of the planes of a table, all Zero, with its ordered pairs of pieces by their slots, and for each
    /// plane the pairs that have its normal or the negative as a facet.
    pub fn of(alloc: Global, table: &PlaneTable) -> Result<CountedSigns, OutOfMemory>
        ensures { IfOk result (λ s. BelongTo table.now s) }
    {
        let _set = table.set();
        let places = places_of(alloc, table)?;
        let mut signs = CountedSigns::new(alloc, table.len(), SLOTS)?;
        for q in 0..SLOTS {
            add_slot(&mut signs, table, places.as_slice(), q)?;
        }
        Ok(signs)
    }
}
