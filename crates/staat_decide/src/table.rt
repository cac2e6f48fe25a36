// The facets of pairs of pieces, kept so that they are found once for all directions. Each pair has a slot, which it
// may share with others: that which was asked about last is kept.
ghost use Rattle.std.specs.Prelude.{◌≡◌, ◌≢◌, ◌<◌, ◌≤◌, ◌↔◌, IfOk, IfSome, IsTrue, OnOk, length};
ghost use Rattle.staat_model.specs.Assemblies.{piece_count};
ghost use Rattle.staat_model.specs.Removal.{Blocks, MeetsAlong};
ghost use Rattle.staat_motion.specs.Motions.{HasBothPieces, IsMotionOf};
ghost use Rattle.staat_decide.specs.Keeping.{AreKept, IsEitherOrder, IsKept, KeepsPair, MeetsSome};

use crate::scene::View;
use staat_cone::FacetSource;
use staat_holds::piece_of;
use staat_model::{Arc, Part};
use staat_motion::Along;
use staat_vec::{Listed, OutOfMemory, V3};
use std::alloc::Global;

/// The facets of a pair of pieces.
#[derive(Drop)]
pub struct KeptFacets {
    pub pair: Arc,
    pub facets: Listed<V3>,
}

/// Facets of pairs of pieces, by their slots.
pub type KeptTable = Vec<Option<KeptFacets>>;

// how many slots there are for each piece, and at most
const SLOTS: usize = 32;

const MOST_SLOTS: usize = 1 << 17;

// the slot of a pair
fn slot_of(pair: Arc, count: usize) -> usize
    requires { 1 ≤ count }
    ensures { result < count }
{
    let first = (pair.a as usize)
        .wrapping_mul(1021)
        .wrapping_add(pair.i as usize);
    let second = (pair.b as usize)
        .wrapping_mul(1021)
        .wrapping_add(pair.j as usize);
    first.wrapping_mul(40503).wrapping_add(second) % count
}

// the pair with the lesser part first
fn ordered(pair: Arc) -> Arc
    ensures { IsEitherOrder pair result }
{
    if pair.b < pair.a {
        Arc {
            a: pair.b,
            i: pair.j,
            b: pair.a,
            j: pair.i,
        }
    } else {
        pair
    }
}

// the pair with its facets
fn kept_of<F: FacetSource>(
    alloc: Global,
    source: &F,
    parts: &[Part],
    pair: Arc,
) -> Result<KeptFacets, OutOfMemory>
    requires { HasBothPieces parts.now pair }
    ensures kept { IfOk result (IsKept parts.now) }
    ensures pair { IfOk result (λ kept. kept.pair ≡ pair) }
{
    let p = piece_of(parts, pair.a, pair.i);
    let q = piece_of(parts, pair.b, pair.j);
    let facets = source.facets(alloc, p, q)?;
    Ok(KeptFacets {
        pair,
        facets: Listed::from_vec(facets),
    })
}

fn is_pair(p: Arc, q: Arc) -> bool
    ensures { IsTrue result ↔ (p ≡ q) }
{
    p == q
}

// whether the slot has the pair
fn has_pair(slot: &Option<KeptFacets>, pair: Arc) -> bool
    ensures { IsTrue result ↔ KeepsPair slot.now pair }
{
    match slot {
        None => false,
        Some(kept) => is_pair(kept.pair, pair),
    }
}

// whether of the pair, whose pieces are those that are kept, the first piece meets the second
fn meets_by(kept: &KeptFacets, parts: &[Part], along: &Along, pair: Arc) -> bool
    requires made { IsMotionOf parts.now along.now }
    requires pieces { HasBothPieces parts.now pair }
    requires kept { IsKept parts.now kept.now }
    requires order { IsEitherOrder pair kept.now.pair }
    ensures { IsTrue result ↔ MeetsAlong parts.now along.now.d pair }
{
    if is_pair(kept.pair, pair) {
        along.meets_with(pair, kept.facets.as_slice())
    } else {
        along.meets_with_turned(pair, kept.facets.as_slice())
    }
}

// the same where the slot has them
fn meets_in(slot: &Option<KeptFacets>, parts: &[Part], along: &Along, pair: Arc, key: Arc) -> bool
    requires made { IsMotionOf parts.now along.now }
    requires pieces { HasBothPieces parts.now pair }
    requires kept { IfSome slot.now (IsKept parts.now) }
    requires key { KeepsPair slot.now key }
    requires order { IsEitherOrder pair key }
    ensures { IsTrue result ↔ MeetsAlong parts.now along.now.d pair }
{
    match slot {
        Some(kept) => meets_by(kept, parts, along, pair),
        None => unreachable!(),
    }
}

// the number of pieces
fn piece_number(parts: &[Part]) -> usize {
    let mut count = 0usize;
    for part in parts {
        count = count.saturating_add(part.pieces.as_slice().len());
    }
    count
}

/// A table that keeps nothing yet.
pub fn table_for(alloc: Global, parts: &[Part]) -> Result<KeptTable, OutOfMemory>
    ensures some { IfOk result (λ table. 1 ≤ length table.items) }
    ensures kept { IfOk result (λ table. AreKept parts.now table.items) }
{
    let count = piece_number(parts)
        .saturating_mul(SLOTS)
        .clamp(1, MOST_SLOTS);
    let mut table = Vec::new(alloc);
    for _ in 0..count {
        table.push(None)?;
    }
    Ok(table)
}

// whether of the slot's pair the first piece meets the second; the slot has it afterwards
fn ask_slot<F: FacetSource>(
    slot: &mut Option<KeptFacets>,
    view: &View<F>,
    pair: Arc,
    key: Arc,
) -> Result<bool, OutOfMemory>
    requires made { IsMotionOf view.now.parts.now view.now.along.now }
    requires pieces { HasBothPieces view.now.parts.now pair }
    requires order { IsEitherOrder pair key }
    requires kept { IfSome slot.old (IsKept view.now.parts.now) }
    ensures kept { IfSome slot.new (IsKept view.now.parts.now) }
    ensures answer { IfOk result (λ answer. IsTrue answer ↔ MeetsAlong view.now.parts.now view.now.along.now.d pair) }
{
    if has_pair(slot, key) {
        return Ok(meets_in(slot, view.parts, view.along, pair, key));
    }
    let kept = kept_of(view.alloc, view.source, view.parts, key)?;
    let answer = meets_by(&kept, view.parts, view.along, pair);
    *slot = Some(kept);
    Ok(answer)
}

// whether the first piece meets the second
fn pair_meets<F: FacetSource>(
    table: &mut KeptTable,
    view: &View<F>,
    pair: Arc,
) -> Result<bool, OutOfMemory>
    requires made { IsMotionOf view.now.parts.now view.now.along.now }
    requires pieces { HasBothPieces view.now.parts.now pair }
    requires some { 1 ≤ length table.old.items }
    requires kept { AreKept view.now.parts.now table.old.items }
    ensures some { length table.new.items ≡ length table.old.items }
    ensures kept { AreKept view.now.parts.now table.new.items }
    ensures answer { IfOk result (λ answer. IsTrue answer ↔ MeetsAlong view.now.parts.now view.now.along.now.d pair) }
{
    if view.along.apart(pair) {
        return Ok(false);
    }
    let key = ordered(pair);
    let k = slot_of(key, table.len());
    ask_slot(&mut table[k], view, pair, key)
}

// how many pieces the part a has, unless they are too many to be numbered
fn count_of(parts: &[Part], a: u32) -> Option<u32>
    requires { a < length parts.now }
    ensures { IfSome result (λ n. n ≡ piece_count parts.now a) }
{
    let part = &parts[a as usize];
    let count = part.pieces.as_slice().len();
    if count > u32::MAX as usize {
        return None;
    }
    Some(count as u32)
}

// whether the piece i of the part a meets one of the part b, which has so many
fn meets_some<F: FacetSource>(
    table: &mut KeptTable,
    view: &View<F>,
    a: u32,
    i: u32,
    b: u32,
    count: u32,
) -> Result<bool, OutOfMemory>
    requires made { IsMotionOf view.now.parts.now view.now.along.now }
    requires a_in { a < length view.now.parts.now }
    requires i_in { i < piece_count view.now.parts.now a }
    requires b_in { b < length view.now.parts.now }
    requires count { count ≡ piece_count view.now.parts.now b }
    requires some { 1 ≤ length table.old.items }
    requires kept { AreKept view.now.parts.now table.old.items }
    ensures some { length table.new.items ≡ length table.old.items }
    ensures kept { AreKept view.now.parts.now table.new.items }
    ensures answer { IfOk result (λ answer. IsTrue answer ↔ MeetsSome view.now.parts.now view.now.along.now.d a i b) }
{
    if view.along.piece_apart(a, i, b) {
        return Ok(false);
    }
    for j in 0..count {
        if pair_meets(table, view, Arc { a, i, b, j })? {
            return Ok(true);
        }
    }
    Ok(false)
}

// whether one of the first pieces of the part a, so many, meets one of the part b
fn some_meets<F: FacetSource>(
    table: &mut KeptTable,
    view: &View<F>,
    a: u32,
    first: u32,
    b: u32,
    second: u32,
) -> Result<bool, OutOfMemory>
    requires made { IsMotionOf view.now.parts.now view.now.along.now }
    requires a_in { a < length view.now.parts.now }
    requires b_in { b < length view.now.parts.now }
    requires different { a ≢ b }
    requires first { first ≡ piece_count view.now.parts.now a }
    requires second { second ≡ piece_count view.now.parts.now b }
    requires some { 1 ≤ length table.old.items }
    requires kept { AreKept view.now.parts.now table.old.items }
    ensures some { length table.new.items ≡ length table.old.items }
    ensures kept { AreKept view.now.parts.now table.new.items }
    ensures answer { IfOk result (λ answer. IsTrue answer ↔ Blocks view.now.parts.now view.now.along.now.d a b) }
{
    for i in 0..first {
        if meets_some(table, view, a, i, b, second)? {
            return Ok(true);
        }
    }
    Ok(false)
}

/// Whether the part `a` blocks the part `b` along the direction.
pub fn blocks_with<F: FacetSource>(
    table: &mut KeptTable,
    view: &View<F>,
    a: u32,
    b: u32,
) -> Result<bool, OutOfMemory>
    requires made { IsMotionOf view.now.parts.now view.now.along.now }
    requires a_in { a < length view.now.parts.now }
    requires b_in { b < length view.now.parts.now }
    requires some { 1 ≤ length table.old.items }
    requires kept { AreKept view.now.parts.now table.old.items }
    ensures some { length table.new.items ≡ length table.old.items }
    ensures kept { AreKept view.now.parts.now table.new.items }
    ensures answer { IfOk result (λ answer. IsTrue answer ↔ Blocks view.now.parts.now view.now.along.now.d a b) }
{
    if a == b || view.along.parts_apart(a, b) {
        return Ok(false);
    }
    match (count_of(view.parts, a), count_of(view.parts, b)) {
        (Some(first), Some(second)) => { some_meets(table, view, a, first, b, second) }
        _ => view.along.blocks(view.alloc, view.source, view.parts, a, b),
    }
}
