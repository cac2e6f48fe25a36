// The order of the entries of a circle, and where its stops end.
ghost use Rattle.std.specs.Prelude.{◌≡◌, ◌↔◌, ℕ, ◌<◌, ℤ, All, IfOk, IsTrue, List, OnOk, length, pos};
ghost use Rattle.staat_vec.specs.declared.vector.V3.{V3 as Vector};
ghost use Rattle.staat_vec.specs.Vectors.{IsWithin, det, sign};
ghost use Rattle.staat_vec.specs.declared.vector.TheConstants.{NORMAL};
ghost use Rattle.staat_vec.specs.declared.words.TheConstants.{BROAD};
ghost use Rattle.staat_planes.specs.PairOrder.{plane_at};
ghost use Rattle.staat_ring.specs.Order.{AreStopEnds, CrossesBefore, IsInserted, IsOrderOf, IsPlace, Rises, order_det};

use crate::entry::Entry;
use staat_planes::PlaneTable;
use staat_vec::{BROAD, NORMAL, Normal, OutOfMemory, Sign, V3, are_within, order_on};
use std::alloc::Global;

/// The turn on which entries are put in order: around the normal of a plane of a table.
#[derive(Clone, Copy)]
pub struct Turn<'a> {
    table: &'a PlaneTable,
    g: Normal,
    // whether words hold the cross products of all normals
    near: bool,
    ghost nearness: { IsTrue near → All (IsWithin BROAD) table.now.planes },
}

impl<'a> Turn<'a> {
    /// The turn around the normal `g`.
    pub fn around(table: &'a PlaneTable, g: V3) -> Turn<'a>
        requires { IsWithin NORMAL g }
        ensures table { result.table.now ≡ table.now }
        ensures g { result.g ≡ g }
    {
        Turn {
            table,
            g: Normal::of(g),
            near: are_within(table.planes(), BROAD),
        }
    }
}

// the sign of the determinant of the normals of two planes
fn plane_order(turn: &Turn, i: u32, j: u32) -> Sign
    requires i { i < length turn.now.table.now.planes }
    requires j { j < length turn.now.table.now.planes }
    ensures { result ≡ sign (det turn.now.g (plane_at turn.now.table.now.planes i)
        (plane_at turn.now.table.now.planes j)) }
{
    let planes = turn.table.planes();
    let a = &planes[i as usize];
    let b = &planes[j as usize];
    if turn.near {
        turn.g.broad_order(a, b)
    } else {
        order_on(turn.g.vector(), a.vector(), b.vector())
    }
}

// The planes of two entries by whose determinant they are ordered: exchanged where one of them alone is turned, since
// either changes its sign.
fn planes_in_turn(e: Entry, f: Entry) -> (u32, u32)
    ensures order { (planes : List Vector) (g : Vector)
        → det g (plane_at planes result.0) (plane_at planes result.1) ≡ order_det planes g e f }
    ensures within { (m : ℕ) → e.plane < m → f.plane < m → (result.0 < m) × (result.1 < m) }
{
    if e.turned == f.turned {
        (e.plane, f.plane)
    } else {
        (f.plane, e.plane)
    }
}

// the sign of the determinant by which two entries are ordered
fn order_of(turn: &Turn, e: Entry, f: Entry) -> Sign
    requires e { e.plane < length turn.now.table.now.planes }
    requires f { f.plane < length turn.now.table.now.planes }
    ensures { result ≡ sign (order_det turn.now.table.now.planes turn.now.g e f) }
{
    let (i, j) = planes_in_turn(e, f);
    plane_order(turn, i, j)
}

// whether the crossing of `e` comes before that of `f`, or they cross on one line and the plane of `e` is less
fn is_before(order: Sign, e: Entry, f: Entry) -> bool
    ensures { (planes : List Vector) (g : Vector) → order ≡ sign (order_det planes g e f)
        → IsTrue result ↔ CrossesBefore planes g e f }
{
    match order {
        Sign::Pos => true,
        Sign::Zero => e.plane < f.plane,
        Sign::Neg => false,
    }
}

// Where an entry comes among others in order. The search goes from the last one back: where they come nearly in order,
// it takes a step or two.
fn place_in(turn: &Turn, es: &[Entry], e: Entry) -> usize
    requires e { e.plane < length turn.now.table.now.planes }
    requires es { All (λ f. f.plane < length turn.now.table.now.planes) es.now }
    ensures { IsPlace turn.now.table.now.planes turn.now.g es.now e result }
{
    let mut i = es.len();
    'back: while i > 0 {
        let f = es[i - 1];
        if !is_before(order_of(turn, e, f), e, f) {
            return i;
        }
        i -= 1;
    }
    0
}

// puts an entry at its place, unless the one before it is of the same plane
fn insert(turn: &Turn, es: &mut Vec<Entry>, e: Entry) -> Result<(), OutOfMemory>
    requires e { e.plane < length turn.now.table.now.planes }
    requires es { All (λ f. f.plane < length turn.now.table.now.planes) es.old.items }
    ensures { OnOk result (IsInserted turn.now.table.now.planes turn.now.g e es.old.items es.new.items) }
{
    let i = place_in(turn, es.as_slice(), e);
    if i > 0 && es[i - 1].plane == e.plane {
        return Ok(());
    }
    es.insert(i, e)?;
    Ok(())
}

// the entries in the order of their crossings, and of their planes where they cross in one vertex
fn in_order(alloc: Global, turn: &Turn, es: &[Entry]) -> Result<Vec<Entry>, OutOfMemory>
    requires es { All (λ e. e.plane < length turn.now.table.now.planes) es.now }
    ensures { IfOk result (λ v. IsOrderOf turn.now.table.now.planes turn.now.g es.now v.items) }
{
    let mut entries = Vec::with_capacity(alloc, es.len().saturating_mul(2))?;
    for e in es {
        insert(turn, &mut entries, *e)?;
    }
    Ok(entries)
}

// where the stops of entries end, if these are in order, and whether each precedes the next one
#[derive(Drop)]
struct Run {
    ends: Vec<usize>,
    rises: bool,
}

// whether a number is 0 that has this sign
fn is_zero(order: Sign) -> bool
    ensures { (z : ℤ) → order ≡ sign z → IsTrue result ↔ (z ≡ pos 0) }
{
    matches!(order, Sign::Zero)
}

fn run_of(alloc: Global, turn: &Turn, es: &[Entry]) -> Result<Run, OutOfMemory>
    requires es { All (λ e. e.plane < length turn.now.table.now.planes) es.now }
    ensures ends { IfOk result (λ r. AreStopEnds turn.now.table.now.planes turn.now.g es.now r.ends.items) }
    ensures rises { IfOk result (λ r. IsTrue r.rises → Rises turn.now.table.now.planes turn.now.g es.now) }
{
    let mut ends = Vec::with_capacity(alloc, es.len().saturating_mul(2))?;
    let mut rises = true;
    for i in 1..es.len() {
        let order = order_of(turn, es[i - 1], es[i]);
        if !is_before(order, es[i - 1], es[i]) {
            rises = false;
        }
        if !is_zero(order) {
            ends.push(i)?;
        }
    }
    ends.push(es.len())?;
    Ok(Run { ends, rises })
}

/// Entries in the order of their crossings, and of their planes where they cross in one vertex, and where their stops
/// end.
#[derive(Drop)]
pub struct HalfCircle {
    pub entries: Vec<Entry>,
    pub ends: Vec<usize>,
}

/// The entries in order, with the ends of their stops. Mostly they are in order as they come, and then each is compared
/// but once.
pub fn divided(alloc: Global, turn: &Turn, es: Vec<Entry>) -> Result<HalfCircle, OutOfMemory>
    requires es { All (λ e. e.plane < length turn.now.table.now.planes) es.items }
    ensures order { IfOk result (λ d. IsOrderOf turn.now.table.now.planes turn.now.g es.items d.entries.items) }
    ensures ends { IfOk result (λ d. AreStopEnds turn.now.table.now.planes turn.now.g d.entries.items d.ends.items) }
{
    let run = run_of(alloc, turn, es.as_slice())?;
    if run.rises {
        return Ok(HalfCircle {
            entries: es,
            ends: run.ends,
        });
    }
    let entries = in_order(alloc, turn, es.as_slice())?;
    let ends = run_of(alloc, turn, entries.as_slice())?.ends;
    Ok(HalfCircle { entries, ends })
}
