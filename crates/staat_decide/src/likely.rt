// What likely directions take apart: along each of them it is asked once, of all parts, which blocks which.
ghost use Rattle.std.specs.Prelude.{◌≡◌, ◌≢◌, ◌<◌, ◌≤◌, ◌⊎◌, ◌↔◌, [], false};
ghost use Rattle.std.specs.Prelude.{All, IfOk, IfSome, IsTrue, get_or, length, map};
ghost use Rattle.std.specs.List.{range_with_len};
ghost use Rattle.std.specs.List.Sorted.{IsStrictlySortedBy};
ghost use Rattle.std.specs.Ordering.{nat_cmp};
ghost use Rattle.staat_vec.specs.Vectors.{IsWithin, origin};
ghost use Rattle.staat_motion.specs.Motions.{AreBodies};
ghost use Rattle.staat_decide.specs.Asking.{AreAskedRows};
ghost use Rattle.staat_decide.specs.Decided.{IsLeaving};
ghost use Rattle.staat_decide.specs.Keeping.{AreKept};

use crate::arcs::{Row, rows_with};
use crate::decision::Leaving;
use crate::peeling::take_apart;
use crate::scene::{Scene, View};
use crate::table::KeptTable;
use staat_cone::FacetSource;
use staat_model::Part;
use staat_motion::{Along, Bodies};
use staat_vec::{DIRECTION, Listed, ORIGIN, OutOfMemory, V3, is_same};
use std::alloc::Global;

// how many axes there are, which are the first of the likely directions
const AXES: usize = 3;

/// For each part, in order, its row.
pub type Rows = Listed<Row>;

/// A direction, and for each part a row in which the parts that it blocks along the direction are marked.
#[derive(Drop)]
pub struct AskedRows {
    pub d: V3,
    pub rows: Rows,
}

/// Whether the vector can be a direction
pub fn is_direction(d: V3) -> bool
    ensures { IsTrue result ↔ ((d ≢ origin) × IsWithin DIRECTION d) }
{
    d != ORIGIN
        && d.x.unsigned_abs() <= DIRECTION
        && d.y.unsigned_abs() <= DIRECTION
        && d.z.unsigned_abs() <= DIRECTION
}

/// The numbers below the count.
pub fn numbers(alloc: Global, count: u32) -> Result<Vec<u32>, OutOfMemory>
    ensures { IfOk result (λ all. all.items ≡ range_with_len 0 count) }
{
    let mut all = Vec::new(alloc);
    for p in 0..count {
        all.push(p)?;
    }
    Ok(all)
}

/// Which part blocks which along the direction; `all` are the numbers of the parts.
pub fn asked_along<F: FacetSource>(
    table: &mut KeptTable,
    scene: &Scene<F>,
    all: &[u32],
    d: V3,
) -> Result<AskedRows, OutOfMemory>
    requires bodies { AreBodies scene.now.parts.now scene.now.bodies.now }
    requires all { all.now ≡ range_with_len 0 (length scene.now.parts.now) }
    requires size { IsWithin DIRECTION d }
    requires moves { d ≢ origin }
    requires some { 1 ≤ length table.old.items }
    requires kept { AreKept scene.now.parts.now table.old.items }
    ensures some { length table.new.items ≡ length table.old.items }
    ensures kept { AreKept scene.now.parts.now table.new.items }
    ensures asked { IfOk result (AreAskedRows scene.now.parts.now) }
{
    let along = Along::of(scene.alloc, scene.parts, scene.bodies, d)?;
    let view = View {
        alloc: scene.alloc,
        source: scene.source,
        parts: scene.parts,
        along: &along,
    };
    let rows = rows_with(table, &view, all)?;
    Ok(AskedRows {
        d,
        rows: Rows::from_vec(rows),
    })
}

// of a row the marks of the parts of w
fn picked_row(alloc: Global, row: &[bool], w: &[u32]) -> Result<Row, OutOfMemory>
    requires { All (λ p. p < length row.now) w.now }
    ensures { IfOk result (λ picked. picked ≡ map (λ b. get_or row.now b false) w.now) }
{
    let mut picked = Vec::new(alloc);
    for b in w {
        picked.push(row[*b as usize])?;
    }
    Ok(Row::from_vec(picked))
}

// the rows of the parts of w, and in them the marks of these
fn picked_rows(alloc: Global, rows: &[Row], w: &[u32]) -> Result<Vec<Row>, OutOfMemory>
    requires rows { All (λ row. length row ≡ length rows.now) rows.now }
    requires members { All (λ p. p < length rows.now) w.now }
    ensures { IfOk result (λ picked. picked.items
        ≡ map (λ a. map (λ b. get_or (get_or rows.now a []) b false) w.now) w.now) }
{
    let mut picked = Vec::new(alloc);
    for a in w {
        let row = &rows[*a as usize];
        picked.push(picked_row(alloc, row.as_slice(), w)?)?;
    }
    Ok(picked)
}

// how the direction takes w apart
fn leaving_along(
    alloc: Global,
    parts: &[Part],
    asked: &AskedRows,
    w: &[u32],
) -> Result<Option<Leaving>, OutOfMemory>
    requires asked { AreAskedRows parts.now asked.now }
    requires members { All (λ p. p < length parts.now) w.now }
    requires ascending { IsStrictlySortedBy nat_cmp w.now }
    ensures { IfOk result (λ answer. IfSome answer (IsLeaving parts.now w.now)) }
{
    let rows = picked_rows(alloc, asked.rows.as_slice(), w)?;
    match take_apart(alloc, rows.as_slice(), w)? {
        None => Ok(None),
        Some(sets) => Ok(Some(Leaving { d: asked.d, sets })),
    }
}

// how many sets leave
fn set_count(leaving: &Option<Leaving>) -> usize {
    match leaving {
        None => 0,
        Some(leaving) => leaving.sets.as_slice().len(),
    }
}

// the one of two ways to leave that has more sets, and the first one where they have as many
fn finer(first: Option<Leaving>, second: Option<Leaving>) -> Option<Leaving>
    ensures { result ≡ first ⊎ result ≡ second }
{
    if set_count(&first) < set_count(&second) {
        second
    } else {
        first
    }
}

// the place of the direction among those asked, if it is one of them
fn place_of(asked: &[AskedRows], d: V3) -> Option<usize>
    ensures { IfSome result (λ k. k < length asked.now) }
{
    for (k, one) in asked.iter().enumerate() {
        if is_same(one.d, d) {
            return Some(k);
        }
    }
    None
}

// whether no other direction need be looked at: all parts leave one by one, or there is a way, and the axes are done
fn is_fine(leaving: &Option<Leaving>, count: usize, k: usize) -> bool {
    let sets = set_count(leaving);
    sets >= count || (sets > 1 && k >= AXES)
}

/// How a likely direction takes `w` apart, if one does. That of the step before, `before`, is looked at first, then the
/// axes, then the others; the first that leaves the most sets is taken, and others only where the axes serve not.
pub fn likely_leaving(
    alloc: Global,
    parts: &[Part],
    asked: &[AskedRows],
    w: &[u32],
    before: V3,
) -> Result<Option<Leaving>, OutOfMemory>
    requires asked { All (AreAskedRows parts.now) asked.now }
    requires members { All (λ p. p < length parts.now) w.now }
    requires ascending { IsStrictlySortedBy nat_cmp w.now }
    ensures { IfOk result (λ answer. IfSome answer (IsLeaving parts.now w.now)) }
{
    let mut best = match place_of(asked, before) {
        None => None,
        Some(k) => leaving_along(alloc, parts, &asked[k], w)?,
    };
    for (k, one) in asked.iter().enumerate() {
        if is_fine(&best, w.len(), k) {
            return Ok(best);
        }
        let next = leaving_along(alloc, parts, one, w)?;
        best = finer(best, next);
    }
    Ok(best)
}

/// Whether all parts leave one by one along the direction.
pub fn takes_all_apart(
    alloc: Global,
    parts: &[Part],
    asked: &AskedRows,
    all: &[u32],
) -> Result<bool, OutOfMemory>
    requires asked { AreAskedRows parts.now asked.now }
    requires members { All (λ p. p < length parts.now) all.now }
    requires ascending { IsStrictlySortedBy nat_cmp all.now }
{
    let leaving = leaving_along(alloc, parts, asked, all)?;
    Ok(set_count(&leaving) >= all.len())
}
