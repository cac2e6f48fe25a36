// Batches as they are tested at the signs of a cell: their tests are joined by threes, so that three signs choose a
// word at once.
ghost use Rattle.std.specs.Prelude.{◌≡◌, ◌≢◌, ◌⊎◌, ◌↔◌, ◌+◌, ◌*◌, ◌<◌, ◌≤◌, ℕ, List, All, IfOk, length};
ghost use Rattle.std.specs.Prelude.{slice_index, slice_index_or};
ghost use Rattle.std.specs.Int.{bit_at};
ghost use Rattle.staat_vec.specs.declared.vector.Sign.{Sign as SignValue};
ghost use Rattle.staat_graph.specs.Graphs.{HasArc};
ghost use Rattle.staat_cells.specs.Batches.{HasParts, HasPlanesUpTo, IsBatch, IsBatchArc, IsJoinedArc, IsJoinedBatch};
ghost use Rattle.staat_cells.specs.Batches.{HasLeft, IsLeft, IsLeftByAll, joined_outside, no_test, outside_by};
ghost use Rattle.staat_cells.specs.Batches.{outside_together, place_of_three};
ghost use Rattle.staat_cells.specs.CellGraphs.{IsArcAt, IsListedArc};
ghost use Rattle.staat_cells.specs.HalfSpaces.{sign_at};

use crate::batches::{ArcCones, Batch, PlaneTest};
use crate::incidence::place;
use staat_limits::MOST_PARTS;
use staat_vec::{OutOfMemory, Sign};
use std::alloc::Global;

/// What three planes rule out of the cones of a batch: for each three signs there the cones that no direction with
/// these signs is in, as bits.
#[derive(Clone, Copy)]
pub struct JoinedTest {
    pub(crate) first: usize,
    pub(crate) second: usize,
    pub(crate) third: usize,
    pub(crate) outside: [u128; 27],
}

/// What planes rule out of the cones of a batch, the last of these planes, and the parts that the cones belong to.
#[derive(Drop)]
pub struct JoinedBatch {
    pub(crate) tests: Vec<JoinedTest>,
    pub(crate) last: usize,
    pub(crate) arcs: Vec<ArcCones>,
}

// the test at a place, and behind the last one that rules out nothing
fn test_at(tests: &[PlaneTest], k: usize) -> PlaneTest
    ensures { result ≡ slice_index_or tests.now k no_test }
{
    if k < tests.len() {
        tests[k]
    } else {
        PlaneTest {
            plane: 0,
            outside: [0, 0, 0],
        }
    }
}

// the words of three tests, together for each three signs
#[tactic(auto, using(crate::proofs::GraphRows::words_are))]
fn joined_words(x: &PlaneTest, y: &PlaneTest, z: &PlaneTest) -> [u128; 27]
    ensures { (s t u : SignValue) → slice_index result (place_of_three s t u)
        ≡ outside_together x.now y.now z.now s t u }
{
    let mut words = [0u128; 27];
    for i in 0..27 {
        words[i] = x.outside[i / 9] | y.outside[i / 3 % 3] | z.outside[i % 3];
    }
    words
}

// three tests as one
#[tactic(auto, using(crate::proofs::GraphRows::three_left))]
fn joined(x: PlaneTest, y: PlaneTest, z: PlaneTest) -> JoinedTest
    ensures { (signs : List SignValue) (j : ℕ) → IsLeft (joined_outside signs result) j
        ↔ ((IsLeft (outside_by signs x) j × IsLeft (outside_by signs y) j) × IsLeft (outside_by signs z) j) }
{
    JoinedTest {
        first: x.plane,
        second: y.plane,
        third: z.plane,
        outside: joined_words(&x, &y, &z),
    }
}

// the tests, joined by threes
fn joined_tests(alloc: Global, tests: &[PlaneTest]) -> Result<Vec<JoinedTest>, OutOfMemory>
    ensures { IfOk result (λ found. (signs : List SignValue) (j : ℕ)
        → IsLeftByAll (joined_outside signs) found.items j ↔ IsLeftByAll (outside_by signs) tests.now j) }
{
    let count = tests.len().div_ceil(3);
    let mut found = Vec::with_capacity(alloc, count)?;
    for i in 0..count {
        let k = 3 * i;
        found.push(joined(
            test_at(tests, k),
            test_at(tests, k + 1),
            test_at(tests, k + 2),
        ))?;
    }
    Ok(found)
}

fn greater(x: usize, y: usize) -> usize
    ensures first { x ≤ result }
    ensures second { y ≤ result }
{
    if x < y { y } else { x }
}

// the greatest number of a plane of the tests
fn last_plane(tests: &[JoinedTest]) -> usize
    ensures { All (HasPlanesUpTo result) tests.now }
{
    let mut last = 0;
    for test in tests {
        last = greater(greater(last, test.first), greater(test.second, test.third));
    }
    last
}

// a batch with joined tests
fn joined_batch(alloc: Global, batch: &Batch) -> Result<JoinedBatch, OutOfMemory>
    requires { All HasParts batch.now.arcs.items }
    ensures rules { IfOk result IsJoinedBatch }
    ensures arcs { IfOk result (λ found. (signs : List SignValue) (a b : ℕ)
        → IsJoinedArc found signs a b ↔ IsBatchArc batch.now signs a b) }
{
    let tests = joined_tests(alloc, &batch.tests)?;
    let last = last_plane(&tests);
    let arcs = batch.arcs.to_vec(alloc)?;
    Ok(JoinedBatch { tests, last, arcs })
}

/// The batches with joined tests.
pub(crate) fn joined_batches(
    alloc: Global,
    batches: &[Batch],
) -> Result<Vec<JoinedBatch>, OutOfMemory>
    requires { All IsBatch batches.now }
    ensures rules { IfOk result (λ found. All IsJoinedBatch found.items) }
    ensures arcs { IfOk result (λ found. (signs : List SignValue) (a b : ℕ)
        → IsArcAt found.items signs a b ↔ IsListedArc batches.now signs a b) }
{
    let mut found = Vec::with_capacity(alloc, batches.len())?;
    for batch in batches {
        found.push(joined_batch(alloc, batch)?)?;
    }
    Ok(found)
}

// ---- the tests at signs

// the sign of the plane k, and zero where there is none
fn sign_at(signs: &[Sign], k: usize) -> Sign
    ensures { result ≡ sign_at signs.now k }
{
    if k < signs.len() {
        signs[k]
    } else {
        Sign::Zero
    }
}

// the word of a test that three signs choose
fn word_of(test: &JoinedTest, first: Sign, second: Sign, third: Sign) -> u128
    ensures { result ≡ slice_index test.now.outside (place_of_three first second third) }
{
    test.outside[(9 * place(first) + 3 * place(second) + place(third)) as usize]
}

// the word of a test that the signs choose, of which there may be none for planes up to the last
fn word_at(test: &JoinedTest, signs: &[Sign], last: usize) -> u128
    requires { HasPlanesUpTo last test.now }
    ensures { result ≡ joined_outside signs.now test.now }
{
    // one answer for all tests: so the loop over them is compiled once for each, and the first has no bounds
    if last < signs.len() {
        word_of(
            test,
            signs[test.first],
            signs[test.second],
            signs[test.third],
        )
    } else {
        word_of(
            test,
            sign_at(signs, test.first),
            sign_at(signs, test.second),
            sign_at(signs, test.third),
        )
    }
}

// the cones that are ruled out at directions with these signs
fn ruled_out(tests: &[JoinedTest], signs: &[Sign], last: usize) -> u128
    requires { All (HasPlanesUpTo last) tests.now }
    ensures { (j : ℕ) → IsLeft result j ↔ IsLeftByAll (joined_outside signs.now) tests.now j }
{
    let mut found: u128 = 0;
    for test in tests {
        found |= word_at(test, signs, last);
    }
    found
}

// ---- the arcs of a batch

// the bits of the first word that are not in the second
#[tactic(auto, using(crate::proofs::BatchCones::without_some))]
fn word_without(x: u128, y: u128) -> u128
    ensures { (result ≢ 0) ↔ ((j : ℕ) × (bit_at x j ≡ 1) × (bit_at y j ≡ 0)) }
{
    x & !y
}

// the row after two parts were looked at, where these cones are ruled out
fn row_after(row: u32, outside: u128, arc: &ArcCones) -> u32
    requires { arc.now.b < MOST_PARTS }
    ensures { (q : ℕ) → (bit_at result q ≡ 1) ↔ ((bit_at row q ≡ 1) ⊎ ((q ≡ arc.now.b)
        × HasLeft arc.now outside)) }
{
    // no branch: which cones are left changes from cell to cell
    let left = word_without(arc.cones, outside) != 0;
    row | (left as u32) << arc.b
}

/// Adds the arcs of a batch at directions with these signs.
pub(crate) fn add_batch_arcs(rows: &mut [u32; 32], batch: &JoinedBatch, signs: &[Sign])
    requires { IsJoinedBatch batch.now }
    ensures { (a b : ℕ) → HasArc rows.new a b ↔ (HasArc rows.old a b ⊎ IsJoinedArc batch.now signs.now a b) }
{
    let outside = ruled_out(&batch.tests, signs, batch.last);
    for arc in &batch.arcs {
        let row = rows[arc.a as usize];
        rows[arc.a as usize] = row_after(row, outside, arc);
    }
}
