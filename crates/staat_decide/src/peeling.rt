// What one direction takes apart.
ghost use Rattle.std.specs.Prelude.{◌≡◌, ◌≢◌, ◌<◌, ◌≤◌, List, All, IfNone, IfOk, IfSome, length};
ghost use Rattle.std.specs.List.Sorted.{IsStrictlySortedBy};
ghost use Rattle.std.specs.Ordering.{nat_cmp};
ghost use Rattle.staat_vec.specs.declared.vector.V3.{V3 as Vector};
ghost use Rattle.staat_vec.specs.Vectors.{origin};
ghost use Rattle.staat_model.specs.declared.assembly.Part.{Part as PartValue};
ghost use Rattle.staat_model.specs.SetLists.{set_of};
ghost use Rattle.staat_motion.specs.Motions.{IsMotionOf};
ghost use Rattle.staat_decide.specs.Arcs.{AreBlockingRows};
ghost use Rattle.staat_decide.specs.Peelings.{IsHeldAlong, IsPeeling};
ghost use Rattle.staat_decide.specs.Reaching.{AreAllReached};

use crate::arcs::{Row, rows_of};
use crate::labels::{Labels, labels_of};
use crate::order::keeps_order;
use crate::reach::{Way, first_unmarked, labels_by, reached};
use crate::sets::{Sets, classes};
use staat_cone::FacetSource;
use staat_model::Part;
use staat_motion::Along;
use staat_vec::OutOfMemory;
use std::alloc::Global;

// the sets with the same label, where these leave one after the other
fn judged(
    alloc: Global,
    rows: &[Row],
    w: &[u32],
    labels: &Labels,
) -> Result<Option<Sets>, OutOfMemory>
    requires ascending { IsStrictlySortedBy nat_cmp w.now }
    requires rows { length rows.now ≡ length w.now }
    requires each { All (λ row. length row ≡ length w.now) rows.now }
    ensures { IfOk result (λ answer. IfSome answer (λ sets. (parts : List PartValue) (d : Vector) → d ≢ origin
        → AreBlockingRows parts d w.now rows.now → IsPeeling parts d w.now sets)) }
{
    let of = labels.of.as_slice();
    if of.len() != w.len() || !keeps_order(rows, of, labels.count) {
        return Ok(None);
    }
    let sets = classes(alloc, w, of, labels.count)?;
    if sets.len() < 2 {
        return Ok(None);
    }
    Ok(Some(Sets::from_vec(sets)))
}

// two sets, of which one is what is reached from the first part on the way, where that is not all
fn split(alloc: Global, rows: &[Row], w: &[u32], way: Way) -> Result<Option<Sets>, OutOfMemory>
    requires ascending { IsStrictlySortedBy nat_cmp w.now }
    requires rows { length rows.now ≡ length w.now }
    requires each { All (λ row. length row ≡ length w.now) rows.now }
    requires some { 1 ≤ length w.now }
    ensures some { IfOk result (λ answer. IfSome answer (λ sets. (parts : List PartValue) (d : Vector) → d ≢ origin
        → AreBlockingRows parts d w.now rows.now → IsPeeling parts d w.now sets)) }
    ensures none { IfOk result (λ answer. IfNone answer (AreAllReached way rows.now)) }
{
    let marks = reached(alloc, rows, way)?;
    let Some(_place) = first_unmarked(marks.as_slice()) else {
        return Ok(None);
    };
    let labels = labels_by(alloc, marks.as_slice(), way)?;
    let sets = classes(alloc, w, labels.as_slice(), 2)?;
    Ok(Some(Sets::from_vec(sets)))
}

// what is reached from the first part along arcs, or against them, decides
fn decided(alloc: Global, rows: &[Row], w: &[u32]) -> Result<Option<Sets>, OutOfMemory>
    requires ascending { IsStrictlySortedBy nat_cmp w.now }
    requires rows { length rows.now ≡ length w.now }
    requires each { All (λ row. length row ≡ length w.now) rows.now }
    requires some { 1 ≤ length w.now }
    ensures some { IfOk result (λ answer. IfSome answer (λ sets. (parts : List PartValue) (d : Vector) → d ≢ origin
        → AreBlockingRows parts d w.now rows.now → IsPeeling parts d w.now sets)) }
    ensures none { IfOk result (λ answer. IfNone answer ((parts : List PartValue) (d : Vector)
        → AreBlockingRows parts d w.now rows.now → IsHeldAlong parts d (set_of w.now))) }
{
    match split(alloc, rows, w, Way::Ahead)? {
        Some(sets) => Ok(Some(sets)),
        None => split(alloc, rows, w, Way::Back),
    }
}

/// Sets of parts that together are `w` and leave one after the other along a direction, from rows that say which of
/// them blocks which along it. There are none exactly where no side of `w` is free of the rest.
///
/// Its strong components are looked for, and judged. Only if that finds nothing, what is reached from the first part
/// along arcs, and against them, is marked, which decides it. The time is quadratic in the number of parts as a rule,
/// and cubic at worst.
pub fn take_apart(alloc: Global, rows: &[Row], w: &[u32]) -> Result<Option<Sets>, OutOfMemory>
    requires ascending { IsStrictlySortedBy nat_cmp w.now }
    requires rows { length rows.now ≡ length w.now }
    requires each { All (λ row. length row ≡ length w.now) rows.now }
    ensures some { IfOk result (λ answer. IfSome answer (λ sets. (parts : List PartValue) (d : Vector) → d ≢ origin
        → AreBlockingRows parts d w.now rows.now → IsPeeling parts d w.now sets)) }
    ensures none { IfOk result (λ answer. IfNone answer ((parts : List PartValue) (d : Vector)
        → AreBlockingRows parts d w.now rows.now → IsHeldAlong parts d (set_of w.now))) }
{
    if w.is_empty() {
        return Ok(None);
    }
    let labels = labels_of(alloc, rows)?;
    if let Some(sets) = judged(alloc, rows, w, &labels)? {
        return Ok(Some(sets));
    }
    decided(alloc, rows, w)
}

/// Sets that together are `w` and leave one after the other along the direction: none of their parts blocks one of a
/// later set. There are none exactly where no side of `w` is free of the rest along it.
pub fn peel<F: FacetSource>(
    alloc: Global,
    source: &F,
    parts: &[Part],
    along: &Along,
    w: &[u32],
) -> Result<Option<Sets>, OutOfMemory>
    requires made { IsMotionOf parts.now along.now }
    requires moves { along.now.d ≢ origin }
    requires members { All (λ p. p < length parts.now) w.now }
    requires ascending { IsStrictlySortedBy nat_cmp w.now }
    ensures some { IfOk result (λ answer. IfSome answer (IsPeeling parts.now along.now.d w.now)) }
    ensures none { IfOk result (λ answer. IfNone answer (IsHeldAlong parts.now along.now.d (set_of w.now))) }
{
    let rows = rows_of(alloc, source, parts, along, w)?;
    take_apart(alloc, rows.as_slice(), w)
}
