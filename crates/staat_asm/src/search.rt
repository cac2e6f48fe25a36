// The search for the first two pieces of different parts that overlap.
ghost use Rattle.std.specs.Prelude.{◌<◌, ◌↔◌, IfOk, IsTrue, length};
ghost use Rattle.staat_model.specs.Assemblies.{HoldsAt, piece_count};
ghost use Rattle.staat_model.specs.Meeting.{Overlap};
ghost use Rattle.staat_motion.specs.Motions.{HasBothPieces};
ghost use Rattle.staat_asm.specs.Overlaps.{
  IsAtRest,
  IsOverlap,
  IsOverlapOfPart,
  IsOverlapOfPiece,
  IsOverlapWithPart,
  Searches,
};

use crate::refusal::AsmRefusal;
use staat_cone::{FacetSource, overlap};
use staat_model::{Arc, Product};
use staat_motion::{Along, Bodies};
use staat_vec::{ORIGIN, OutOfMemory};
use std::alloc::Global;

// How far the parts and their pieces reach along the axes: what is kept for no direction at all, along which those
// pieces meet that overlap.
fn boxes_of(alloc: Global, product: &Product) -> Result<Along, OutOfMemory>
    ensures { IfOk result (IsAtRest product.now) }
{
    let parts = product.as_slice();
    let bodies = Bodies::of(alloc, parts)?;
    let boxes = Along::of(alloc, parts, &bodies, ORIGIN)?;
    Ok(boxes)
}

// whether the two pieces of the arc overlap: walls and facets are looked for only where their boxes share inner points
fn pieces_overlap<F: FacetSource>(
    alloc: Global,
    source: &F,
    product: &Product,
    boxes: &Along,
    arc: Arc,
) -> Result<bool, OutOfMemory>
    requires pieces { HasBothPieces product.now arc }
    requires boxes { IsAtRest product.now boxes.now }
    ensures { IfOk result (λ answer. IsTrue answer ↔ HoldsAt product.now arc Overlap) }
{
    if boxes.apart(arc) {
        return Ok(false);
    }
    let p = product.piece(arc.a, arc.i);
    let q = product.piece(arc.b, arc.j);
    let answer = overlap(alloc, source, p, q)?;
    Ok(answer)
}

// piece i of part a against all pieces of part b
fn search_part<F: FacetSource>(
    alloc: Global,
    source: &F,
    product: &Product,
    boxes: &Along,
    a: u32,
    i: u32,
    b: u32,
) -> Result<(), AsmRefusal>
    requires first { a < length product.now }
    requires piece { i < piece_count product.now a }
    requires second { b < length product.now }
    requires order { a < b }
    requires boxes { IsAtRest product.now boxes.now }
    ensures { Searches (IsOverlapWithPart product.now a i b) result }
{
    if boxes.piece_apart(a, i, b) {
        return Ok(());
    }
    for j in 0..product.pieces(b) {
        if pieces_overlap(alloc, source, product, boxes, Arc { a, i, b, j })? {
            return Err(AsmRefusal::Overlap(a, i, b, j));
        }
    }
    Ok(())
}

// piece i of part a against all pieces of the parts behind it
fn search_behind<F: FacetSource>(
    alloc: Global,
    source: &F,
    product: &Product,
    boxes: &Along,
    a: u32,
    i: u32,
) -> Result<(), AsmRefusal>
    requires part { a < length product.now }
    requires piece { i < piece_count product.now a }
    requires boxes { IsAtRest product.now boxes.now }
    ensures { Searches (IsOverlapOfPiece product.now a i) result }
{
    let end = product.parts();
    for b in a + 1..end {
        search_part(alloc, source, product, boxes, a, i, b)?;
    }
    Ok(())
}

// all pieces of part a against those of the parts behind it
fn search_from<F: FacetSource>(
    alloc: Global,
    source: &F,
    product: &Product,
    boxes: &Along,
    a: u32,
) -> Result<(), AsmRefusal>
    requires part { a < length product.now }
    requires boxes { IsAtRest product.now boxes.now }
    ensures { Searches (IsOverlapOfPart product.now a) result }
{
    for i in 0..product.pieces(a) {
        search_behind(alloc, source, product, boxes, a, i)?;
    }
    Ok(())
}

/// Whether no two pieces of different parts overlap, or the first two that do. Each two are looked at once.
pub fn search<F: FacetSource>(
    alloc: Global,
    source: &F,
    product: &Product,
) -> Result<(), AsmRefusal>
    ensures { Searches (IsOverlap product.now) result }
{
    let boxes = boxes_of(alloc, product)?;
    for a in 0..product.parts() {
        search_from(alloc, source, product, &boxes, a)?;
    }
    Ok(())
}
