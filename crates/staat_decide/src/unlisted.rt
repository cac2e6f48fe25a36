// Pieces that meet across a border between marked places and others, of any parts: for sets with too many pairs of
// pieces to list them all. Boxes and spans of whole parts leave few parts to look at.
ghost use Rattle.staat_motion.specs.Motions.{IsMotionOf};

use crate::reach::Way;
use crate::scene::View;
use crate::spots::Pair;
use crate::spreading::{Lead, is_marked};
use staat_cone::FacetSource;
use staat_holds::has_pieces;
use staat_model::{Arc, Part};
use staat_motion::Along;
use staat_vec::OutOfMemory;
use std::alloc::Global;

// how many pieces the part has, if there is one
fn piece_number(parts: &[Part], a: u32) -> u32 {
    if a as usize >= parts.len() {
        return 0;
    }
    let part = &parts[a as usize];
    part.pieces.as_slice().len().min(u32::MAX as usize) as u32
}

// the first piece of the part b that the piece i of the part a meets
fn met_by_piece<F: FacetSource>(
    view: &View<F>,
    a: u32,
    i: u32,
    b: u32,
) -> Result<Option<Arc>, OutOfMemory>
    requires { IsMotionOf view.now.parts.now view.now.along.now }
{
    for j in 0..piece_number(view.parts, b) {
        let arc = Arc { a, i, b, j };
        if has_pieces(view.parts, arc)
            && view.along.meets(view.alloc, view.source, view.parts, arc)?
        {
            return Ok(Some(arc));
        }
    }
    Ok(None)
}

// whether the part a blocks the part b, if there are such parts
fn blocks_part<F: FacetSource>(view: &View<F>, a: u32, b: u32) -> Result<bool, OutOfMemory>
    requires { IsMotionOf view.now.parts.now view.now.along.now }
{
    if a as usize >= view.parts.len() || b as usize >= view.parts.len() {
        return Ok(false);
    }
    view.along.blocks(view.alloc, view.source, view.parts, a, b)
}

// the first piece of the part a that meets one of the part b, if a blocks b
fn met_by_part<F: FacetSource>(view: &View<F>, a: u32, b: u32) -> Result<Option<Arc>, OutOfMemory>
    requires { IsMotionOf view.now.parts.now view.now.along.now }
{
    if !blocks_part(view, a, b)? {
        return Ok(None);
    }
    for i in 0..piece_number(view.parts, a) {
        if let Some(arc) = met_by_piece(view, a, i, b)? {
            return Ok(Some(arc));
        }
    }
    Ok(None)
}

// the first part at a place that is not marked to which the way leads from the part at the place x
fn met_from<F: FacetSource>(
    view: &View<F>,
    w: &[u32],
    marks: &[bool],
    way: Way,
    x: usize,
    a: u32,
) -> Result<Option<Pair>, OutOfMemory>
    requires { IsMotionOf view.now.parts.now view.now.along.now }
{
    for y in 0..w.len() {
        if !is_marked(marks, y) {
            let (from, to, p, q) = match way {
                Way::Ahead => (x, y, a, w[y]),
                Way::Back => (y, x, w[y], a),
            };
            if let Some(arc) = met_by_part(view, p, q)? {
                return Ok(Some(Pair {
                    smallness: 0,
                    arc,
                    lead: Lead { from, to },
                }));
            }
        }
    }
    Ok(None)
}

/// The first pieces that meet across on the way from a marked place to one that is not; `w` has the parts at the
/// places.
pub fn met_across<F: FacetSource>(
    view: &View<F>,
    w: &[u32],
    marks: &[bool],
    way: Way,
) -> Result<Option<Pair>, OutOfMemory>
    requires { IsMotionOf view.now.parts.now view.now.along.now }
{
    for x in 0..w.len() {
        if is_marked(marks, x) {
            if let Some(pair) = met_from(view, w, marks, way, x, w[x])? {
                return Ok(Some(pair));
            }
        }
    }
    Ok(None)
}
