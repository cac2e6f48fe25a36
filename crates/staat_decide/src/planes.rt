// Normals of planes, and the facets of pairs of pieces, for guesses.
ghost use Rattle.std.specs.Prelude.{All, IfSome};
ghost use Rattle.staat_vec.specs.declared.vector.TheConstants.{DIRECTION, NORMAL};
ghost use Rattle.staat_vec.specs.Vectors.{IsWithin};

use staat_cone::{FacetSource, blocks};
use staat_model::{Arc, Part, Piece};
use staat_vec::{
    NORMAL, Normal, ORIGIN, OutOfMemory, V3, X_AXIS, Y_AXIS, Z_AXIS, canon, cross_normal, is_same,
    is_within, primitive,
};
use std::alloc::Global;

/// The axes.
pub const AXES: [V3; 3] = [Z_AXIS, Y_AXIS, X_AXIS];

/// The facets of two pieces.
#[derive(Drop)]
pub struct Facets {
    list: Vec<V3>,
    ghost small: { All (IsWithin NORMAL) list.items },
}

fn has_plane(planes: &[Normal], v: V3) -> bool {
    for plane in planes {
        if is_same(plane.vector(), v) {
            return true;
        }
    }
    false
}

/// The canonical normal of the plane that the vector is a normal of, if it is not zero and not too great.
pub fn plane_of(v: V3) -> Option<V3>
    ensures { IfSome result (IsWithin NORMAL) }
{
    if v == ORIGIN || !is_within(v, NORMAL) {
        return None;
    }
    Some(canon(v))
}

/// The direction in which two planes cross, of two opposite ones the canonical one, if they do.
pub fn crossing_of(g: V3, h: V3) -> Option<V3> {
    if !is_within(g, NORMAL) || !is_within(h, NORMAL) {
        return None;
    }
    let d = cross_normal(g, h);
    if d == ORIGIN {
        return None;
    }
    Some(canon(primitive(d)))
}

/// Adds the planes of the facets that are not there.
pub fn add_planes(planes: &mut Vec<Normal>, facets: &[V3]) -> Result<(), OutOfMemory> {
    for n in facets {
        if let Some(plane) = plane_of(*n) {
            if !has_plane(planes.as_slice(), plane) {
                planes.push(Normal::of(plane))?;
            }
        }
    }
    Ok(())
}

/// How many of the facets have planes that are not there.
pub fn new_planes(planes: &[Normal], facets: &[V3]) -> usize {
    let mut count = 0usize;
    for n in facets {
        if let Some(plane) = plane_of(*n) {
            if !has_plane(planes, plane) {
                count = count.saturating_add(1);
            }
        }
    }
    count
}

/// The direction in which two of the planes cross, and zero where there are not two.
pub fn crossing(planes: &[Normal], i: usize, j: usize) -> V3
    ensures { IsWithin DIRECTION result }
{
    if i >= planes.len() || j >= planes.len() {
        return ORIGIN;
    }
    cross_normal(planes[i].vector(), planes[j].vector())
}

/// The facets that are known, as normals of planes.
pub fn normals_of(facets: &Option<Facets>) -> &[V3]
    ensures { All (IsWithin NORMAL) result.now }
{
    match facets {
        None => &[],
        Some(facets) => facets.list.as_slice(),
    }
}

// the piece i of the part a, if there is one
fn piece_at(parts: &[Part], a: u32, i: u32) -> Option<&Piece> {
    if a as usize >= parts.len() {
        return None;
    }
    let pieces = parts[a as usize].pieces.as_slice();
    if i as usize >= pieces.len() {
        return None;
    }
    Some(&pieces[i as usize])
}

/// The facets of two pieces, if there are such pieces.
pub fn facets_of<F: FacetSource>(
    alloc: Global,
    source: &F,
    parts: &[Part],
    pair: Arc,
) -> Result<Option<Facets>, OutOfMemory> {
    let Some(p) = piece_at(parts, pair.a, pair.i) else {
        return Ok(None);
    };
    let Some(q) = piece_at(parts, pair.b, pair.j) else {
        return Ok(None);
    };
    let list = source.facets(alloc, p, q)?;
    Ok(Some(Facets { list }))
}

/// Whether `d` leads ahead of all of the facets.
pub fn is_ahead(facets: &Facets, d: V3) -> bool
    requires { IsWithin DIRECTION d }
{
    blocks(facets.list.as_slice(), d)
}
