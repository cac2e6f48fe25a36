// The directions ahead of two pieces, as half-spaces.
ghost use Rattle.std.specs.Prelude.{◌≡◌, ◌⊎◌, ◌↔◌, ◌++◌, [], ◌∷◌, Any, Contains, IfOk, IsTrue, List, OnOk};
ghost use Rattle.std.specs.Prelude.{Some, slice_get};
ghost use Rattle.staat_vec.specs.declared.vector.Sign.{Sign as SignValue};
ghost use Rattle.staat_vec.specs.Primitives.{canon};
ghost use Rattle.staat_pairs.specs.Tables.{AreTablePlanes, IsTableArc, IsTableFacet, facets_of};
ghost use Rattle.staat_cells.specs.HalfSpaces.{AreAhead, AreAmong, AreInside, IsInHalfSpace, IsSignAhead};

use staat_model::Arc;
use staat_planes::PlaneTable;
use staat_vec::{Listed, OutOfMemory, Sign, V3, canon, is_same};
use std::alloc::Global;

/// An open half-space that a plane of a table bounds: the number of the plane, and its sign there.
#[derive(Clone, Copy, PartialEq, Eq)]
pub struct HalfSpace {
    pub(crate) plane: usize,
    pub(crate) sign: Sign,
}

/// Open half-spaces, each bounded by a plane.
pub type HalfSpaces = Listed<HalfSpace>;

// the half-space that is ahead of a facet, on whose plane of this number it lies
fn half_space_ahead(table: &PlaneTable, n: V3, plane: usize) -> HalfSpace
    requires facet { IsTableFacet table.now.planes n }
    requires plane { slice_get table.now.planes plane ≡ Some (canon n) }
    requires rules { AreTablePlanes table.now.planes }
    ensures { (signs : List SignValue) → IsInHalfSpace signs result ↔ IsSignAhead table.now.planes signs n }
{
    if is_same(canon(n), n) {
        HalfSpace {
            plane,
            sign: Sign::Pos,
        }
    } else {
        HalfSpace {
            plane,
            sign: Sign::Neg,
        }
    }
}

/// The half-spaces of the directions ahead of an ordered pair of pieces.
pub(crate) fn half_spaces(
    alloc: Global,
    table: &PlaneTable,
    arc: Arc,
) -> Result<Vec<HalfSpace>, OutOfMemory>
    requires { IsTableArc table.now arc }
    ensures { IfOk result (λ half_spaces. AreAhead table.now.planes (facets_of table.now arc) half_spaces.items) }
{
    let mut found = Vec::new(alloc);
    for m in 0..table.facet_count(arc) {
        let plane = table.facet_plane(arc, m) as usize;
        found.push(half_space_ahead(table, table.facet(arc, m), plane))?;
    }
    Ok(found)
}

// whether a half-space is listed
fn has_half_space(half_spaces: &[HalfSpace], half_space: HalfSpace) -> bool
    ensures { IsTrue result ↔ Contains half_spaces.now half_space }
{
    half_spaces.contains(&half_space)
}

// whether each half-space of one cone is one of the other
fn are_among(cone: &[HalfSpace], other: &[HalfSpace]) -> bool
    ensures { IsTrue result ↔ AreAmong cone.now other.now }
{
    for half_space in cone {
        if !has_half_space(other, *half_space) {
            return false;
        }
    }
    true
}

// whether one of the cones holds all that the cone holds
fn any_wider(cones: &[HalfSpaces], cone: &[HalfSpace]) -> bool
    ensures { IsTrue result ↔ Any (λ wider. AreAmong wider cone.now) cones.now }
{
    for wider in cones {
        if are_among(wider.as_slice(), cone) {
            return true;
        }
    }
    false
}

/// Whether two cones have the same half-spaces in the same order.
pub(crate) fn is_same_cone(cone: &[HalfSpace], other: &[HalfSpace]) -> bool
    ensures { IsTrue result ↔ (cone.now ≡ other.now) }
{
    cone == other
}

/// Adds a copy of a cone.
pub(crate) fn push_copy(
    alloc: Global,
    cones: &mut Vec<HalfSpaces>,
    cone: &[HalfSpace],
) -> Result<(), OutOfMemory>
    ensures { OnOk result (cones.new.items ≡ cones.old.items ++ cone.now ∷ []) }
{
    cones.push(Listed::from_vec(cone.to_vec(alloc)?))?;
    Ok(())
}

/// Adds a copy of a cone, unless it lies in one that is listed.
pub(crate) fn push_cone(
    alloc: Global,
    cones: &mut Vec<HalfSpaces>,
    cone: &[HalfSpace],
) -> Result<(), OutOfMemory>
    ensures { OnOk result ((signs : List SignValue) → Any (AreInside signs) cones.new.items
        ↔ (Any (AreInside signs) cones.old.items ⊎ AreInside signs cone.now)) }
{
    if any_wider(cones, cone) {
        return Ok(());
    }
    push_copy(alloc, cones, cone)
}

/// The cones without those that lie in a later one, from the last on.
pub(crate) fn wide_cones(
    alloc: Global,
    cones: &[HalfSpaces],
) -> Result<Vec<HalfSpaces>, OutOfMemory>
    ensures { IfOk result (λ wide. (signs : List SignValue)
        → Any (AreInside signs) wide.items ↔ Any (AreInside signs) cones.now) }
{
    let mut wide = Vec::new(alloc);
    for k in 0..cones.len() {
        let cone = cones[cones.len() - 1 - k].as_slice();
        push_cone(alloc, &mut wide, cone)?;
    }
    Ok(wide)
}
