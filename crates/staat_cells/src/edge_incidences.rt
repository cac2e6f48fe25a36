// The incidences of vertices: the edges that end there.
ghost use Rattle.std.specs.Prelude.{◌≡◌, ◌≢◌, ◌<◌, ◌≤◌, [], ◌∷◌, Contains, IfOk, OnOk, length, map, slice_index_or};
ghost use Rattle.staat_vec.specs.Lists.{Lists};
ghost use Rattle.staat_vec.specs.Vectors.{IsWithin, origin};
ghost use Rattle.staat_model.specs.Cells.{AreCellsOf, signs_of};
ghost use Rattle.staat_model.specs.Planes.{vertices};
ghost use Rattle.staat_pairs.specs.Tables.{AreTablePlanes};
ghost use Rattle.staat_model.specs.declared.tree.Kind.TheVariants.{Edge, Point};
ghost use Rattle.staat_cells.specs.ZeroSigns.{zero_places};
ghost use Rattle.staat_cells.specs.Compositions.{entry_of};
ghost use Rattle.staat_cells.specs.Packing.{incidence_cmp, incidence_of};
ghost use Rattle.staat_cells.specs.Stages.{GrewByAll, HaveSigns, IsAxisOff, IsBesideIncidence, IsEdgeIncidence};
ghost use Rattle.staat_cells.specs.Stages.{IsIncidence};

use crate::cell::Cell;
use crate::incidence::Incidence;
use crate::order::{lesser_in_order, mirror_sum, push_mirrors};
use crate::zero_signs::{incidence_towards, zeros_of};
use staat_vec::{NORMAL, Normal, OutOfMemory, V3, cross_normal, neg};
use std::alloc::Global;

// an axis whose plane the vector does not lie on
fn axis_off(v: V3) -> V3
    requires { v ≢ origin }
    ensures is { IsAxisOff v result }
    ensures size { IsWithin NORMAL result }
{
    if v.x != 0 {
        V3 { x: 1, y: 0, z: 0 }
    } else if v.y != 0 {
        V3 { x: 0, y: 1, z: 0 }
    } else {
        V3 { x: 0, y: 0, z: 1 }
    }
}

// adds both incidences of a vertex on a plane at which it has a zero
fn push_at(
    planes: &[Normal],
    point: &Cell,
    zeros: &[usize],
    base: Incidence,
    j: usize,
    m: V3,
    incidences: &mut Vec<Incidence>,
) -> Result<(), OutOfMemory>
    requires few { length planes.now ≤ 256 }
    requires signs { point.now.signs ≡ signs_of planes.now point.now.d }
    requires zeros { zeros.now ≡ zero_places 0 point.now.signs }
    requires base { base ≡ incidence_of point.now.signs base.of }
    requires listed { Contains zeros.now j }
    requires m { IsWithin NORMAL m }
    ensures { OnOk result (GrewByAll (IsBesideIncidence (slice_index_or planes.now j origin ∷ []) planes.now
        point.now.d m base.of) incidences.old.items incidences.new.items) }
{
    let signs = point.signs.as_slice();
    let w = cross_normal(planes[j].vector(), m);
    incidences.push(incidence_towards(planes, signs, zeros, base, w))?;
    incidences.push(incidence_towards(planes, signs, zeros, base, neg(w)))?;
    Ok(())
}

// adds the incidences of a vertex on all planes through it
fn push_all(
    planes: &[Normal],
    point: &Cell,
    zeros: &[usize],
    base: Incidence,
    m: V3,
    incidences: &mut Vec<Incidence>,
) -> Result<(), OutOfMemory>
    requires few { length planes.now ≤ 256 }
    requires signs { point.now.signs ≡ signs_of planes.now point.now.d }
    requires zeros { zeros.now ≡ zero_places 0 point.now.signs }
    requires base { base ≡ incidence_of point.now.signs base.of }
    requires m { IsWithin NORMAL m }
    ensures { OnOk result (GrewByAll (IsBesideIncidence planes.now planes.now point.now.d m base.of)
        incidences.old.items incidences.new.items) }
{
    for i in 0..zeros.len() {
        push_at(planes, point, zeros, base, zeros[i], m, incidences)?;
    }
    Ok(())
}

// adds the incidences of a vertex, with its number
fn push_edge_incidences(
    alloc: Global,
    planes: &[Normal],
    point: &Cell,
    own: Incidence,
    k: usize,
    incidences: &mut Vec<Incidence>,
) -> Result<(), OutOfMemory>
    requires planes { AreTablePlanes planes.now }
    requires few { length planes.now ≤ 256 }
    requires vertex { Contains (vertices planes.now) point.now.d }
    requires signs { point.now.signs ≡ signs_of planes.now point.now.d }
    requires own { own ≡ incidence_of point.now.signs own.of }
    ensures { OnOk result (GrewByAll (IsEdgeIncidence planes.now point.now.d k)
        incidences.old.items incidences.new.items) }
{
    let base = Incidence { of: k, ..own };
    let zeros = zeros_of(alloc, point.signs.as_slice())?;
    let m = axis_off(point.d);
    push_all(planes, point, &zeros, base, m, incidences)
}

/// The incidences of vertices towards the edges that end there, in their order, from those with the signs of the
/// vertices. Those of the first half are found, and the others are their opposites.
pub(crate) fn edge_incidences(
    alloc: Global,
    planes: &[Normal],
    points: &[Cell],
    own: &[Incidence],
) -> Result<Vec<Incidence>, OutOfMemory>
    requires planes { AreTablePlanes planes.now }
    requires few { length planes.now ≤ 256 }
    requires points { AreCellsOf planes.now Point (map entry_of points.now) }
    requires own { HaveSigns (map entry_of points.now) own.now }
    ensures { IfOk result (λ found. Lists incidence_cmp (IsIncidence planes.now Edge (map entry_of points.now))
        found.items) }
{
    let sum = mirror_sum(alloc, planes, points.len())?;
    let mut incidences = Vec::with_capacity(alloc, points.len().saturating_mul(5))?;
    for k in 0..points.len() / 2 {
        push_edge_incidences(alloc, planes, &points[k], own[k], k, &mut incidences)?;
    }
    let mut found = lesser_in_order(sum, incidences);
    push_mirrors(sum, &mut found)?;
    Ok(found)
}
