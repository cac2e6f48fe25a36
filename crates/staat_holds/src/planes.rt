// The planes of a core.
ghost use Rattle.std.specs.Prelude.{◌≡◌, ◌≢◌, ◌≤◌, ◌⊎◌, ◌↔◌, ℕ, All, Contains, IfOk, IsTrue, OnOk, drop, length};
ghost use Rattle.staat_vec.specs.declared.vector.V3.{V3 as Vector};
ghost use Rattle.staat_vec.specs.Lists.{Lists};
ghost use Rattle.staat_vec.specs.Vectors.{IsWithin, origin, vector_cmp};
ghost use Rattle.staat_model.specs.Planes.{axes};
ghost use Rattle.staat_holds.specs.Links.{AreLinkPlanes, HasLinkOther, HasOther, IsLink, IsOther};

use crate::links::Link;
use staat_vec::{NORMAL, OutOfMemory, V3, X_AXIS, Y_AXIS, Z_AXIS, canon, in_order, is_same};
use std::alloc::Global;

fn is_axis(n: V3) -> bool
    ensures { IsTrue result ↔ Contains axes n }
{
    is_same(n, X_AXIS) || is_same(n, Y_AXIS) || is_same(n, Z_AXIS)
}

// the axes
fn axes_alone(alloc: Global) -> Result<Vec<V3>, OutOfMemory>
    ensures axes { IfOk result (λ planes. planes.items ≡ axes) }
    ensures within { IfOk result (λ planes. All (IsWithin NORMAL) planes.items) }
{
    Ok(vec![in alloc; X_AXIS, Y_AXIS, Z_AXIS]?)
}

// adds the canonical normal of a facet, unless it is an axis
fn add_plane(others: &mut Vec<V3>, facet: V3) -> Result<(), OutOfMemory>
    requires some { facet ≢ origin }
    requires short { IsWithin NORMAL facet }
    requires within { All (IsWithin NORMAL) others.old.items }
    ensures others { OnOk result ((n : Vector) →
        Contains others.new.items n ↔ (Contains others.old.items n ⊎ IsOther facet n)) }
    ensures within { OnOk result (All (IsWithin NORMAL) others.new.items) }
{
    let n = canon(facet);
    if is_axis(n) {
        return Ok(());
    }
    others.push(n)?;
    Ok(())
}

// so for each of the facets
fn add_planes(others: &mut Vec<V3>, facets: &[V3]) -> Result<(), OutOfMemory>
    requires some { All (λ n. n ≢ origin) facets.now }
    requires short { All (IsWithin NORMAL) facets.now }
    requires within { All (IsWithin NORMAL) others.old.items }
    ensures others { OnOk result ((n : Vector) →
        Contains others.new.items n ↔ (Contains others.old.items n ⊎ HasOther facets.now n)) }
    ensures within { OnOk result (All (IsWithin NORMAL) others.new.items) }
{
    for facet in facets {
        add_plane(others, *facet)?;
    }
    Ok(())
}

// the canonical normals of the facets of the links that are no axes, ascending
fn others_of(alloc: Global, count: u32, links: &[Link]) -> Result<Vec<V3>, OutOfMemory>
    requires { All (IsLink count) links.now }
    ensures others { IfOk result (λ others. Lists vector_cmp (HasLinkOther links.now) others.items) }
    ensures within { IfOk result (λ others. All (IsWithin NORMAL) others.items) }
{
    let mut others = Vec::new(alloc);
    for link in links {
        add_planes(&mut others, link.facets.as_slice())?;
    }
    Ok(in_order(others))
}

/// The axes, and then the canonical normals of the facets of the links that are no axes, ascending.
pub fn planes_of(alloc: Global, count: u32, links: &[Link]) -> Result<Vec<V3>, OutOfMemory>
    requires { All (IsLink count) links.now }
    ensures planes { IfOk result (λ planes. AreLinkPlanes links.now planes.items) }
    ensures within { IfOk result (λ planes. All (IsWithin NORMAL) planes.items) }
{
    let mut planes = axes_alone(alloc)?;
    let others = others_of(alloc, count, links)?;
    planes.extend_from_slice(others.as_slice())?;
    Ok(planes)
}

/// The planes from the place `k` on. `k` is at most their number.
pub fn planes_from(planes: &[V3], k: usize) -> &[V3]
    requires { k ≤ length planes.now }
    ensures { result.now ≡ drop k planes.now }
{
    &planes[k..]
}
