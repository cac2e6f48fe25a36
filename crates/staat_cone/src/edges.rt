// The walls of the cone of a list of vectors that go through two of them, by cross products as they are.
ghost use Rattle.std.specs.Prelude.{◌≡◌, ◌≢◌, All, OnOk};
ghost use Rattle.staat_vec.specs.Vectors.{IsWithin, origin};
ghost use Rattle.staat_vec.specs.Primitives.{IsPrimitiveOf};
ghost use Rattle.staat_model.specs.Cones.{IsAbove};
ghost use Rattle.staat_cone.specs.Pairs.{Adds, AddsEdges, IsEdge};

use crate::walls::{is_above, is_wall};
use staat_vec::{DIFF, NORMAL, OutOfMemory, V3, cross_diff, neg, primitive};

// adds f, if it has all the vectors on its positive side
fn add_edge(vs: &[V3], f: V3, out: &mut Vec<V3>) -> Result<(), OutOfMemory>
    requires normal { IsWithin NORMAL f }
    requires vectors { All (IsWithin DIFF) vs.now }
    ensures { OnOk result (Adds (λ n. (n ≡ f) × IsAbove n vs.now) out.old.items out.new.items) }
{
    if is_above(f, vs) {
        out.push(f)?;
    }
    Ok(())
}

/// Adds the cross products of g and h that have all the vectors on their positive side: one, two, or none.
pub fn add_edges(vs: &[V3], g: V3, h: V3, out: &mut Vec<V3>) -> Result<(), OutOfMemory>
    requires vectors { All (IsWithin DIFF) vs.now }
    requires first { IsWithin DIFF g }
    requires second { IsWithin DIFF h }
    ensures { OnOk result (Adds (IsEdge vs.now g h) out.old.items out.new.items) }
{
    let f = cross_diff(g, h);
    if is_wall(f) {
        add_edge(vs, f, out)?;
        add_edge(vs, neg(f), out)?;
    }
    Ok(())
}

/// Adds the cross products of g and one of the vectors that have all the vectors on their positive side.
pub fn add_all_edges(vs: &[V3], g: V3, out: &mut Vec<V3>) -> Result<(), OutOfMemory>
    requires vectors { All (IsWithin DIFF) vs.now }
    requires vector { IsWithin DIFF g }
    ensures { OnOk result (AddsEdges vs.now g out.old.items out.new.items) }
{
    for h in vs {
        add_edges(vs, *h, g, out)?;
    }
    Ok(())
}

/// The primitive vector on the ray of a normal.
pub fn primitive_normal(n: V3) -> V3
    requires some { n ≢ origin }
    requires normal { IsWithin NORMAL n }
    ensures { IsPrimitiveOf n result }
{
    primitive(n)
}
