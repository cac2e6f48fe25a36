// By which method the facets of cones are found.
ghost use Rattle.std.specs.Prelude.{All, OnOk};
ghost use Rattle.staat_vec.specs.Vectors.{IsWithin};
ghost use Rattle.staat_cone.specs.Pairs.{AddsEdges};

use crate::around::add_furthest;
use crate::edges::add_all_edges;
use staat_vec::{DIFF, OutOfMemory, V3};

/// How the facets that go through a vector are found.
#[derive(Clone, Copy)]
pub enum Method {
    /// From all its pairs with the others.
    Pairs,
    /// From its pairs with the two that lie furthest to either side of it.
    Scans,
}

/// Adds edges through v and others of the vectors, among them a multiple of each facet that goes through v.
pub fn add_edges_through(
    method: Method,
    vs: &[V3],
    v: V3,
    out: &mut Vec<V3>,
) -> Result<(), OutOfMemory>
    requires vectors { All (IsWithin DIFF) vs.now }
    requires around { IsWithin DIFF v }
    ensures { OnOk result (AddsEdges vs.now v out.old.items out.new.items) }
{
    match method {
        Method::Pairs => add_all_edges(vs, v, out),
        Method::Scans => add_furthest(vs, v, out),
    }
}
