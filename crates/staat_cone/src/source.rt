// What finds the facets of two pieces.
ghost use Rattle.std.specs.Prelude.{◌≡◌, ◌↔◌, [], All, IfOk};
ghost use Rattle.staat_vec.specs.Vectors.{IsWithin, vector_cmp};
ghost use Rattle.staat_vec.specs.Lists.{Lists};
ghost use Rattle.staat_model.specs.Meeting.{Overlap};
ghost use Rattle.staat_model.specs.Facets.{IsFacet};

use staat_model::Piece;
use staat_vec::{NORMAL, OutOfMemory, V3};
use std::alloc::Global;

/// A way to find the facets of the cone of directions along which a piece meets another.
///
/// All sources answer the same. The facets are primitive normals whose components are at most [`NORMAL`] in absolute
/// value.
pub trait FacetSource {
    /// The facets of the ordered pair `(p, q)`, ascending. There are none exactly where the two pieces overlap.
    fn facets(&self, alloc: Global, p: &Piece, q: &Piece) -> Result<Vec<V3>, OutOfMemory>
        ensures facets { IfOk result (λ list. Lists vector_cmp (IsFacet p.now q.now) list.items) }
        ensures overlap { IfOk result (λ list. (list.items ≡ []) ↔ Overlap p.now q.now) }
        ensures size { IfOk result (λ list. All (IsWithin NORMAL) list.items) };
}
