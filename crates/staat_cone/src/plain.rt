// The plain source of facets.
use crate::facets::facets_of;
use crate::method::Method;
use crate::source::FacetSource;
use staat_model::Piece;
use staat_vec::{OutOfMemory, V3};
use std::alloc::Global;

/// Tries all pairs of differences, but only of the few that matter.
///
/// The list of the few begins with three differences that span space. Each facet of the few is tested in two passes
/// over the points, and the difference that lies farthest behind it joins the few. Where none lies behind any, few and
/// all have the same facets ([`few_facets`](crate::laws::few_facets)). Each pair is tried once.
#[derive(Clone, Copy)]
pub struct Plain;

impl FacetSource for Plain {
    fn facets(&self, alloc: Global, p: &Piece, q: &Piece) -> Result<Vec<V3>, OutOfMemory> {
        facets_of(alloc, Method::Pairs, p, q)
    }
}
