// The source of facets by scans.
use crate::facets::facets_of;
use crate::method::Method;
use crate::source::FacetSource;
use staat_model::Piece;
use staat_vec::{OutOfMemory, V3};
use std::alloc::Global;

/// Scans around each of the few differences that matter.
///
/// The list of the few grows as that of [`Plain`](crate::Plain) does. For each difference that joins, two scans find
/// the ones that lie furthest to either side of it ([`furthest`](crate::furthest)), and only the normals across it and
/// one of these are tested. So the time grows with the square of the number of the few, and not with its cube.
#[derive(Clone, Copy)]
pub struct Scan;

impl FacetSource for Scan {
    fn facets(&self, alloc: Global, p: &Piece, q: &Piece) -> Result<Vec<V3>, OutOfMemory> {
        facets_of(alloc, Method::Scans, p, q)
    }
}
