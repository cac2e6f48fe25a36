// What is asked of parts.
use staat_cone::FacetSource;
use staat_model::Part;
use staat_motion::{Along, Bodies};
use std::alloc::Global;

/// Parts with the boxes of their pieces, and a source of the facets of two pieces.
#[derive(Drop)]
pub struct Scene<'a, F: FacetSource> {
    pub alloc: Global,
    pub source: &'a F,
    pub parts: &'a [Part],
    pub bodies: &'a Bodies,
}

/// Parts as they move along one direction, and a source of the facets of two pieces.
#[derive(Drop)]
pub struct View<'a, F: FacetSource> {
    pub alloc: Global,
    pub source: &'a F,
    pub parts: &'a [Part],
    pub along: &'a Along,
}
