// The numbers of the points of the vertices.
ghost use Rattle.std.specs.Prelude.{◌≡◌, ◌≤◌, ◌<◌, length, Contains, IfOk, Some, slice_get};
ghost use Rattle.std.specs.List.Sorted.{IsStrictlySortedBy};
ghost use Rattle.staat_vec.specs.Vectors.{vector_cmp};
ghost use Rattle.staat_mesh.specs.Counts.{Numbers};

use staat_limits::MOST_POINTS;
use staat_off::Vertex;
use staat_vec::V3;
use std::alloc::{AllocError, Global};

// the number of the position among the points, or 0 where it is not there
fn number_of_position(points: &[V3], position: V3) -> u8
    requires ascending { IsStrictlySortedBy vector_cmp points.now }
    requires number { length points.now ≤ MOST_POINTS }
    ensures at { Contains points.now position → slice_get points.now result ≡ Some position }
    ensures below { result < MOST_POINTS }
{
    match points.binary_search(&position) {
        Ok(number) => number as u8,
        Err(_) => 0,
    }
}

/// The number of each vertex's position among the points. The time is linear in the number of vertices.
pub fn numbers_of(alloc: Global, points: &[V3], vertices: &[Vertex]) -> Result<Vec<u8>, AllocError>
    requires ascending { IsStrictlySortedBy vector_cmp points.now }
    requires number { length points.now ≤ MOST_POINTS }
    ensures { IfOk result (λ numbers. Numbers points.now vertices.now numbers.items) }
{
    let mut numbers = Vec::new(alloc);
    for vertex in vertices {
        numbers.push(number_of_position(points, vertex.point()))?;
    }
    Ok(numbers)
}
