// The rule of edges: what an edge joins, exactly two edges join.
ghost use Rattle.std.specs.Prelude.{◌≡◌, ◌≤◌, ◌<◌, ◌++◌, ℕ, List, length, take, All, IfOk};
ghost use Rattle.std.specs.Prelude.{IfSome, MatchOption, Some};
ghost use Rattle.std.specs.Prelude.{slice_get};
ghost use Rattle.std.specs.List.{flat_map};
ghost use Rattle.std.specs.List.Sorted.{IsStrictlySortedBy};
ghost use Rattle.staat_vec.specs.Vectors.{vector_cmp};
ghost use Rattle.staat_vec.specs.Lists.{Lists};
ghost use Rattle.staat_off.specs.Raws.{IsCounted, IsIndexed};
ghost use Rattle.staat_mesh.specs.Checks.{ChecksEdges};
ghost use Rattle.staat_mesh.specs.Counts.{Counts, IsFirstUnpaired, IsPaired, numbered};
ghost use Rattle.staat_mesh.specs.Edges.{edges};
ghost use Rattle.staat_mesh.specs.Polygons.{IsUsed, mesh};

use crate::numbers::numbers_of;
use crate::refusal::MeshRefusal;
use crate::table::EdgeTable;
use staat_limits::MOST_POINTS;
use staat_off::{Corners, Raw};
use staat_vec::V3;
use std::alloc::{AllocError, Global};

// the numbers of the points that the edge at the corner joins
fn edge_at(numbers: &[u8], face: &[u32], corner: usize) -> (u8, u8)
    requires numbers { All (λ n. n < MOST_POINTS) numbers.now }
    requires face { All (λ v. v < length numbers.now) face.now }
    requires corner { corner < length face.now }
    ensures edge { slice_get (edges (numbered numbers.now face.now)) corner ≡ Some result }
    ensures from { result.0 < MOST_POINTS }
    ensures to { result.1 < MOST_POINTS }
{
    let next = if corner + 1 < face.len() {
        corner + 1
    } else {
        0
    };
    (numbers[face[corner] as usize], numbers[face[next] as usize])
}

// counts the edges of a face
fn count_face(table: &mut EdgeTable, numbers: &[u8], face: &[u32])
    requires numbers { All (λ n. n < MOST_POINTS) numbers.now }
    requires face { All (λ v. v < length numbers.now) face.now }
    ensures { (seen : List (ℕ × ℕ)) → Counts table.old seen → Counts table.new (seen ++ edges
        (numbered numbers.now face.now)) }
{
    for corner in 0..face.len() {
        let (from, to) = edge_at(numbers, face, corner);
        table.add(from, to);
    }
}

// the table of the edges of all faces
fn table_of(alloc: Global, numbers: &[u8], faces: &[Corners]) -> Result<EdgeTable, AllocError>
    requires numbers { All (λ n. n < MOST_POINTS) numbers.now }
    requires faces { All (All (λ v. v < length numbers.now)) faces.now }
    ensures { IfOk result (λ table. Counts table (flat_map (λ face. edges (numbered numbers.now face)) faces.now)) }
{
    let mut table = EdgeTable::new(alloc)?;
    for face in faces {
        count_face(&mut table, numbers, face.as_slice());
    }
    Ok(table)
}

// the first corner of the face whose edge joins two points that are not joined by exactly two edges of the table
fn open_corner(table: &EdgeTable, numbers: &[u8], face: &[u32]) -> Option<usize>
    requires numbers { All (λ n. n < MOST_POINTS) numbers.now }
    requires face { All (λ v. v < length numbers.now) face.now }
    ensures paired { MatchOption result (All (IsPaired table.now) (edges (numbered numbers.now face.now)))
        (IsFirstUnpaired table.now (edges (numbered numbers.now face.now))) }
    ensures within { IfSome result (λ corner. corner < length face.now) }
{
    for corner in 0..face.len() {
        let (from, to) = edge_at(numbers, face, corner);
        if from != to && table.between(from, to) != 2 {
            return Some(corner);
        }
    }
    None
}

/// Whether exactly two edges join what an edge joins, or the first edge of which this does not hold.
///
/// The time is linear in the numbers of vertices and of corners.
pub fn check_edges(alloc: Global, raw: &Raw, points: &[V3]) -> Result<(), MeshRefusal>
    requires indexed { IsIndexed raw.now }
    requires counted { IsCounted raw.now }
    requires used { Lists vector_cmp (IsUsed (mesh raw.now)) points.now }
    requires number { length points.now ≤ MOST_POINTS }
    ensures { ChecksEdges (mesh raw.now) points.now result }
{
    let numbers = numbers_of(alloc, points, raw.points.as_slice())?;
    let table = table_of(alloc, numbers.as_slice(), raw.faces.as_slice())?;
    for (number, face) in raw.faces.as_slice().iter().enumerate() {
        if let Some(corner) = open_corner(&table, numbers.as_slice(), face.as_slice()) {
            return Err(MeshRefusal::OpenEdge(number as u32, corner as u32));
        }
    }
    Ok(())
}
