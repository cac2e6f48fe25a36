// Cubes in a row, and a cube in boxes.
ghost use Rattle.std.specs.Prelude.{◌≡◌, ◌<◌, ◌≤◌, All, IfOk};
ghost use Rattle.staat_model.specs.Assemblies.{IsAssembly};
ghost use Rattle.staat_drill.specs.Products.{IsBox, core, cube_at, nested_boxes, row_of_cubes, slabs, part_of_boxes};

use staat_limits::{MOST_BOXES, MOST_PARTS};
use staat_model::{Assembly, Part};
use staat_samples::{assembly_of, at, boxes};
use staat_vec::{OutOfMemory, V3};
use std::alloc::Global;

// the union of boxes
fn part_of_boxes(alloc: Global, corners: &[(V3, V3)]) -> Result<Part, OutOfMemory>
    requires { All IsBox corners.now }
    ensures { IfOk result (λ part. part ≡ part_of_boxes corners.now) }
{
    let Some(part) = boxes(alloc, corners)? else {
        unreachable!();
    };
    Ok(part)
}

// the cube at place k of a row
fn cube_at(k: u32) -> (V3, V3)
    requires { k < MOST_PARTS }
    ensures { result ≡ cube_at k }
{
    let x = 2 * i128::from(k);
    (at(x, 0, 0), at(x + 2, 2, 2))
}

// the parts of a row, as an assembly
fn whole(parts: Vec<Part>) -> Assembly
    requires { IsAssembly parts.items }
    ensures { result ≡ parts.items }
{
    let Some(assembly) = assembly_of(parts) else {
        unreachable!();
    };
    assembly
}

/// So many cubes of side 2 in a row along x, 1 to 32, each a part of one piece.
pub fn row_of_cubes(alloc: Global, n: u32) -> Result<Assembly, OutOfMemory>
    requires some { 1 ≤ n }
    requires few { n ≤ MOST_PARTS }
    ensures { IfOk result (λ a. a ≡ row_of_cubes n) }
{
    let mut parts = Vec::new(alloc);
    for k in 0..n {
        parts.push(part_of_boxes(alloc, &[cube_at(k)])?)?;
    }
    Ok(whole(parts))
}

// the cube in the middle
fn core() -> (V3, V3)
    ensures { result ≡ core }
{
    (at(-1, -1, -1), at(1, 1, 1))
}

// the slabs of the box number k
fn slabs(k: u32) -> [(V3, V3); 6]
    requires some { 1 ≤ k }
    requires few { k ≤ MOST_BOXES }
    ensures { result ≡ slabs k }
{
    let near = i128::from(k);
    let far = near + 1;
    [
        (at(near, -far, -far), at(far, far, far)),
        (at(-far, -far, -far), at(-near, far, far)),
        (at(-far, near, -far), at(far, far, far)),
        (at(-far, -far, -far), at(far, -near, far)),
        (at(-far, -far, near), at(far, far, far)),
        (at(-far, -far, -far), at(far, far, -near)),
    ]
}

/// A cube, and so many boxes of six slabs each, 1 to 6, each box around what stands before it. Each is a part, and all
/// touch and none can leave.
pub fn nested_boxes(alloc: Global, n: u32) -> Result<Assembly, OutOfMemory>
    requires some { 1 ≤ n }
    requires few { n ≤ MOST_BOXES }
    ensures { IfOk result (λ a. a ≡ nested_boxes n) }
{
    let mut parts = Vec::new(alloc);
    parts.push(part_of_boxes(alloc, &[core()])?)?;
    for k in 1..n + 1 {
        parts.push(part_of_boxes(alloc, &slabs(k))?)?;
    }
    Ok(whole(parts))
}
