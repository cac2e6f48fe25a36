// The lines of points and faces.
ghost use Rattle.std.specs.Prelude.{◌≡◌, ◌<◌, ◌+◌, ◌^◌, All, IfOk, decimal, map, string_bytes};
ghost use Rattle.staat_explode.specs.Scenes.{corner_text, face_line, head_text, point_line};

use staat_vec::V3;
use std::alloc::{AllocError, Global};

// The header, and the line of the numbers of points and faces.
pub(crate) fn head_text(alloc: Global, points: u32, faces: u32) -> Result<String, AllocError>
    ensures { IfOk result (λ s. string_bytes s ≡ head_text points faces) }
{
    let edges = 0u32;
    format!(in alloc; "OFF\n{points} {faces} {edges}\n")
}

// The line of a point.
pub(crate) fn point_line(alloc: Global, p: V3) -> Result<String, AllocError>
    ensures { IfOk result (λ s. string_bytes s ≡ point_line p) }
{
    let V3 { x, y, z } = p;
    format!(in alloc; "{x} {y} {z}\n")
}

// A corner, after the space that parts it from what is before.
fn next_corner(alloc: Global, corner: u32) -> Result<String, AllocError>
    ensures { IfOk result (λ s. string_bytes s ≡ corner_text corner) }
{
    format!(in alloc; " {corner}")
}

// The number of corners of a face.
fn corner_count(alloc: Global, corners: usize) -> Result<String, AllocError>
    ensures { IfOk result (λ s. string_bytes s ≡ decimal corners) }
{
    format!(in alloc; "{corners}")
}

// The line of a face, with each corner raised.
pub(crate) fn face_line(alloc: Global, before: u32, face: &[u32]) -> Result<Vec<u8>, AllocError>
    requires { All (λ corner. before + corner < 2 ^ 32) face.now }
    ensures { IfOk result (λ line. line.items ≡ face_line (map (λ corner. before + corner) face.now)) }
{
    let mut line = corner_count(alloc, face.len())?.into_bytes();
    for corner in face {
        let next = next_corner(alloc, before + *corner)?;
        line.extend_from_slice(next.as_bytes())?;
    }
    line.extend_from_slice(b"\n")?;
    Ok(line)
}
