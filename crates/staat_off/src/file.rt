// Whole files.
ghost use Rattle.std.specs.Prelude.{◌≤◌, IfOk};
ghost use Rattle.staat_off.specs.Answers.{Answers, Gives};
ghost use Rattle.staat_off.specs.Raws.{HasCorners, IsCounted, IsIndexed};
ghost use Rattle.staat_off.specs.Readers.{many};
ghost use Rattle.staat_off.specs.Reading.{face, file, index, point, reading};

use crate::fields::{read_corner_count, read_count, read_end, read_header, read_index, read_point};
use crate::raw::{Corners, Faces, Raw, Vertex, Vertices};
use crate::refusal::OffRefusal;
use crate::rest::Rest;
use staat_limits::MOST_DIGITS;
use std::alloc::Global;

fn read_points(
    alloc: Global,
    number: u32,
    digits: u32,
    rest: &mut Rest<'_>,
) -> Result<Vertices, OffRefusal>
    requires { digits ≤ MOST_DIGITS }
    ensures { Gives (λ points. points) result rest.new (many number (point digits) rest.old) }
{
    let mut points = Vec::new(alloc);
    'points: for _ in 0..number {
        let point = read_point(digits, rest)?;
        points.push(Vertex::of(point))?;
    }
    points.shrink_to_fit();
    Ok(Vertices::from_vec(points))
}

fn read_indices(
    alloc: Global,
    number: u32,
    vertices: u32,
    rest: &mut Rest<'_>,
) -> Result<Corners, OffRefusal>
    ensures { Gives (λ corners. corners) result rest.new (many number (index vertices) rest.old) }
{
    let mut corners = Vec::new(alloc);
    'corners: for _ in 0..number {
        let corner = read_index(vertices, rest)?;
        corners.push(corner)?;
    }
    corners.shrink_to_fit();
    Ok(Corners::from_vec(corners))
}

#[tactic(auto, unfolding(crate::specs::Reading::face))]
fn read_face(alloc: Global, vertices: u32, rest: &mut Rest<'_>) -> Result<Corners, OffRefusal>
    ensures { Gives (λ corners. corners) result rest.new (face vertices rest.old) }
{
    let number = read_corner_count(rest)?;
    let corners = read_indices(alloc, number, vertices, rest)?;
    rest.pass_line();
    Ok(corners)
}

fn read_faces(
    alloc: Global,
    number: u32,
    vertices: u32,
    rest: &mut Rest<'_>,
) -> Result<Faces, OffRefusal>
    ensures { Gives (λ faces. faces) result rest.new (many number (face vertices) rest.old) }
{
    let mut faces = Vec::new(alloc);
    'faces: for _ in 0..number {
        let face = read_face(alloc, vertices, rest)?;
        faces.push(face)?;
    }
    faces.shrink_to_fit();
    Ok(Faces::from_vec(faces))
}

#[tactic(auto, unfolding(crate::specs::Reading::file))]
fn read_raw(alloc: Global, digits: u32, rest: &mut Rest<'_>) -> Result<Raw, OffRefusal>
    requires { digits ≤ MOST_DIGITS }
    ensures { Gives (λ raw. raw) result rest.new (file digits rest.old) }
{
    read_header(rest)?;
    let vertices = read_count(rest)?;
    let number = read_count(rest)?;
    let _edges = read_count(rest)?;
    let points = read_points(alloc, vertices, digits, rest)?;
    let faces = read_faces(alloc, number, vertices, rest)?;
    read_end(rest)?;
    Ok(Raw { points, faces })
}

/// Reads a file in the Object File Format of Geomview (Phillips, Levy and Munzner, 1993): its vertices, with each
/// coordinate times 10 to the power of `digits`, and its faces.
///
/// The answer is what the file holds, or the first fault in reading order. The bytes are passed over once, and memory
/// is taken for the points and the faces alone. Coordinates are at most [`POINT`](staat_vec::POINT) in absolute value,
/// points, faces and the corners of a face number at most [`MOST_COUNT`](staat_limits::MOST_COUNT) each, and each
/// face has a corner.
#[tactic(auto, unfolding(crate::specs::Reading::reading))]
pub fn read_off(alloc: Global, bytes: &[u8], digits: u32) -> Result<Raw, OffRefusal>
    requires { digits ≤ MOST_DIGITS }
    ensures reads { Answers result (reading digits bytes.now) }
    ensures indexed { IfOk result IsIndexed }
    ensures counted { IfOk result IsCounted }
    ensures corners { IfOk result HasCorners }
{
    read_raw(alloc, digits, &mut Rest::of(bytes))
}
