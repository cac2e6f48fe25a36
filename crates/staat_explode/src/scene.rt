// Scenes of solids, each at its place.
ghost use Rattle.std.specs.Prelude.{◌≡◌, ◌<◌, ◌≤◌, ◌+◌, ◌*◌, ◌^◌, All, OnOk, flat_map, length, map};
ghost use Rattle.staat_vec.specs.Vectors.{IsWithin, plus};
ghost use Rattle.staat_explode.specs.Scenes.{count_of_points, face_line, faces_behind, off_text, point_line};
ghost use Rattle.staat_explode.specs.Scenes.{points_of_scene, scene_of};
ghost use Rattle.staat_explode.specs.Sheets.{AddsText, Written};
ghost use Rattle.staat_explode.specs.Sizes.{IsSolidIn};

use crate::grow::FARTHEST;
use crate::off::{face_line, head_text, point_line};
use crate::refusal::SceneRefusal;
use crate::sheet::Sheet;
use crate::shifts::Shifts;
use staat_off::{Corners, Raw, Vertex};
use staat_vec::{Bytes, Listed, POINT, V3};
use std::alloc::{AllocError, Global};

/// A solid of a part, with the vector by which it is moved beside its part's.
#[derive(Drop)]
pub struct Solid {
    pub part: u32,
    pub at: V3,
    pub raw: Raw,
}

/// A list of solids.
pub type Solids = Listed<Solid>;

// A point of a solid, at its place in the scene.
fn placed(p: V3, at: V3, shift: V3) -> V3
    requires p { IsWithin POINT p }
    requires at { IsWithin POINT at }
    requires shift { IsWithin FARTHEST shift }
    ensures { result ≡ plus (plus p at) shift }
{
    V3 {
        x: p.x + at.x + shift.x,
        y: p.y + at.y + shift.y,
        z: p.z + at.z + shift.z,
    }
}

// Writes the points of a solid, each at its place in the scene.
fn write_points(
    alloc: Global,
    vertices: &[Vertex],
    at: V3,
    shift: V3,
    sheet: &mut Sheet,
) -> Result<(), AllocError>
    requires points { All (IsWithin POINT) vertices.now }
    requires at { IsWithin POINT at }
    requires shift { IsWithin FARTHEST shift }
    requires room { sheet.old.length + length vertices.now * 2 ^ 64 < 2 ^ 126 }
    ensures text { OnOk result (AddsText sheet.old sheet.new
        (flat_map (λ p. point_line (plus (plus p at) shift)) vertices.now)) }
    ensures room { OnOk result (sheet.new.length ≤ sheet.old.length + length vertices.now * 2 ^ 64) }
{
    for vertex in vertices {
        let line = point_line(alloc, placed(vertex.point(), at, shift))?;
        sheet.write(line.as_bytes())?;
    }
    Ok(())
}

// Writes the points of all solids in order.
fn write_all_points(
    alloc: Global,
    solids: &[Solid],
    shifts: &[V3],
    sheet: &mut Sheet,
) -> Result<(), AllocError>
    requires solids { All (IsSolidIn (length shifts.now)) solids.now }
    requires shifts { All (IsWithin FARTHEST) shifts.now }
    requires points { count_of_points solids.now < 2 ^ 32 }
    requires room { sheet.old.length < 2 ^ 65 }
    ensures text { OnOk result (AddsText sheet.old sheet.new
        (flat_map point_line (points_of_scene solids.now shifts.now))) }
    ensures room { OnOk result (sheet.new.length < 2 ^ 98) }
{
    for solid in solids {
        let shift = shifts[solid.part as usize];
        write_points(alloc, solid.raw.points.as_slice(), solid.at, shift, sheet)?;
    }
    Ok(())
}

// Writes the faces of a solid, with each corner raised.
fn write_faces(
    alloc: Global,
    before: u32,
    faces: &[Corners],
    sheet: &mut Sheet,
) -> Result<(), AllocError>
    requires corners { All (All (λ corner. before + corner < 2 ^ 32)) faces.now }
    requires room { sheet.old.length + length faces.now * 2 ^ 64 < 2 ^ 126 }
    ensures text { OnOk result (AddsText sheet.old sheet.new
        (flat_map (λ face. face_line (map (λ corner. before + corner) face)) faces.now)) }
    ensures room { OnOk result (sheet.new.length ≤ sheet.old.length + length faces.now * 2 ^ 64) }
{
    for face in faces {
        let line = face_line(alloc, before, face.as_slice())?;
        sheet.write(line.as_slice())?;
    }
    Ok(())
}

// Writes the faces of all solids in order.
fn write_all_faces(
    alloc: Global,
    solids: &[Solid],
    parts: usize,
    sheet: &mut Sheet,
) -> Result<(), AllocError>
    requires solids { All (IsSolidIn parts) solids.now }
    requires points { count_of_points solids.now < 2 ^ 32 }
    requires faces { length (faces_behind 0 solids.now) < 2 ^ 32 }
    requires room { sheet.old.length < 2 ^ 98 }
    ensures { OnOk result (AddsText sheet.old sheet.new (flat_map face_line (faces_behind 0 solids.now))) }
{
    let mut before = 0;
    for solid in solids {
        write_faces(alloc, before, solid.raw.faces.as_slice(), sheet)?;
        before += solid.raw.points.as_slice().len() as u32;
    }
    Ok(())
}

// How many points and how many faces the solids have in all.
fn counts(solids: &[Solid]) -> (u32, u32)
    requires points { count_of_points solids.now < 2 ^ 32 }
    requires faces { length (faces_behind 0 solids.now) < 2 ^ 32 }
    ensures points { result.0 ≡ count_of_points solids.now }
    ensures faces { result.1 ≡ length (faces_behind 0 solids.now) }
{
    let mut points = 0;
    let mut faces = 0;
    for solid in solids {
        points += solid.raw.points.as_slice().len() as u32;
        faces += solid.raw.faces.as_slice().len() as u32;
    }
    (points, faces)
}

/// The text of a scene in the Object File Format: the points of all solids, each moved by its solid's vector and by
/// its part's, and their faces.
///
/// Beside the text it takes memory for one line.
pub fn scene_text(alloc: Global, solids: &Solids, s: &Shifts) -> Result<Bytes, SceneRefusal>
    requires solids { All (IsSolidIn (length s.now)) solids.now }
    requires shifts { All (IsWithin FARTHEST) s.now }
    requires points { count_of_points solids.now < 2 ^ 32 }
    requires faces { length (faces_behind 0 solids.now) < 2 ^ 32 }
    ensures { Written (off_text (scene_of solids.now s.now)) result }
{
    let all = solids.as_slice();
    let shifts = s.as_slice();
    let mut sheet = Sheet::new(alloc);
    let (points, faces) = counts(all);
    let head = head_text(alloc, points, faces)?;
    sheet.write(head.as_bytes())?;
    write_all_points(alloc, all, shifts, &mut sheet)?;
    write_all_faces(alloc, all, shifts.len(), &mut sheet)?;
    sheet.text()
}
