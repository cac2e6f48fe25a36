// The merged product, in which each node is one part.
ghost use Rattle.std.specs.Prelude.{◌≡◌, ◌<◌, ◌^◌, ◌↔◌, ◌⊎◌};
ghost use Rattle.std.specs.Prelude.{All, Contains, IfOk, IsTrue, OnOk, Some, get_or, length};
ghost use Rattle.std.specs.List.{AllZip};
ghost use Rattle.staat_model.specs.Assemblies.{piece_at, piece_count};
ghost use Rattle.staat_rest.specs.declared.merging.Origin.{Origin as OriginValue};
ghost use Rattle.staat_rest.specs.Merging.{AreHeads, AreMerged, AreOrigins, IsMergedPart};
ghost use Rattle.staat_rest.specs.Nodes.{IsInNode};

use staat_model::{Part, Parts, Piece, Pieces, Points};
use staat_vec::{Listed, Name, OutOfMemory};
use std::alloc::Global;

/// The part and the piece that a piece of the merged product was.
#[derive(Clone, Copy)]
pub struct Origin {
    pub part: u32,
    pub piece: u32,
}

/// A list of origins.
pub type Origins = Listed<Origin>;

/// The merged product: a part for each node, the name of that node, and the origins of the part's pieces.
#[derive(Drop)]
pub struct Merged {
    pub heads: Listed<u32>,
    pub origins: Listed<Origins>,
    pub parts: Parts,
}

// whether the part p has the name n
fn is_named(names: &[u32], p: usize, n: u32) -> bool
    requires { p < length names.now }
    ensures { IsTrue result ↔ (get_or names.now p 0 ≡ n) }
{
    names[p] == n
}

// the names of the nodes, ascending
fn heads_of(alloc: Global, names: &[u32]) -> Result<Vec<u32>, OutOfMemory>
    requires { length names.now < 2 ^ 32 }
    ensures { IfOk result (λ heads. AreHeads names.now heads.items) }
{
    let mut heads = Vec::new(alloc);
    for p in 0..names.len() {
        if is_named(names, p, p as u32) {
            heads.push(p as u32)?;
        }
    }
    Ok(heads)
}

// adds the first pieces of a part, so many
fn add_origins(origins: &mut Vec<Origin>, part: u32, count: u32) -> Result<(), OutOfMemory>
    ensures { OnOk result ((o : OriginValue) → Contains origins.new.items o
        ↔ (Contains origins.old.items o ⊎ ((o.part ≡ part) × (o.piece < count)))) }
{
    for piece in 0..count {
        origins.push(Origin { part, piece })?;
    }
    Ok(())
}

// the pieces of all parts of a node
fn pieces_of(
    alloc: Global,
    parts: &[Part],
    names: &[u32],
    node: u32,
) -> Result<Vec<Origin>, OutOfMemory>
    requires many { length names.now ≡ length parts.now }
    requires count { length parts.now < 2 ^ 32 }
    requires pieces { All (λ part. length part.pieces < 2 ^ 32) parts.now }
    ensures { IfOk result (λ origins. (o : OriginValue) → Contains origins.items o
        ↔ (IsInNode names.now node o.part × (o.piece < piece_count parts.now o.part))) }
{
    let mut origins = Vec::new(alloc);
    for p in 0..names.len() {
        if is_named(names, p, node) {
            let part = &parts[p];
            add_origins(&mut origins, p as u32, part.pieces.as_slice().len() as u32)?;
        }
    }
    Ok(origins)
}

// likewise, if they are fewer than 2^32
fn origins_of(
    alloc: Global,
    parts: &[Part],
    names: &[u32],
    node: u32,
) -> Result<Origins, OutOfMemory>
    requires many { length names.now ≡ length parts.now }
    requires count { length parts.now < 2 ^ 32 }
    requires pieces { All (λ part. length part.pieces < 2 ^ 32) parts.now }
    ensures { IfOk result (AreOrigins parts.now names.now node) }
{
    let origins = pieces_of(alloc, parts, names, node)?;
    if origins.len() > u32::MAX as usize {
        return Err(OutOfMemory);
    }
    Ok(Origins::from_vec(origins))
}

// for each node the parts and pieces that its merged part has
fn all_origins(
    alloc: Global,
    parts: &[Part],
    names: &[u32],
    heads: &[u32],
) -> Result<Vec<Origins>, OutOfMemory>
    requires many { length names.now ≡ length parts.now }
    requires count { length parts.now < 2 ^ 32 }
    requires pieces { All (λ part. length part.pieces < 2 ^ 32) parts.now }
    ensures { IfOk result (λ origins. AllZip (AreOrigins parts.now names.now) heads.now origins.items) }
{
    let mut all = Vec::new(alloc);
    for head in heads {
        all.push(origins_of(alloc, parts, names, *head)?)?;
    }
    Ok(all)
}

// a copy of a piece
fn copied_piece(alloc: Global, piece: &Piece) -> Result<Piece, OutOfMemory>
    ensures { IfOk result (λ copy. copy ≡ piece.now) }
{
    let mut points = Vec::new(alloc);
    points.extend_from_slice(piece.points())?;
    Ok(Piece::seal(Points::from_vec(points)))
}

// a copy of the piece from which an origin came
fn piece_of(alloc: Global, parts: &[Part], origin: Origin) -> Result<Piece, OutOfMemory>
    requires { origin.piece < piece_count parts.now origin.part }
    ensures { IfOk result (λ piece. piece_at parts.now origin.part origin.piece ≡ Some piece) }
{
    let a = origin.part as usize;
    let i = origin.piece as usize;
    let part = &parts[a];
    let pieces = part.pieces.as_slice();
    let piece = copied_piece(alloc, &pieces[i])?;
    Ok(piece)
}

// the part that has copies of these pieces
fn merged_part(alloc: Global, parts: &[Part], origins: &[Origin]) -> Result<Part, OutOfMemory>
    requires { All (λ o. o.piece < piece_count parts.now o.part) origins.now }
    ensures { IfOk result (IsMergedPart parts.now origins.now) }
{
    let mut pieces = Vec::new(alloc);
    for origin in origins {
        pieces.push(piece_of(alloc, parts, *origin)?)?;
    }
    Ok(Part {
        name: Name::from_text(alloc, "")?,
        pieces: Pieces::from_vec(pieces),
    })
}

// a part for each list of origins
fn merged_parts(
    alloc: Global,
    parts: &[Part],
    origins: &[Origins],
) -> Result<Vec<Part>, OutOfMemory>
    requires { All (All (λ o. o.piece < piece_count parts.now o.part)) origins.now }
    ensures { IfOk result (λ merged. AllZip (IsMergedPart parts.now) origins.now merged.items) }
{
    let mut merged = Vec::new(alloc);
    for list in origins {
        merged.push(merged_part(alloc, parts, list.as_slice())?)?;
    }
    Ok(merged)
}

/// The merged product of the nodes that have these names.
pub fn merged_of(alloc: Global, parts: &[Part], names: &[u32]) -> Result<Merged, OutOfMemory>
    requires many { length names.now ≡ length parts.now }
    requires count { length parts.now < 2 ^ 32 }
    requires pieces { All (λ part. length part.pieces < 2 ^ 32) parts.now }
    ensures { IfOk result (λ merged. AreMerged parts.now names.now merged.heads merged.origins merged.parts) }
{
    let heads = heads_of(alloc, names)?;
    let origins = all_origins(alloc, parts, names, heads.as_slice())?;
    let merged = merged_parts(alloc, parts, origins.as_slice())?;
    Ok(Merged {
        heads: Listed::from_vec(heads),
        origins: Listed::from_vec(origins),
        parts: Parts::from_vec(merged),
    })
}
