// What calls ask of their arguments, as values of the program: a test goes on where it is so.
ghost use Rattle.std.specs.Prelude.{◌↔◌, ◌≢◌, ◌≤◌, All, IsTrue, length};
ghost use Rattle.staat_model.specs.Assemblies.{IsPart};
ghost use Rattle.staat_model.specs.Pieces.{IsPiece};
ghost use Rattle.staat_model.specs.Sets.{Has};
ghost use Rattle.staat_holds.specs.Holds.{IsCorePair};
ghost use Rattle.staat_pairs.specs.Tables.{IsTableArc};

use staat_holds::is_core_pair;
use staat_limits::MOST_PARTS;
use staat_model::{Arc, Part, Piece};
use staat_planes::PlaneTable;

/// Whether a piece is one: each is.
pub fn is_piece(piece: &Piece) -> bool
    ensures { IsTrue result ↔ IsPiece piece.now }
{
    let _points = piece.points();
    true
}

/// Whether all of a list are pieces.
pub fn are_pieces(pieces: &[Piece]) -> bool
    ensures { IsTrue result ↔ All IsPiece pieces.now }
{
    pieces.iter().all(|piece| is_piece(piece))
}

/// Whether a part has pieces.
pub fn is_part(part: &Part) -> bool
    ensures { IsTrue result ↔ IsPart part.now }
{
    let pieces = part.pieces.as_slice();
    pieces.len() >= 1 && are_pieces(pieces)
}

/// Whether all of a list are parts.
pub fn are_parts(parts: &[Part]) -> bool
    ensures { IsTrue result ↔ All IsPart parts.now }
{
    parts.iter().all(|part| is_part(part))
}

/// Whether all pairs of a core are of pieces of two of the `count` nodes.
pub fn are_core_pairs(parts: &[Part], nodes: &[Option<u32>], count: u32, core: &[Arc]) -> bool
    ensures { IsTrue result ↔ All (IsCorePair parts.now nodes.now count) core.now }
{
    core.iter()
        .all(|pair| is_core_pair(parts, nodes, count, *pair))
}

/// Whether two different parts are of the table's set.
pub fn has_parts(table: &PlaneTable, a: u32, b: u32) -> bool
    ensures { IsTrue result → Has table.now.of a × Has table.now.of b × (a ≢ b) }
{
    let set = table.set();
    a < MOST_PARTS && b < MOST_PARTS && a != b && set.has(a) && set.has(b)
}

/// Whether an arc is of pieces of two parts of the table's set.
pub fn is_across(table: &PlaneTable, arc: Arc) -> bool
    ensures { IsTrue result → IsTableArc table.now arc }
{
    has_parts(table, arc.a, arc.b) && arc.i < table.pieces(arc.a) && arc.j < table.pieces(arc.b)
}
