// The facets of two pieces, by either method.
ghost use Rattle.std.specs.Prelude.{◌≡◌, ◌↔◌, [], All, IfOk};
ghost use Rattle.staat_vec.specs.Vectors.{IsWithin, vector_cmp};
ghost use Rattle.staat_vec.specs.Lists.{Lists};
ghost use Rattle.staat_model.specs.Facets.{IsFacet};
ghost use Rattle.staat_model.specs.Meeting.{Overlap};
ghost use Rattle.staat_model.specs.Pieces.{IsPiece};

use crate::few::{facets_by_all, facets_by_few};
use crate::method::Method;
use crate::walls::points_of;
use staat_model::Piece;
use staat_vec::{NORMAL, OutOfMemory, V3};
use std::alloc::Global;

// both are pieces
fn know(p: &Piece, q: &Piece)
    ensures { IsPiece p.now × IsPiece q.now }
{
    let _p = points_of(p);
    let _q = points_of(q);
}

// from few of the differences where the rounds suffice, and else from all
fn find_facets(alloc: Global, method: Method, p: &Piece, q: &Piece) -> Result<Vec<V3>, OutOfMemory>
    ensures pieces { IsPiece p.now × IsPiece q.now }
    ensures facets { IfOk result (λ list. Lists vector_cmp (IsFacet p.now q.now) list.items) }
{
    know(p, q);
    match facets_by_few(alloc, method, p, q)? {
        Some(list) => Ok(list),
        None => facets_by_all(alloc, method, p, q),
    }
}

/// The facets of the ordered pair (p, q), ascending, from few of the differences where they are found within a bounded
/// number of rounds, and else from all.
pub fn facets_of(
    alloc: Global,
    method: Method,
    p: &Piece,
    q: &Piece,
) -> Result<Vec<V3>, OutOfMemory>
    ensures facets { IfOk result (λ list. Lists vector_cmp (IsFacet p.now q.now) list.items) }
    ensures overlap { IfOk result (λ list. (list.items ≡ []) ↔ Overlap p.now q.now) }
    ensures size { IfOk result (λ list. All (IsWithin NORMAL) list.items) }
{
    find_facets(alloc, method, p, q)
}
