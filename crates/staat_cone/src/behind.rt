// What lies behind a normal.
ghost use Rattle.std.specs.Prelude.{IfSome, IfNone};
ghost use Rattle.staat_vec.specs.Vectors.{IsWithin};
ghost use Rattle.staat_model.specs.Walls.{IsBeyond};
ghost use Rattle.staat_cone.specs.Few.{IsViolator};

use crate::walls::{highest, is_nearer, lowest, points_of};
use staat_model::Piece;
use staat_vec::{NORMAL, V3, sub};

/// The difference that lies farthest behind n, if one does.
pub fn violator(n: V3, p: &Piece, q: &Piece) -> Option<V3>
    requires normal { IsWithin NORMAL n }
    ensures some { IfSome result (IsViolator p.now q.now n) }
    ensures none { IfNone result (IsBeyond p.now q.now n) }
{
    let least = lowest(n, points_of(q));
    let most = highest(n, points_of(p));
    if is_nearer(least, most) {
        Some(sub(least.point, most.point))
    } else {
        None
    }
}
