// Convex pieces, by their points.
ghost use Rattle.std.specs.Prelude.{◌≡◌};
ghost use Rattle.staat_model.specs.Pieces.{IsPiece};

use staat_vec::{Listed, V3};
use std::marker::Model;

/// A list of points.
pub type Points = Listed<V3>;

/// A list of pieces.
pub type Pieces = Listed<Piece>;

/// A full-dimensional convex body: the hull of its points, which are seen as an ascending list.
///
/// It has 4 to 64 different points, not all in one plane. Their coordinates are scaled whole units of at most
/// [`POINT`](staat_vec::POINT) in absolute value.
#[derive(Drop)]
pub struct Piece {
    points: Points,
}

impl Model for Piece {
    ghost use Rattle.std.specs.Prelude.{List};
    ghost use Rattle.staat_vec.specs.declared.vector.V3.{V3};
    ghost use Rattle.staat_model.specs.Pieces.{IsPiece};

    ghost Value = { List V3 };

    ghost view = { λ a. a.points };

    ghost invariant = { λ a. IsPiece a.points };
}

impl Piece {
    /// The hull of these points. It takes no memory.
    pub fn seal(points: Points) -> Piece
        requires { IsPiece points }
        ensures { result ≡ points }
    {
        Piece { points }
    }

    /// The points, ascending.
    pub fn points(&self) -> &[V3]
        ensures points { result.now ≡ self.now }
        ensures piece { IsPiece self.now }
    {
        self.points.as_slice()
    }

    /// The points, ascending, to be changed. It takes no memory.
    pub fn into_points(self) -> Points
        ensures points { result ≡ self }
        ensures piece { IsPiece self }
    {
        self.points
    }
}
