// What a file holds, before it is known to be a convex body.
ghost use Rattle.std.specs.Prelude.{◌≡◌};
ghost use Rattle.staat_vec.specs.Vectors.{IsWithin};

use staat_vec::{Listed, POINT, V3};
use std::marker::Model;

/// A vertex of a file, seen as its position. It takes a quarter of the memory of a [`V3`], for a file may list very
/// many.
#[derive(Clone, Copy)]
pub struct Vertex {
    x: i32,
    y: i32,
    z: i32,
}

impl Model for Vertex {
    ghost use Rattle.staat_vec.specs.declared.vector.V3.{V3};

    ghost Value = { V3 };

    ghost view = { λ v. record { x = v.x; y = v.y; z = v.z } };

    ghost inverse = { λ p. record { x = p.x; y = p.y; z = p.z } };
}

impl Vertex {
    /// The vertex at `p`, whose components are at most [`POINT`] in absolute value.
    pub fn of(p: V3) -> Vertex
        requires { IsWithin POINT p }
        ensures { result ≡ p }
    {
        Vertex {
            x: p.x as i32,
            y: p.y as i32,
            z: p.z as i32,
        }
    }

    /// Where the vertex is.
    pub fn point(self) -> V3
        ensures { result ≡ self }
    {
        V3 {
            x: i128::from(self.x),
            y: i128::from(self.y),
            z: i128::from(self.z),
        }
    }
}

/// A list of vertices.
pub type Vertices = Listed<Vertex>;

/// The corners of a face, each the number of a vertex.
pub type Corners = Listed<u32>;

/// A list of faces.
pub type Faces = Listed<Corners>;

/// The vertices and faces of a file, as it lists them. Vertices are numbered from 0.
#[derive(Drop)]
pub struct Raw {
    /// The positions of the vertices, in scaled whole units.
    pub points: Vertices,
    /// The faces, each by the numbers of its corners.
    pub faces: Faces,
}
