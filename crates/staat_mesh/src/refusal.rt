// Why a mesh bounds no piece.
use std::alloc::{AllocError, AllocFailed};
use thiserror::Error;

/// Why a mesh is not the boundary of a convex piece: the first rule that fails.
///
/// The points are the different positions that faces use. Faces, and the corners of a face, are numbered from 0 in the
/// order of the file.
#[derive(Clone, Copy, Debug, PartialEq, Eq, Error)]
pub enum MeshRefusal {
    /// There are this many points, which is less than [`LEAST_POINTS`](staat_model::LEAST_POINTS).
    #[error("too few points ({0})")]
    TooFewPoints(u32),
    /// There are this many points, which is more than [`MOST_POINTS`](staat_model::MOST_POINTS).
    #[error("too many points ({0})")]
    TooManyPoints(u32),
    /// All points lie in one plane.
    #[error("all points in one plane")]
    Flat,
    /// The corners of this face have fewer than three positions, lie on one line, or do not lie in one plane.
    #[error("bad face {0}")]
    BadFace(u32),
    /// Points lie strictly on both sides of the plane of this face.
    #[error("not convex at face {0}")]
    NotConvex(u32),
    /// The edge from this corner of this face to the next joins two positions that are not joined by exactly two
    /// edges.
    #[error("open edge at face {0} corner {1}")]
    OpenEdge(u32, u32),
    /// There was no memory.
    #[error("out of memory")]
    OutOfMemory,
}

impl From<AllocError> for MeshRefusal {
    ghost use Rattle.std.specs.Prelude.{◌≡◌};
    ghost use Rattle.staat_mesh.specs.declared.refusal.MeshRefusal.TheVariants.{OutOfMemory};

    ghost from_gives = { λ _ e. e ≡ OutOfMemory };

    fn from(_: AllocError) -> Self {
        MeshRefusal::OutOfMemory
    }
}

impl<T: Drop> From<AllocFailed<T>> for MeshRefusal {
    ghost use Rattle.std.specs.Prelude.{◌≡◌};
    ghost use Rattle.staat_mesh.specs.declared.refusal.MeshRefusal.TheVariants.{OutOfMemory};

    ghost from_gives = { λ _ e. e ≡ OutOfMemory };

    fn from(_: AllocFailed<T>) -> Self {
        MeshRefusal::OutOfMemory
    }
}
