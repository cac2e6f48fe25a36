//! Laws over the rules of meshes. Each is a function that does nothing, and its contract is the law.
ghost use Rattle.std.specs.Prelude.{◌≡◌, List, Ok, Result};
ghost use Rattle.staat_vec.specs.declared.vector.V3.{V3 as Vector};
ghost use Rattle.staat_mesh.specs.declared.refusal.MeshRefusal.{MeshRefusal as Refusal};
ghost use Rattle.staat_mesh.specs.Judging.{Judges};
ghost use Rattle.staat_mesh.specs.Polygons.{Mesh, mesh};
ghost use Rattle.staat_model.specs.Pieces.{IsPiece};
ghost use Rattle.staat_off.specs.declared.raw.Raw.{Raw as RawMesh};
ghost use Rattle.staat_off.specs.Raws.{IsIndexed};

/// A mesh has one answer: one piece, or one first rule that fails.
pub fn one_answer()
    ensures { (polygons : Mesh) (one other : Result (List Vector) Refusal) → Judges polygons one →
        Judges polygons other → one ≡ other }
{}

/// The points of an accepted mesh are a piece.
pub fn accepted_is_a_piece()
    ensures { (raw : RawMesh) (points : List Vector) → IsIndexed raw → Judges (mesh raw) (Ok points) →
        IsPiece points }
{}
