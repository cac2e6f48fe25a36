// Laws on two pieces. Each is a function that does nothing, and its contract is the law.
ghost use Rattle.std.specs.Prelude.{◌≢◌, ◌↔◌, List, Contains, pos, ◌<ℤ◌};
ghost use Rattle.staat_vec.specs.declared.vector.V3.{V3 as Vector};
ghost use Rattle.staat_vec.specs.Vectors.{dot, negative, origin};
ghost use Rattle.staat_model.specs.Pieces.{IsPiece, IsSolid};
ghost use Rattle.staat_model.specs.Meeting.{Meets, Overlap};
ghost use Rattle.staat_model.specs.Facets.{IsFacet};
ghost use Rattle.staat_model.specs.Cones.{IsConeFacet, IsCrossing, differences};
ghost use Rattle.staat_model.specs.Planes.{axes};
ghost use Rattle.staat_model.specs.Shadows.{HaveShadowsApart, IsParted};

/// A piece meets another along d exactly where d leads ahead of each of their facets.
pub fn blocked_by_facets()
    ensures { (p q : List Vector) (d : Vector) → IsPiece p → IsPiece q
        → Meets p q d ↔ ((n : Vector) → IsFacet p q n → pos 0 <ℤ dot n d) }
{}

/// Two pieces overlap exactly where they have no facet.
pub fn overlap_by_facets()
    ensures { (p q : List Vector) → IsPiece p → IsPiece q
        → Overlap p q ↔ ((n : Vector) → IsFacet p q n → ⊥) }
{}

/// Each facet of two pieces is the primitive vector of the cross product of two of their differences.
#[tactic(auto, using(crate::proofs::PieceFacets::facets_from_differences_lemma))]
pub fn facets_from_differences()
    ensures { (p q : List Vector) (n : Vector) → IsFacet p q n → IsCrossing (differences p q) n }
{}

/// A facet of two pieces is a facet of the cone that their differences span.
pub fn facets_of_differences()
    ensures { (p q : List Vector) (n : Vector) → IsFacet p q n ↔ IsConeFacet (differences p q) n }
{}

/// The facets of two pieces in the other order are the negatives of their facets.
pub fn opposite_facets()
    ensures { (p q : List Vector) (n : Vector) → IsFacet p q n ↔ IsFacet q p (negative n) }
{}

/// A piece meets another along the negative of d exactly where the other meets it along d.
#[tactic(auto, using(crate::proofs::Reversed::meets_opposite_lemma))]
pub fn opposite_meeting()
    ensures { (p q : List Vector) (d : Vector) → Meets p q (negative d) ↔ Meets q p d }
{}

/// Where along n one of p and q comes before the other, and d does not lead p on towards q, p never meets q along d.
/// The normal n may be of any size.
pub fn wall_parts()
    ensures { (p q : List Vector) (d n : Vector) → IsSolid p → n ≢ origin → IsParted n p q d
        → Meets p q d → ⊥ }
{}

/// Two pieces whose shadows on a normal lie apart never meet along a direction at right angles to it.
pub fn shadows_part()
    ensures { (p q : List Vector) (d n : Vector) → IsSolid p → n ≢ origin → HaveShadowsApart n p q d
        → Meets p q d → ⊥ }
{}

/// So it is where the boxes of p and q lie one before the other along an axis, and d does not lead p on towards q.
pub fn boxes_part()
    ensures { (p q : List Vector) (d axis : Vector) → IsSolid p → Contains axes axis → IsParted axis p q d
        → Meets p q d → ⊥ }
{}
