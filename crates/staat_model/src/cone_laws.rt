// Laws on cones of vectors. Each is a function that does nothing, and its contract is the law.
ghost use Rattle.std.specs.Prelude.{◌≡◌, ◌≢◌, ◌≤◌, ◌↔◌, List, All, Contains, length, pos};
ghost use Rattle.std.specs.Prelude.{◌≤ℤ◌, ◌<ℤ◌};
ghost use Rattle.staat_vec.specs.declared.vector.V3.{V3 as Vector};
ghost use Rattle.staat_vec.specs.Vectors.{dot, origin};
ghost use Rattle.staat_vec.specs.Primitives.{IsPrimitiveOf, primitive};
ghost use Rattle.staat_model.specs.Pieces.{IsSolid};
ghost use Rattle.staat_model.specs.Meeting.{Meets};
ghost use Rattle.staat_model.specs.Cones.{ExactlyOne, HasAxes, HasCorner, HasTwoBorders, IsAbove, IsCombined};
ghost use Rattle.staat_model.specs.Cones.{IsConeFacet, IsCrossing, IsReached, IsSpanning, IsStopped, differences};

/// In a list of vectors that span space, either the sum of each member times a number of at least 1 is a multiple of
/// d, or d does not lead ahead of some facet of the cone that the members span. Not both hold (Farkas, 1902).
pub fn farkas()
    ensures { (vs : List Vector) (d : Vector) → IsSpanning vs → ExactlyOne (IsReached vs d) (IsStopped vs d) }
{}

/// What holds wherever the conditions of a list hold is combined from them: if each vector that has all members of
/// the list on its positive side has h there too, then a positive multiple of h is the sum of each member times a
/// number of at least 0 (Farkas, 1902).
#[tactic(auto, using(crate::proofs::Alternative::combine_lemma))]
pub fn combine()
    ensures { (vs : List Vector) (h : Vector) → ((x : Vector) → IsAbove x vs → pos 0 ≤ℤ dot h x)
        → IsCombined vs h }
{}

/// A cone of conditions that is pointed, since it has a sign of each axis among them, and that holds a vector other
/// than zero, holds a vertex: the primitive vector in which the planes of two of the conditions meet.
pub fn corner()
    ensures { (vs : List Vector) (d : Vector) → HasAxes vs → d ≢ origin → IsAbove d vs → HasCorner vs }
{}

/// Points meet along d exactly where the sum of each of their differences times a number of at least 1 is a multiple
/// of d: products of the weights are such numbers, and sums over rows and columns of the numbers are weights.
pub fn weights_and_numbers()
    ensures { (ps qs : List Vector) (d : Vector) → 1 ≤ length ps → 1 ≤ length qs
        → Meets ps qs d ↔ IsReached (differences ps qs) d }
{}

/// The differences to solid points span space.
pub fn differences_span()
    ensures { (ps qs : List Vector) (q : Vector) → IsSolid ps → Contains qs q → IsSpanning (differences ps qs) }
{}

/// In a list of vectors that span space, a multiple of d is the sum of each member times a number of at least 1
/// exactly where d leads ahead of each facet.
pub fn reached_by_facets()
    ensures { (vs : List Vector) (d : Vector) → IsSpanning vs
        → IsReached vs d ↔ ((n : Vector) → IsConeFacet vs n → pos 0 <ℤ dot n d) }
{}

/// Each facet is the primitive vector of the cross product of two members.
#[tactic(auto, using(crate::proofs::FacetLemmas::facet_crosses_lemma))]
pub fn facet_is_crossing()
    ensures { (vs : List Vector) (n : Vector) → IsConeFacet vs n → IsCrossing vs n }
{}

/// A vector other than zero has exactly one primitive vector, and zero has none.
pub fn one_primitive()
    ensures { (v p : Vector) → IsPrimitiveOf v p ↔ ((v ≢ origin) × (p ≡ primitive v)) }
{}

/// Where a direction lies strictly inside all conditions of a list that spans space, two of the conditions are walls,
/// and on each wall some direction lies strictly inside the conditions that are not parallel to it.
pub fn two_borders()
    ensures { (vs : List Vector) (d : Vector) → IsSpanning vs → All (λ v. pos 0 <ℤ dot v d) vs
        → HasTwoBorders vs }
{}
