// Laws on the facets of cones. Each is a function that does nothing, and its contract is the law.
ghost use Rattle.std.specs.Prelude.{◌↔◌, List};
ghost use Rattle.staat_vec.specs.declared.vector.V3.{V3 as Vector};
ghost use Rattle.staat_model.specs.Cones.{IsConeFacet};
ghost use Rattle.staat_cone.specs.Few.{IsEnough};

/// Few vectors and all have the same facets: if few of the members of a list span space, and their facets leave no
/// member of the list behind, then a vector is a facet of the few exactly where it is one of the list.
pub fn few_facets()
    ensures { (few vs : List Vector) (n : Vector) → IsEnough few vs → IsConeFacet few n ↔ IsConeFacet vs n }
{}
