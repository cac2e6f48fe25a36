// Where pairs of pieces and their facets come from.
ghost use Rattle.std.specs.Prelude.{◌≡◌, ◌≢◌, Bool, List, All, Contains, IsTrue};
ghost use Rattle.staat_vec.specs.Vectors.{IsWithin, origin};
ghost use Rattle.staat_model.specs.declared.assembly.Part.{Part as PartValue};
ghost use Rattle.staat_model.specs.declared.certificate.Arc.{Arc as ArcValue};
ghost use Rattle.staat_model.specs.Assemblies.{IsPart};
ghost use Rattle.staat_core.specs.Sources.{AreFacetsOf, IsSmallPair};

use staat_model::Arc;
use staat_vec::{Normal, SMALL};

/// Pairs of pieces of different parts, and the facets of each.
///
/// A pair stands once, in either order. The facets may be kept, or computed when they are asked for.
pub trait PairSource {
    // the pairs
    ghost pairs: { Self → List ArcValue };

    // the source speaks of this assembly
    ghost speaks: { Self → List PartValue → Type 0 };

    // all facets are small
    ghost low: { Self → Bool };

    /// The pairs.
    fn pairs(&self) -> &[Arc]
        ensures is { result.now ≡ pairs self.now }
        ensures small { All IsSmallPair result.now }
        ensures parts { (parts : List PartValue) → speaks self.now parts → All IsPart parts };

    /// Whether it is known that no component of a facet is greater than [`SMALL`] in absolute value.
    fn has_low_facets(&self) -> bool
        ensures { result ≡ low self.now };

    /// The facets of a pair, all of them. None are zero.
    fn facets(&self, pair: Arc) -> &[Normal]
        requires { Contains (pairs self.now) pair }
        ensures each { All (λ n. n ≢ origin) result.now }
        ensures low { IsTrue (low self.now) → All (IsWithin SMALL) result.now }
        ensures all { (parts : List PartValue) → speaks self.now parts → AreFacetsOf parts pair result.now };
}
