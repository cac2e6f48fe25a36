// A core: pairs of pieces, and the planes of their facets.
ghost use Rattle.std.specs.Prelude.{◌≡◌, ◌≢◌, ◌⊎◌, ◌<◌, ◌≤◌, All, Contains, IfSome, IsTrue, MatchOption, length};
ghost use Rattle.staat_vec.specs.Vectors.{IsWithin, origin};
ghost use Rattle.staat_model.specs.declared.certificate.Arc.{Arc as ArcValue};
ghost use Rattle.staat_core.specs.Cores.{
  GoesOn,
  HasCanons,
  HasRoom,
  IsEmptyCore,
  core_pairs,
  core_plane_at,
  core_planes,
};

use staat_model::Arc;
use staat_vec::{NORMAL, Normal, ORIGIN, V3, canon, is_same};

/// How many pairs a core has at most: one for each two of 64 pieces.
const MOST_PAIRS: u32 = 2016;

/// How many planes a core has at most.
pub(crate) const MOST_CORE_PLANES: u32 = 96;

// One of 128 bits for a plane, the same for its normal and the negative. Planes may share one: it is a hint that saves
// a look at all planes in use.
fn bit_of(n: V3) -> u128 {
    let x = n.x.unsigned_abs().wrapping_mul(0x2545_f491_4f6c_dd1d);
    let y = n.y.unsigned_abs().wrapping_mul(0x1b87_3593_cc9e_2d51);
    let z = n.z.unsigned_abs().wrapping_mul(0x0f35_7aea_2e62_a9c5);
    let mixed = x.wrapping_add(y).wrapping_add(z);
    1 << (mixed / (1 << 57) % 128)
}

/// Pairs of pieces, and the planes of their facets behind the coordinate planes.
///
/// Where two of these planes cross, the pairs that block there are often enough to hold a set of parts together. Then
/// they do so along each direction. A core grows by the pairs that are wanting, and only grows. Its room is its own,
/// so that it takes no memory.
#[derive(Drop)]
pub struct Core {
    pairs: [Arc; 2016],
    count: u32,
    planes: [Normal; 96],
    used: u32,
    // the bits of the planes in use
    bits: u128,
    // whether pairs are looked for where it does not hold
    grows: bool,
}

impl Core {
    /// A core without pairs.
    pub fn none() -> Core
        ensures { IsEmptyCore result }
    {
        Core::empty(true)
    }

    /// A core without pairs, which looks for some where it does not hold, or has but those that it is given.
    pub(crate) fn empty(grows: bool) -> Core
        ensures { IsEmptyCore result }
    {
        let nowhere = Arc {
            a: 0,
            i: 0,
            b: 0,
            j: 0,
        };
        let x = V3 { x: 1, y: 0, z: 0 };
        let y = V3 { x: 0, y: 1, z: 0 };
        let z = V3 { x: 0, y: 0, z: 1 };
        let mut planes = [Normal::of(ORIGIN); 96];
        planes[0] = Normal::of(x);
        planes[1] = Normal::of(y);
        planes[2] = Normal::of(z);
        Core {
            pairs: [nowhere; 2016],
            count: 0,
            planes,
            used: 3,
            bits: bit_of(x) | bit_of(y) | bit_of(z),
            grows,
        }
    }

    /// Whether it looks for pairs where it does not hold.
    pub(crate) fn grows(&self) -> bool {
        self.grows
    }

    /// The pairs.
    pub(crate) fn pairs(&self) -> &[Arc]
        requires { HasRoom self.now }
        ensures { result.now ≡ core_pairs self.now }
    {
        &self.pairs[..self.count as usize]
    }

    /// The plane `k`, if there are so many.
    pub(crate) fn plane(&self, k: u32) -> Option<V3>
        requires { HasRoom self.now }
        ensures is { MatchOption result (length (core_planes self.now) ≤ k)
            (λ n. (k < length (core_planes self.now)) × (n ≡ core_plane_at self.now k)) }
        ensures size { IfSome result (IsWithin NORMAL) }
    {
        let planes = &self.planes[..self.used as usize];
        if (k as usize) < planes.len() {
            Some(planes[k as usize].vector())
        } else {
            None
        }
    }

    // whether the plane is in use
    fn has_plane(&self, n: V3) -> bool
        requires { HasRoom self.now }
        ensures { IsTrue result → Contains (core_planes self.now) n }
    {
        if self.bits & bit_of(n) == 0 {
            return false;
        }
        for m in &self.planes[..self.used as usize] {
            if is_same(m.vector(), n) {
                return true;
            }
        }
        false
    }

    /// How many planes of facets are wanting, up to a limit.
    pub(crate) fn wanting(&self, facets: &[Normal], limit: u32) -> u32
        requires room { HasRoom self.now }
        requires facets { All (λ n. n ≢ origin) facets.now }
    {
        let mut wanting = 0;
        for n in facets {
            if wanting >= limit {
                return limit;
            }
            if !self.has_plane(canon(n.vector())) {
                wanting += 1;
            }
        }
        wanting
    }

    // sees to it that the plane is in use; false where there is no room
    fn put_plane(&mut self, n: Normal) -> bool
        requires { HasRoom self.old }
        ensures room { HasRoom self.new }
        ensures planes { GoesOn (core_planes self.old) (core_planes self.new) }
        ensures pairs { core_pairs self.new ≡ core_pairs self.old }
        ensures put { IsTrue result → Contains (core_planes self.new) n }
    {
        if self.has_plane(n.vector()) {
            return true;
        }
        if self.used >= MOST_CORE_PLANES {
            return false;
        }
        self.planes[self.used as usize] = n;
        self.used += 1;
        self.bits |= bit_of(n.vector());
        true
    }

    // so for the planes of facets
    fn put_facets(&mut self, facets: &[Normal]) -> bool
        requires room { HasRoom self.old }
        requires facets { All (λ n. n ≢ origin) facets.now }
        ensures room { HasRoom self.new }
        ensures planes { GoesOn (core_planes self.old) (core_planes self.new) }
        ensures pairs { core_pairs self.new ≡ core_pairs self.old }
        ensures put { IsTrue result → HasCanons (core_planes self.new) facets.now }
    {
        for n in facets {
            if !self.put_plane(Normal::of(canon(n.vector()))) {
                return false;
            }
        }
        true
    }

    // puts a pair behind those in use; false where there is no room
    fn push_pair(&mut self, pair: Arc) -> bool
        requires { HasRoom self.old }
        ensures room { HasRoom self.new }
        ensures planes { core_planes self.new ≡ core_planes self.old }
        ensures pairs { GoesOn (core_pairs self.old) (core_pairs self.new) }
        ensures each { (x : ArcValue) → Contains (core_pairs self.new) x
            → Contains (core_pairs self.old) x ⊎ (x ≡ pair) }
        ensures pushed { IsTrue result → Contains (core_pairs self.new) pair }
    {
        if self.count >= MOST_PAIRS {
            return false;
        }
        self.pairs[self.count as usize] = pair;
        self.count += 1;
        true
    }

    /// Adds a pair with the planes of its facets; false where there is no room, and then some of the planes may be
    /// added.
    pub(crate) fn add(&mut self, pair: Arc, facets: &[Normal]) -> bool
        requires room { HasRoom self.old }
        requires facets { All (λ n. n ≢ origin) facets.now }
        ensures room { HasRoom self.new }
        ensures planes { GoesOn (core_planes self.old) (core_planes self.new) }
        ensures pairs { GoesOn (core_pairs self.old) (core_pairs self.new) }
        ensures each { (x : ArcValue) → Contains (core_pairs self.new) x
            → Contains (core_pairs self.old) x ⊎ ((x ≡ pair) × HasCanons (core_planes self.new) facets.now) }
        ensures pushed { IsTrue result → Contains (core_pairs self.new) pair }
    {
        if !self.put_facets(facets) {
            return false;
        }
        self.push_pair(pair)
    }
}
