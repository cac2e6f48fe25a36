// The entries of a circle on the half turn from its axis, with whole keys by which their crossings nearly rise. The
// keys are hints: a bad one costs time alone.
ghost use Rattle.std.specs.Prelude.{◌≡◌, ◌≢◌, ◌*◌, ◌<◌, ◌≤◌, IfOk, Some, length, map, slice_get};
ghost use Rattle.staat_vec.specs.declared.vector.V3.{V3 as Vector};
ghost use Rattle.staat_vec.specs.Vectors.{IsWithin, cross, origin};
ghost use Rattle.staat_model.specs.Circles.{axis_beside};
ghost use Rattle.staat_ring.specs.Builds.{AreUpper, IsUpper, key_entry};
ghost use Rattle.staat_ring.specs.Rings.{facet_by};

use crate::entry::Entry;
use crate::half_circle::{axis_beside, is_opposite};
use staat_limits::MOST_PLANES;
use staat_planes::PlaneTable;
use staat_vec::{Course, NORMAL, OutOfMemory, V3, cross_normal, dot};
use std::alloc::Global;

/// A hint of where an entry crosses, the number of its plane, and whether it is turned, in one word: such keys are
/// sorted fast.
#[derive(Clone, Copy, PartialEq, Eq, PartialOrd, Ord)]
pub struct Key {
    word: u64,
}

// how many planes a key has room for
const PLANES: u64 = MOST_PLANES as u64;

// the hint of a crossing that is a quarter turn from the axis
const QUARTER: u64 = 1 << 24;

// a word holds the product of that hint and a number of so many bits
const BITS: u32 = 40;

impl Key {
    // the key of an entry
    fn of(hint: u64, entry: Entry) -> Key
        requires hint { hint ≤ 2 * QUARTER }
        requires plane { entry.plane < MOST_PLANES }
        ensures { key_entry result ≡ entry }
    {
        Key {
            word: 2 * (hint * PLANES + u64::from(entry.plane)) + u64::from(entry.turned),
        }
    }

    // the entry
    fn entry(self) -> Entry
        ensures { result ≡ key_entry self }
    {
        Entry {
            plane: (self.word / 2 % PLANES) as u32,
            turned: self.word % 2 == 1,
        }
    }
}

// About where a crossing is on the half circle: `along` is to `across` times the length of the circle's normal as minus
// the cosine of its angle from the axis to the sine. It rises with the angle. Crossings on the line of the axis come
// first.
fn hint(along: i128, across: i128, length: i128) -> u64
    ensures { result ≤ 2 * QUARTER }
{
    if across == 0 {
        return 0;
    }
    let part = along.unsigned_abs();
    let whole = part.wrapping_add(across.wrapping_mul(length).unsigned_abs());
    let excess = (u128::BITS - BITS).saturating_sub(whole.leading_zeros());
    let part = ((part >> excess) % (1 << BITS)) as u64;
    let whole = ((whole >> excess) % (1 << BITS)) as u64;
    let far = (part * QUARTER)
        .checked_div(whole)
        .unwrap_or(0)
        .min(QUARTER);
    if (along < 0) == (across < 0) {
        QUARTER + far
    } else {
        QUARTER - far
    }
}

// the sum of the components in absolute value, by which a vector is about as long
fn length_of(v: V3) -> i128 {
    v.x.wrapping_abs()
        .wrapping_add(v.y.wrapping_abs())
        .wrapping_add(v.z.wrapping_abs())
}

// A circle's plane and its axis, with what the keys of all entries are made of.
#[derive(Drop)]
struct Dial {
    g: V3,
    axis: V3,
    own: Course,
    aside: Course,
    across: Course,
    lean: i128,
    size: i128,
    // about the length of g
    length: i128,
}

impl Dial {
    // the key of the plane j, whose normal is h
    fn key(&self, j: u32, h: V3) -> Key
        requires plane { j < MOST_PLANES }
        requires g { IsWithin NORMAL self.now.g }
        requires axis { IsWithin NORMAL self.now.axis }
        requires h { IsWithin NORMAL h }
        requires start { cross self.now.g self.now.axis ≢ origin }
        requires apart { cross self.now.g h ≢ origin }
        requires across { self.now.across ≡ cross self.now.g self.now.axis }
        ensures plane { (key_entry result).plane ≡ j }
        ensures upper { IsUpper self.now.g self.now.axis (facet_by (key_entry result).turned h) }
    {
        let along = self
            .lean
            .wrapping_mul(self.own.dot(h))
            .wrapping_sub(self.size.wrapping_mul(self.aside.dot(h)));
        let across = self.across.dot(h);
        let turned = is_opposite(self.g, self.axis, h, across);
        let hint = hint(along, across, self.length);
        Key::of(hint, Entry { plane: j, turned })
    }
}

/// The entries of all planes but `c` on the half turn from its axis, nearly in the order of their crossings.
pub fn keys_of(alloc: Global, table: &PlaneTable, c: u32) -> Result<Vec<Key>, OutOfMemory>
    requires { c < length table.now.planes }
    ensures { IfOk result (λ v. (g axis : Vector) → slice_get table.now.planes c ≡ Some g
        → slice_get table.now.planes (axis_beside c) ≡ Some axis
        → AreUpper table.now.planes c g axis (length table.now.planes) (map key_entry v.items)) }
{
    let _set = table.set();
    let g = table.plane(c);
    let axis = table.plane(axis_beside(c));
    let dial = Dial {
        g,
        axis,
        own: Course::of(g),
        aside: Course::of(axis),
        across: Course::of(cross_normal(g, axis)),
        lean: dot(g, axis),
        size: dot(g, g),
        length: length_of(g),
    };
    let mut keys = Vec::with_capacity(alloc, table.len() as usize)?;
    for j in 0..table.len() {
        if j != c {
            keys.push(dial.key(j, table.plane(j)))?;
        }
    }
    keys.sort_unstable();
    Ok(keys)
}

/// The entries of keys.
pub fn entries_of(alloc: Global, keys: &[Key]) -> Result<Vec<Entry>, OutOfMemory>
    ensures { IfOk result (λ v. v.items ≡ map key_entry keys.now) }
{
    // there comes the opposite half circle behind
    let mut entries = Vec::with_capacity(alloc, keys.len().saturating_mul(2))?;
    for key in keys {
        entries.push(key.entry())?;
    }
    Ok(entries)
}
