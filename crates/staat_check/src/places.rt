// Whether lines have the directions that are wanted, by a table of where each may stand. What stands at a place is
// compared, so no answer rests on the table.
ghost use Rattle.std.specs.Prelude.{◌≡◌, ◌<◌, ◌≤◌, ◌^◌, IfOk, IsTrue, length};
ghost use Rattle.staat_model.specs.Certificates.{HasLine};

use staat_model::Dir;
use staat_vec::{OutOfMemory, V3, is_same};
use std::alloc::Global;

// a place of the table that has no line's number
const EMPTY: u32 = u32::MAX;

// how many places after the first may have a direction's line
const REACH: usize = 64;

// a component's last 64 bits
fn word(a: i128) -> u64 {
    (a.cast_unsigned() % (1 << 64)) as u64
}

// where a vector's places begin in a table of so many, by a product with odd words (Knuth 1973)
fn start_of(v: V3, places: usize) -> usize
    requires { 1 ≤ places }
    ensures { result < places }
{
    let x = word(v.x).wrapping_mul(0x9e37_79b9_7f4a_7c15);
    let y = word(v.y).wrapping_mul(0xc2b2_ae3d_27d4_eb4f);
    let z = word(v.z).wrapping_mul(0x1656_67b1_9e37_79f9);
    let mixed = x.wrapping_add(y).wrapping_add(z) >> 24;
    (mixed % places as u64) as usize
}

// the places from `start` on that may have one direction's line
fn end_of(start: usize, places: usize) -> usize
    requires { start < places }
    ensures order { start ≤ result }
    ensures within { result ≤ places }
{
    if places - start <= REACH {
        places
    } else {
        start + REACH
    }
}

// puts the number of a line at the first empty one of its direction's places, if there is one
fn put(table: &mut Vec<u32>, v: V3, number: u32)
    requires { 1 ≤ length table.old.items }
    ensures { length table.new.items ≡ length table.old.items }
{
    let start = start_of(v, table.len());
    for place in start..end_of(start, table.len()) {
        if table[place] == EMPTY {
            table[place] = number;
            return;
        }
    }
}

/// A table of the places of the lines' directions. There are fewer than 2^32 lines.
pub fn table_of_places(alloc: Global, dirs: &[Dir]) -> Result<Vec<u32>, OutOfMemory>
    requires few { length dirs.now < 2 ^ 32 }
    ensures { IfOk result (λ places. 1 ≤ length places.items) }
{
    let mut places = vec![in alloc; EMPTY; 3 * dirs.len() + 1]?;
    for (k, dir) in dirs.iter().enumerate() {
        put(&mut places, dir.d, k as u32);
    }
    Ok(places)
}

// whether the line of this number has the direction
fn is_at(dirs: &[Dir], number: u32, v: V3) -> bool
    ensures { IsTrue result → HasLine dirs.now v }
{
    let k = number as usize;
    k < dirs.len() && is_same(dirs[k].d, v)
}

/// Whether a line that the table names has the direction. Where the table is that of the lines, few lines are missed.
pub fn is_placed(places: &[u32], dirs: &[Dir], v: V3) -> bool
    requires { 1 ≤ length places.now }
    ensures { IsTrue result → HasLine dirs.now v }
{
    let start = start_of(v, places.len());
    for place in start..end_of(start, places.len()) {
        let number = places[place];
        if number == EMPTY {
            return false;
        }
        if is_at(dirs, number, v) {
            return true;
        }
    }
    false
}
