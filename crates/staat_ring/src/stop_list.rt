// The stops of a circle, in one list.
ghost use Rattle.std.specs.Prelude.{◌≡◌, ℕ, ◌+◌, ◌<◌, ◌^◌, ◌++◌, ◌∷◌, [], IfOk, List, length, map, slice_index};
ghost use Rattle.staat_ring.specs.Builds.{AreStopsFrom, all_around, opposite, slot_at, stops_from};

use crate::entry::Entry;
use staat_vec::OutOfMemory;
use std::marker::Model;

/// The stops of a circle in their order, each with the planes through it in ascending order.
#[derive(Drop)]
pub struct Stops {
    entries: Vec<Entry>,
    // where each stop ends
    ends: Vec<usize>,
}

impl Model for Stops {
    ghost use Rattle.std.specs.Prelude.{List, length};
    ghost use Rattle.staat_ring.specs.declared.entry.Entry.{Entry};
    ghost use Rattle.staat_ring.specs.Builds.{AreStopsFrom, stops_from};

    ghost Value = { List (List Entry) };

    ghost view = { λ s. stops_from 0 s.ends.items s.entries.items };

    ghost invariant = { λ s. AreStopsFrom 0 (length s.entries.items) s.ends.items };
}

// the entries, and after them the same as they are seen from the opposite vertices
fn with_opposites(half: Vec<Entry>) -> Result<Vec<Entry>, OutOfMemory>
    ensures { IfOk result (λ v. v.items ≡ half.items ++ map opposite half.items) }
{
    let mut entries = half;
    for i in 0..entries.len() {
        let e = entries[i];
        entries.push(Entry {
            plane: e.plane,
            turned: !e.turned,
        })?;
    }
    Ok(entries)
}

// the ends of the stops of a half circle, and after them those of its opposite
fn with_later(half: Vec<usize>, count: usize) -> Result<Vec<usize>, OutOfMemory>
    requires small { count < 2 ^ 63 }
    requires stops { AreStopsFrom 0 count half.items }
    ensures { IfOk result (λ v. v.items ≡ half.items ++ map (λ end. count + end) half.items) }
{
    let mut ends = half;
    for k in 0..ends.len() {
        let end = count + ends[k];
        ends.push(end)?;
    }
    Ok(ends)
}

// where the stop `k` begins
fn start_of(ends: &[usize], k: usize) -> usize
    requires { k < length ends.now }
    ensures { result ≡ slice_index (0 ∷ ends.now) k }
{
    if k == 0 { 0 } else { ends[k - 1] }
}

impl Stops {
    /// The stops of a half circle, and their opposites.
    pub fn around(entries: Vec<Entry>, ends: Vec<usize>) -> Result<Stops, OutOfMemory>
        requires stops { AreStopsFrom 0 (length entries.items) ends.items }
        requires last { (rest : List ℕ) × (ends.items ≡ rest ++ length entries.items ∷ []) }
        ensures { IfOk result (λ s. s ≡ all_around (stops_from 0 ends.items entries.items)) }
    {
        let count = entries.len();
        let ends = with_later(ends, count)?;
        let entries = with_opposites(entries)?;
        Ok(Stops { entries, ends })
    }

    /// The number of stops.
    pub fn len(&self) -> usize
        ensures { result ≡ length self.now }
    {
        self.ends.len()
    }

    /// The entries of the stop `k`.
    pub fn stop(&self, k: usize) -> &[Entry]
        requires { k < length self.now }
        ensures { result.now ≡ slot_at self.now k }
    {
        let start = start_of(self.ends.as_slice(), k);
        let end = self.ends[k];
        &self.entries[start..end]
    }
}
