// The lines of a refusal: each direction with the number of its witness.
ghost use Rattle.std.specs.Prelude.{◌≡◌, ◌<◌, ◌++◌, ◌∷◌, [], All, IfOk, IfSome, OnOk, Some, length, map, slice_get};
ghost use Rattle.staat_model.specs.declared.certificate.Witness.{Witness as WitnessValue};
ghost use Rattle.staat_certify.specs.WitnessListings.{EachStandsOnce, AreKeys, AreListed, AreNames, IsNumberOf};
ghost use Rattle.staat_certify.specs.WitnessListings.{IsOfTable, IsWitnessListing, key_of};
ghost use Rattle.staat_certify.specs.Visits.{IsNamed, visited_directions};

use crate::visit_list::Visit;
use crate::visits::Found;
use indexmap::IndexSet;
use staat_limits::LIST_LIMIT;
use staat_model::{Arcs, Body, Dir, Dirs, Sound, Witness, Witnesses};
use staat_planes::PlaneTable;
use staat_vec::OutOfMemory;
use std::alloc::Global;

// The witnesses and the lines so far, and of each witness that was found its number among these, if it has one.
#[derive(Drop)]
struct Listing {
    names: Vec<Option<usize>>,
    witnesses: Vec<Witness>,
    dirs: Vec<Dir>,
}

/// The number of the witness of this key, if it was found before.
pub fn known_number(keys: &IndexSet<Vec<u32>>, key: &[u32]) -> Option<usize>
    ensures { IfSome result (λ number. slice_get (map (λ v. v.items) keys.now.keys) number ≡ Some key.now) }
{
    keys.get_index_of(key)
}

/// The number of a witness with this key, which is put at the end of the list if it is a new one.
pub fn number_witness(
    table: &PlaneTable,
    keys: &mut IndexSet<Vec<u32>>,
    witnesses: &mut Vec<Witness>,
    key: Vec<u32>,
    witness: Witness,
) -> Result<usize, OutOfMemory>
    requires arcs { IsOfTable table.now witness }
    requires key { key.items ≡ key_of table.now.pieces witness }
    requires keys { AreKeys table.now (map (λ v. v.items) keys.old.keys) witnesses.old.items }
    ensures keys { OnOk result (AreKeys table.now (map (λ v. v.items) keys.new.keys) witnesses.new.items) }
    ensures number { IfOk result (IsNumberOf witnesses.old.items witnesses.new.items witness) }
{
    // the slot of an arc of the table is that of no other
    let _set = table.set();
    let (number, _) = keys.insert_full(key)?;
    if number == witnesses.len() {
        witnesses.push(witness)?;
    }
    Ok(number)
}

// a copy of a witness
fn copy_of(alloc: Global, witness: &Witness) -> Result<Witness, OutOfMemory>
    ensures { IfOk result (λ copy. copy ≡ witness.now) }
{
    Ok(Witness {
        outs: Arcs::from_vec(witness.outs.as_slice().to_vec(alloc)?),
        ins: Arcs::from_vec(witness.ins.as_slice().to_vec(alloc)?),
    })
}

// the number in the listing of the witness p that was found
fn name_of(
    alloc: Global,
    found: &[Witness],
    p: usize,
    listing: &mut Listing,
) -> Result<usize, OutOfMemory>
    requires place { p < length found.now }
    requires names { AreNames found.now listing.old.witnesses.items listing.old.names.items }
    ensures names { OnOk result (AreNames found.now listing.new.witnesses.items listing.new.names.items) }
    ensures number { IfOk result (λ i. (witness : WitnessValue) → slice_get found.now p ≡ Some witness
        → IsNumberOf listing.old.witnesses.items listing.new.witnesses.items witness i) }
    ensures dirs { listing.new.dirs ≡ listing.old.dirs }
{
    if let Some(number) = listing.names[p] {
        return Ok(number);
    }
    let number = listing.witnesses.len();
    listing.witnesses.push(copy_of(alloc, &found[p])?)?;
    listing.names[p] = Some(number);
    Ok(number)
}

// adds the line of a direction, with its witness
fn push_dir(
    alloc: Global,
    sound: &Sound,
    table: &PlaneTable,
    visit: Visit,
    found: &[Witness],
    listing: &mut Listing,
) -> Result<(), OutOfMemory>
    requires named { IsNamed sound.now table.now.of found.now visit }
    requires names { AreNames found.now listing.old.witnesses.items listing.old.names.items }
    requires listed { AreListed sound.now table.now.of listing.old.witnesses.items listing.old.dirs.items }
    requires room { length listing.old.dirs.items < LIST_LIMIT }
    ensures names { OnOk result (AreNames found.now listing.new.witnesses.items listing.new.names.items) }
    ensures listed { OnOk result (AreListed sound.now table.now.of listing.new.witnesses.items
        listing.new.dirs.items) }
    ensures line { OnOk result (map (λ dir. dir.d) listing.new.dirs.items ≡ map (λ dir. dir.d)
        listing.old.dirs.items ++ visit.d ∷ []) }
{
    let number = name_of(alloc, found, visit.number, listing)?;
    listing.dirs.push(Dir {
        d: visit.d,
        witness: number as u32,
    })?;
    Ok(())
}

/// What the certificate says of the table's set, which is stuck: the lines of the directions that were found, in their
/// order, each with its witness.
pub fn listing_of(
    alloc: Global,
    sound: &Sound,
    table: &PlaneTable,
    found: &Found,
) -> Result<Body, OutOfMemory>
    requires apart { EachStandsOnce found.now.witnesses.items }
    requires named { All (IsNamed sound.now table.now.of found.now.witnesses.items) found.now.visited }
    requires few { length found.now.visited < LIST_LIMIT }
    ensures { IfOk result (IsWitnessListing sound.now table.now.of (visited_directions found.now.visited)) }
{
    let witnesses = found.witnesses.as_slice();
    let mut listing = Listing {
        names: vec![in alloc; None; witnesses.len()]?,
        witnesses: Vec::new(alloc),
        dirs: Vec::with_capacity(alloc, found.visited.len())?,
    };
    for k in 0..found.visited.len() {
        let visit = found.visited.get(k);
        push_dir(alloc, sound, table, visit, witnesses, &mut listing)?;
    }
    Ok(Body::Stuck {
        set: table.set(),
        witnesses: Witnesses::from_vec(listing.witnesses),
        dirs: Dirs::from_vec(listing.dirs),
    })
}
