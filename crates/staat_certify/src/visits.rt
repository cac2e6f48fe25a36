// The witness at each vertex of a table's planes, found on one circle after another.
ghost use Rattle.std.specs.Prelude.{◌≡◌, ◌≢◌, ◌<◌, ◌+◌, ◌-◌, ◌↔◌, All, IfOk, IfSome, IsTrue, OnOk, Some};
ghost use Rattle.std.specs.Prelude.{false, length, map};
ghost use Rattle.staat_vec.specs.Lists.{Lists};
ghost use Rattle.staat_vec.specs.Primitives.{IsCanon};
ghost use Rattle.staat_vec.specs.Vectors.{origin, vector_cmp};
ghost use Rattle.staat_model.specs.Certify.{IsDirection};
ghost use Rattle.staat_model.specs.Plans.{IsStuck};
ghost use Rattle.staat_pairs.specs.Tables.{WasMadeFrom};
ghost use Rattle.staat_ring.specs.Belonging.{BelongTo};
ghost use Rattle.staat_ring.specs.WholeCircles.{AreSignsAt, HaveSameFull, IsWholeCircle, vertex_at};
ghost use Rattle.staat_certify.specs.WitnessListings.{EachStandsOnce, AreKeys};
ghost use Rattle.staat_certify.specs.Visits.{HasFound, HasGone, IsNamed, IsNumberHere, IsSurvey, IsToldAhead};
ghost use Rattle.staat_certify.specs.Visits.{IsVisitedTo, KeepsTrees, NamesIfTold, visited_directions};
ghost use Rattle.staat_certify.specs.Witnesses.{StandsAmong};

use crate::listing::{known_number, number_witness};
use crate::vantage::Vantage;
use crate::visit_list::{Visit, VisitList};
use crate::witnesses::{GraphTrees, WitnessRoom, put_witness, renew_trees};
use indexmap::IndexSet;
use staat_model::{Sound, Witness};
use staat_planes::PlaneTable;
use staat_ring::{Circle, CountedSigns};
use staat_vec::OutOfMemory;
use std::alloc::Global;

/// What was found: the witnesses with their keys, and the directions with the numbers of theirs.
#[derive(Drop)]
pub struct Found {
    pub keys: IndexSet<Vec<u32>>,
    pub witnesses: Vec<Witness>,
    pub visited: VisitList,
    pub kept: Option<GraphTrees>,
    pub room: WitnessRoom,
}

// the number of the witness at the vertex, which is looked for where it is not told, and put at the end of the list if
// it is a new one
fn number_here(
    alloc: Global,
    at: &Vantage,
    told: Option<usize>,
    found: &mut Found,
) -> Result<usize, OutOfMemory>
    requires at { StandsAmong at.now.sound.now at.now.table.now at.now.signs.now at.now.d }
    requires stuck { IsStuck at.now.sound.now at.now.table.now.of }
    requires some { at.now.d ≢ origin }
    requires kept { KeepsTrees at.now.table.now.of found.old.kept }
    requires keys { AreKeys at.now.table.now (map (λ v. v.items) found.old.keys.keys) found.old.witnesses.items }
    requires told { NamesIfTold at.now.sound.now at.now.table.now.of found.old.witnesses.items at.now.d told }
    ensures number { IfOk result (IsNumberHere at.now.sound.now at.now.table.now at.now.d
        (map (λ v. v.items) found.new.keys.keys) found.old.witnesses.items found.new.witnesses.items) }
    ensures kept { OnOk result (KeepsTrees at.now.table.now.of found.new.kept) }
    ensures visited { found.new.visited ≡ found.old.visited }
{
    if let Some(number) = told {
        return Ok(number);
    }
    let trees = renew_trees(&mut found.kept, at);
    put_witness(&mut found.room, at, &trees)?;
    // the slot of an arc of the table is that of no other
    let _set = at.table.set();
    if let Some(number) = known_number(&found.keys, found.room.key.as_slice()) {
        return Ok(number);
    }
    let key = found.room.key.as_slice().to_vec(alloc)?;
    let here = found.room.witness(alloc)?;
    let number = number_witness(at.table, &mut found.keys, &mut found.witnesses, key, here)?;
    Ok(number)
}

// the number that is told, unless other pieces may meet now
fn still_told(changes: bool, told: Option<usize>) -> Option<usize>
    ensures { IfSome result (λ number. (changes ≡ false) × (told ≡ Some number)) }
{
    if changes { None } else { told }
}

/// What is visited, and what for: the vertices of the planes of a table, circle by circle, for the refusal of this
/// version that the table's set is stuck.
#[derive(Drop)]
struct Survey<'a> {
    alloc: Global,
    sound: &'a Sound,
    table: &'a PlaneTable,
    version: u32,
}

impl<'a> Survey<'a> {
    // whether the vertex k of a circle is one of the directions of the version, which has one of two opposite ones or both
    fn lists(&self, circle: &Circle, k: usize, ahead: Option<bool>) -> bool
        requires circle { IsWholeCircle self.now.table.now.planes circle.now }
        requires place { k < length circle.now.stops }
        requires ahead { IsToldAhead self.now.table.now.planes circle.now ahead k }
        ensures { IsTrue result ↔ (self.now.version ≡ 2 → IsCanon
            (vertex_at self.now.table.now.planes circle.now k)) }
    {
        let _set = self.table.set();
        if self.version != 2 {
            return true;
        }
        match ahead {
            Some(positive) if circle.first_entry(self.table, k).plane != 0 => positive,
            _ => circle.vertex(self.table, k).is_canon(),
        }
    }

    // Whether the plane 0 is positive at the next vertex, as far as it is told: it changes only where it is passed. The
    // first component of a vertex is its product with the normal of that plane.
    fn ahead_of(&self, circle: &Circle, k: usize, ahead: Option<bool>) -> Option<bool>
        requires circle { IsWholeCircle self.now.table.now.planes circle.now }
        requires place { k < length circle.now.stops }
        requires ahead { IsToldAhead self.now.table.now.planes circle.now ahead k }
        ensures { IsToldAhead self.now.table.now.planes circle.now result (k + 1) }
    {
        let _set = self.table.set();
        let first = circle.first_entry(self.table, k);
        if first.plane == 0 {
            Some(first.turned)
        } else {
            ahead
        }
    }

    // Gives the planes their signs at the vertex k of a circle, coming from the one before it if `near` says so. Tells
    // whether other pieces may meet than there.
    fn reach(&self, circle: &Circle, k: usize, near: bool, signs: &mut CountedSigns) -> bool
        requires made { BelongTo self.now.table.now signs.old }
        requires circle { IsWholeCircle self.now.table.now.planes circle.now }
        requires place { k < length circle.now.stops }
        requires near { IsTrue near → (0 < k) × AreSignsAt self.now.table.now.planes signs.old
            (vertex_at self.now.table.now.planes circle.now (k - 1)) }
        ensures made { BelongTo self.now.table.now signs.new }
        ensures signs { AreSignsAt self.now.table.now.planes signs.new
            (vertex_at self.now.table.now.planes circle.now k) }
        ensures same { result ≡ false → IsTrue near × HaveSameFull signs.old signs.new }
    {
        if near {
            return signs.cross(self.table, circle, k);
        }
        signs.enter(self.table, circle, k);
        true
    }

    // Visits the vertex k of a circle, coming from the one before it if `near` says so. The number that is told is that
    // of the witness at the one before, if any is, and so is the answer of the one here. A vertex that has been visited
    // on the circle of a lesser plane is not kept again.
    fn visit(
        &self,
        circle: &Circle,
        k: usize,
        near: bool,
        signs: &mut CountedSigns,
        told: Option<usize>,
        found: &mut Found,
    ) -> Result<Option<usize>, OutOfMemory>
        requires survey { IsSurvey self.now.sound.now self.now.table.now }
        requires made { BelongTo self.now.table.now signs.old }
        requires circle { IsWholeCircle self.now.table.now.planes circle.now }
        requires place { k < length circle.now.stops }
        requires listed { self.now.version ≡ 2 → IsCanon (vertex_at self.now.table.now.planes circle.now k) }
        requires near { IsTrue near → IsVisitedTo self.now.sound.now self.now.table.now circle.now signs.old
            found.old.witnesses.items told k }
        requires gone { HasGone self.now.sound.now self.now.table.now self.now.version found.old circle.now k }
        ensures made { BelongTo self.now.table.now signs.new }
        ensures to { IfOk result (λ number. IsVisitedTo self.now.sound.now self.now.table.now circle.now signs.new
            found.new.witnesses.items number (k + 1)) }
        ensures gone { OnOk result (HasGone self.now.sound.now self.now.table.now self.now.version found.new
            circle.now (k + 1)) }
    {
        let _set = self.table.set();
        let changes = self.reach(circle, k, near, signs);
        let known = still_told(changes, told);
        if circle.first_entry(self.table, k).plane < circle.plane() {
            return Ok(known);
        }
        let vertex = circle.vertex(self.table, k);
        let at = Vantage {
            sound: self.sound,
            table: self.table,
            signs,
            d: vertex.direction(),
        };
        let number = number_here(self.alloc, &at, known, found)?;
        found.visited.push(Visit { d: at.d, number })?;
        Ok(Some(number))
    }

    // visits the vertices of a circle that are directions of the version
    fn go_round(
        &self,
        circle: &Circle,
        signs: &mut CountedSigns,
        found: &mut Found,
    ) -> Result<(), OutOfMemory>
        requires survey { IsSurvey self.now.sound.now self.now.table.now }
        requires made { BelongTo self.now.table.now signs.old }
        requires circle { IsWholeCircle self.now.table.now.planes circle.now }
        requires found { HasFound self.now.sound.now self.now.table.now self.now.version found.old circle.now.plane }
        ensures made { OnOk result (BelongTo self.now.table.now signs.new) }
        ensures found { OnOk result (HasFound self.now.sound.now self.now.table.now self.now.version found.new
            (circle.now.plane + 1)) }
    {
        let _set = self.table.set();
        let mut near = false;
        let mut told = None;
        let mut ahead = None;
        for k in 0..circle.len() {
            let listed = self.lists(circle, k, ahead);
            ahead = self.ahead_of(circle, k, ahead);
            if listed {
                told = self.visit(circle, k, near, signs, told, found)?;
            }
            near = listed;
        }
        Ok(())
    }

    // visits the vertices of all circles
    fn go_round_all(&self, signs: &mut CountedSigns, found: &mut Found) -> Result<(), OutOfMemory>
        requires survey { IsSurvey self.now.sound.now self.now.table.now }
        requires made { BelongTo self.now.table.now signs.old }
        requires found { HasFound self.now.sound.now self.now.table.now self.now.version found.old 0 }
        ensures found { OnOk result (HasFound self.now.sound.now self.now.table.now self.now.version found.new
            (length self.now.table.now.planes)) }
    {
        for c in 0..self.table.len() {
            let circle = Circle::of(self.alloc, self.table, c)?;
            self.go_round(&circle, signs, found)?;
        }
        Ok(())
    }
}

/// Visits all directions of the version, with their witnesses. The visits come in the order of the directions.
///
/// Each vertex is visited on the circle of the least plane through it. Its witness is looked for only where other
/// pieces may meet than at the vertex before; no blocking graph is counted from the facets.
pub fn visit_all(
    alloc: Global,
    sound: &Sound,
    table: &PlaneTable,
    version: u32,
) -> Result<Found, OutOfMemory>
    requires made { WasMadeFrom sound.now table.now }
    requires stuck { IsStuck sound.now table.now.of }
    ensures apart { IfOk result (λ found. EachStandsOnce found.witnesses.items) }
    ensures named { IfOk result (λ found. All (IsNamed sound.now table.now.of found.witnesses.items)
        found.visited) }
    ensures directions { IfOk result (λ found. Lists vector_cmp (IsDirection version table.now.planes)
        (visited_directions found.visited)) }
{
    let _set = table.set();
    let mut signs = CountedSigns::of(alloc, table)?;
    let survey = Survey {
        alloc,
        sound,
        table,
        version,
    };
    let mut found = Found {
        keys: IndexSet::new(alloc),
        witnesses: Vec::new(alloc),
        visited: VisitList::new(alloc),
        kept: None,
        room: WitnessRoom::new(alloc),
    };
    survey.go_round_all(&mut signs, &mut found)?;
    found.visited.sort()?;
    Ok(found)
}
