// The visits of a survey, most of them in few words.
ghost use Rattle.std.specs.Prelude.{◌≡◌, ◌<◌, ◌++◌, ◌∷◌, [], OnOk, Some, length, slice_get};
ghost use Rattle.staat_vec.specs.Vectors.{IsWithin};
ghost use Rattle.staat_certify.specs.Visits.{SortsVisits};

use staat_vec::{OutOfMemory, V3, is_within};
use std::alloc::Global;
use std::marker::Model;

/// A vertex that was visited, and the number of its witness among those that are found.
#[derive(Clone, Copy)]
pub struct Visit {
    pub d: V3,
    pub number: usize,
}

// how great a component of a direction may be for a word of 64 bits
const SHORT: u128 = 1 << 62;

/// A direction whose components are words of 64 bits, seen as that vector. Short directions are ordered as vectors are.
#[derive(Clone, Copy, PartialEq, Eq, PartialOrd, Ord)]
struct ShortDirection {
    x: i64,
    y: i64,
    z: i64,
}

impl Model for ShortDirection {
    ghost use Rattle.staat_vec.specs.declared.vector.V3.{V3};

    ghost Value = { V3 };

    ghost view = { λ d. record { x = d.x; y = d.y; z = d.z } };

    ghost inverse = { λ v. record { x = v.x; y = v.y; z = v.z } };
}

/// A visit along such a direction, seen as that visit, in half the memory.
#[derive(Clone, Copy)]
struct ShortVisit {
    direction: ShortDirection,
    number: usize,
}

impl Model for ShortVisit {
    ghost use Rattle.staat_certify.specs.declared.visit_list.Visit.{Visit};

    ghost Value = { Visit };

    ghost view = { λ v. record { d = v.direction; number = v.number } };

    ghost inverse = { λ v. record { direction = v.d; number = v.number } };
}

impl ShortVisit {
    // the visit, whose direction has no great component
    fn of(visit: Visit) -> ShortVisit
        requires { IsWithin SHORT visit.d }
        ensures { result ≡ visit }
    {
        ShortVisit {
            direction: ShortDirection {
                x: visit.d.x as i64,
                y: visit.d.y as i64,
                z: visit.d.z as i64,
            },
            number: visit.number,
        }
    }

    fn visit(&self) -> Visit
        ensures { result ≡ self.now }
    {
        Visit {
            d: V3 {
                x: i128::from(self.direction.x),
                y: i128::from(self.direction.y),
                z: i128::from(self.direction.z),
            },
            number: self.number,
        }
    }
}

/// Visits, seen as the list of them: first the short ones, then those along great directions.
#[derive(Drop)]
pub struct VisitList {
    short: Vec<ShortVisit>,
    great: Vec<Visit>,
}

impl Model for VisitList {
    ghost use Rattle.std.specs.Prelude.{◌++◌, List};
    ghost use Rattle.staat_certify.specs.declared.visit_list.Visit.{Visit};

    ghost Value = { List Visit };

    ghost view = { λ v. v.short.items ++ v.great.items };
}

// puts visits in the order of their directions, and keeps one of each
fn sort_short(visits: &mut Vec<ShortVisit>)
    ensures { SortsVisits visits.old.items visits.new.items }
{
    visits.sort_unstable_by_key(|visit| visit.direction);
    visits.dedup_by_key(|visit| visit.direction);
}

// the same of visits along any directions
fn sort_great(visits: &mut Vec<Visit>)
    ensures { SortsVisits visits.old.items visits.new.items }
{
    visits.sort_unstable_by_key(|visit| visit.d);
    visits.dedup_by_key(|visit| visit.d);
}

// adds short visits
fn add_short(great: &mut Vec<Visit>, short: &[ShortVisit]) -> Result<(), OutOfMemory>
    ensures { OnOk result (great.new.items ≡ great.old.items ++ short.now) }
{
    for visit in short {
        great.push(visit.visit())?;
    }
    Ok(())
}

impl VisitList {
    /// No visit.
    pub fn new(alloc: Global) -> VisitList
        ensures { result ≡ [] }
    {
        VisitList {
            short: Vec::new(alloc),
            great: Vec::new(alloc),
        }
    }

    /// The number of visits.
    pub fn len(&self) -> usize
        ensures { result ≡ length self.now }
    {
        self.short.len() + self.great.len()
    }

    /// The visit `k`, which is below [`len`](VisitList::len).
    pub fn get(&self, k: usize) -> Visit
        requires { k < length self.now }
        ensures { slice_get self.now k ≡ Some result }
    {
        let count = self.short.len();
        if k < count {
            self.short[k].visit()
        } else {
            self.great[k - count]
        }
    }

    /// One more visit, at the end.
    pub fn push(&mut self, visit: Visit) -> Result<(), OutOfMemory>
        ensures { OnOk result (self.new ≡ self.old ++ visit ∷ []) }
    {
        if self.great.is_empty() && is_within(visit.d, SHORT) {
            self.short.push(ShortVisit::of(visit))?;
        } else {
            self.great.push(visit)?;
        }
        Ok(())
    }

    /// Puts the visits in the order of their directions, and keeps one of each.
    pub fn sort(&mut self) -> Result<(), OutOfMemory>
        ensures { OnOk result (SortsVisits self.old self.new) }
    {
        if self.great.is_empty() {
            sort_short(&mut self.short);
            return Ok(());
        }
        add_short(&mut self.great, self.short.as_slice())?;
        self.short.clear();
        sort_great(&mut self.great);
        Ok(())
    }
}
