// The facets of two pieces, from few of the differences: a list that grows by those that lie farthest behind a facet.
ghost use Rattle.std.specs.Prelude.{◌≡◌, ◌++◌, ◌∷◌, [], List, All, Contains, OnOk, IfOk};
ghost use Rattle.std.specs.Prelude.{IfSome, IsSome};
ghost use Rattle.staat_vec.specs.declared.vector.V3.{V3 as Vector};
ghost use Rattle.staat_vec.specs.Vectors.{IsWithin, minus, vector_cmp};
ghost use Rattle.staat_vec.specs.Lists.{Lists};
ghost use Rattle.staat_model.specs.Cones.{IsSpanning};
ghost use Rattle.staat_model.specs.Facets.{IsFacet};
ghost use Rattle.staat_cone.specs.Few.{HasDifferences, IsGrown, IsReady};

use crate::behind::violator;
use crate::edges::primitive_normal;
use crate::method::{Method, add_edges_through};
use crate::spread::three_steps;
use crate::walls::{is_above, points_of};
use staat_model::Piece;
use staat_vec::{DIFF, OutOfMemory, POINT, V3, in_order, sub};
use std::alloc::Global;

// How many facets of the few are tested at most, more than a list has room for. Each test finds a facet of the pieces,
// or a difference that was not among the few, or drops one of the untested.
const ROUNDS: u64 = 1 << 63;

// How many vectors a list has room for when it is made.
const ROOM: usize = 16;

// Few of the differences of two pieces, and the facets of their cone: those that were not tested against all
// differences yet, which are not made primitive and among which some may lie before one of the few, and those that
// were.
#[derive(Drop)]
struct Few {
    method: Method,
    members: Vec<V3>,
    untested: Vec<V3>,
    found: Vec<V3>,
}

impl Few {
    // none, with room for those of most pairs
    fn new(alloc: Global, method: Method) -> Result<Few, OutOfMemory>
        ensures grown { IfOk result
            (λ few. (p q : List Vector) → IsGrown p q few.members.items few.untested.items few.found.items) }
        ensures within { IfOk result (λ few. All (IsWithin DIFF) few.members.items) }
    {
        Ok(Few {
            method,
            members: Vec::with_capacity(alloc, ROOM)?,
            untested: Vec::with_capacity(alloc, ROOM)?,
            found: Vec::with_capacity(alloc, ROOM)?,
        })
    }

    // one more member, and the walls through it and another
    fn insert(&mut self, v: V3) -> Result<(), OutOfMemory>
        requires members { All (IsWithin DIFF) self.old.members.items }
        requires vector { IsWithin DIFF v }
        ensures grown { OnOk result
            ((p q : List Vector) → IsReady p q self.old.members.items self.old.untested.items self.old.found.items v →
            IsGrown p q self.new.members.items self.new.untested.items self.new.found.items) }
        ensures kept { OnOk result
            ((u : Vector) → Contains self.old.members.items u → Contains self.new.members.items u) }
        ensures member { OnOk result (Contains self.new.members.items v) }
        ensures within { OnOk result (All (IsWithin DIFF) self.new.members.items) }
    {
        let members = self.members.as_slice();
        add_edges_through(self.method, members, v, &mut self.untested)?;
        self.members.push(v)?;
        Ok(())
    }
}

// Tests n against all differences: the primitive vector on its ray is found to be a facet of the pieces, or the few
// grow. Where one of the few lies behind it, it is dropped.
fn settle(few: &mut Few, n: V3, p: &Piece, q: &Piece) -> Result<(), OutOfMemory>
    requires { IsGrown p.now q.now few.old.members.items (few.old.untested.items ++ n ∷ []) few.old.found.items }
    ensures grown { OnOk result
        (IsGrown p.now q.now few.new.members.items few.new.untested.items few.new.found.items) }
    ensures kept { OnOk result
        ((v : Vector) → Contains few.old.members.items v → Contains few.new.members.items v) }
    ensures whole { OnOk result (HasDifferences p.now q.now few.old.members.items
        → few.new.untested.items ≡ few.old.untested.items) }
{
    if !is_above(n, few.members.as_slice()) {
        return Ok(());
    }
    match violator(n, p, q) {
        Some(v) => few.insert(v)?,
        None => few.found.push(primitive_normal(n))?,
    }
    Ok(())
}

// three of the differences, if such are found that span space
fn start(alloc: Global, method: Method, p: &Piece, q: &Piece) -> Result<Option<Few>, OutOfMemory>
    ensures grown { IfOk result (λ s. IfSome s
        (λ few. IsGrown p.now q.now few.members.items few.untested.items few.found.items)) }
    ensures spanning { IfOk result (λ s. IfSome s (λ few. IsSpanning few.members.items)) }
{
    let Some((u, v, w)) = three_steps(p, q) else {
        return Ok(None);
    };
    let mut few = Few::new(alloc, method)?;
    few.insert(u)?;
    few.insert(v)?;
    few.insert(w)?;
    Ok(Some(few))
}

// what leads from a, one of the points ps, to each of the points qs joins the few
fn insert_from(few: &mut Few, ps: &[V3], a: V3, qs: &[V3]) -> Result<(), OutOfMemory>
    requires member { Contains ps.now a }
    requires from { IsWithin POINT a }
    requires to { All (IsWithin POINT) qs.now }
    requires grown { IsGrown ps.now qs.now few.old.members.items few.old.untested.items few.old.found.items }
    ensures grown { OnOk result
        (IsGrown ps.now qs.now few.new.members.items few.new.untested.items few.new.found.items) }
    ensures kept { OnOk result
        ((v : Vector) → Contains few.old.members.items v → Contains few.new.members.items v) }
    ensures all { OnOk result (All (λ b. Contains few.new.members.items (minus b a)) qs.now) }
{
    for b in qs {
        few.insert(sub(*b, a))?;
    }
    Ok(())
}

// all differences join the few
fn insert_all(few: &mut Few, ps: &[V3], qs: &[V3]) -> Result<(), OutOfMemory>
    requires from { All (IsWithin POINT) ps.now }
    requires to { All (IsWithin POINT) qs.now }
    requires grown { IsGrown ps.now qs.now few.old.members.items few.old.untested.items few.old.found.items }
    ensures grown { OnOk result
        (IsGrown ps.now qs.now few.new.members.items few.new.untested.items few.new.found.items) }
    ensures all { OnOk result (HasDifferences ps.now qs.now few.new.members.items) }
{
    for a in ps {
        insert_from(few, ps, *a, qs)?;
    }
    Ok(())
}

// The facets of the pieces, if all facets of the few are tested before the rounds run out. They do not run out where
// all differences are among the few.
fn grow(mut few: Few, p: &Piece, q: &Piece) -> Result<Option<Vec<V3>>, OutOfMemory>
    requires grown { IsGrown p.now q.now few.members.items few.untested.items few.found.items }
    requires spanning { IsSpanning few.members.items }
    ensures facets { IfOk result (λ a. IfSome a (λ list. Lists vector_cmp (IsFacet p.now q.now) list.items)) }
    ensures whole { IfOk result (λ a. HasDifferences p.now q.now few.members.items → IsSome a) }
{
    for _round in 0..ROUNDS {
        let Some(n) = few.untested.pop() else {
            return Ok(Some(in_order(few.found)));
        };
        settle(&mut few, n, p, q)?;
    }
    Ok(None)
}

/// The facets of the pieces from few of their differences, if they are found within a bounded number of rounds.
pub fn facets_by_few(
    alloc: Global,
    method: Method,
    p: &Piece,
    q: &Piece,
) -> Result<Option<Vec<V3>>, OutOfMemory>
    ensures { IfOk result (λ a. IfSome a (λ list. Lists vector_cmp (IsFacet p.now q.now) list.items)) }
{
    match start(alloc, method, p, q)? {
        Some(few) => grow(few, p, q),
        None => Ok(None),
    }
}

/// The facets of the pieces from all their differences.
pub fn facets_by_all(
    alloc: Global,
    method: Method,
    p: &Piece,
    q: &Piece,
) -> Result<Vec<V3>, OutOfMemory>
    ensures { IfOk result (λ list. Lists vector_cmp (IsFacet p.now q.now) list.items) }
{
    let mut few = Few::new(alloc, method)?;
    insert_all(&mut few, points_of(p), points_of(q))?;
    match grow(few, p, q)? {
        Some(list) => Ok(list),
        None => unreachable!(),
    }
}
