// Batches of cones that are tested at once, a bit for each.
ghost use Rattle.std.specs.Prelude.{◌≡◌, ◌<◌, ◌-◌, ◌⊎◌, ◌↔◌, ℕ, List, All, IsTrue, OnOk};
ghost use Rattle.std.specs.Prelude.{length, Some, slice_get, slice_index_or};
ghost use Rattle.std.specs.Int.{bit_at};
ghost use Rattle.staat_vec.specs.declared.vector.Sign.{Sign as SignValue};
ghost use Rattle.staat_cells.specs.declared.batches.ArcCones.{ArcCones as ArcValue};
ghost use Rattle.staat_cells.specs.declared.batches.Batch.{Batch as BatchValue};
ghost use Rattle.staat_cells.specs.declared.batches.PlaneTest.{PlaneTest as TestValue};
ghost use Rattle.staat_cells.specs.declared.half_spaces.HalfSpace.{HalfSpace as HalfSpaceValue};
ghost use Rattle.staat_cells.specs.HalfSpaces.{AreInside, IsInHalfSpace};
ghost use Rattle.staat_cells.specs.Batches.{AddsToBatch, HasCone, HasParts, IsBatch, IsLeft, IsLeftByAll};
ghost use Rattle.staat_cells.specs.Batches.{outside_at, outside_by};
ghost use Rattle.staat_cells.specs.CellGraphs.{AddsCone, HasConeRoom};

use crate::half_spaces::{HalfSpace, HalfSpaces, is_same_cone, push_copy};
use staat_limits::MOST_PARTS;
use staat_vec::{OutOfMemory, Sign};
use std::alloc::Global;

/// How many cones a batch has at most.
const BATCH: usize = 128;

/// What a plane rules out of the cones of a batch: those that no direction below the plane is in, none on it, and none
/// above it, as bits.
#[derive(Clone, Copy)]
pub struct PlaneTest {
    pub(crate) plane: usize,
    pub(crate) outside: [u128; 3],
}

/// Two parts `a` and `b`, and which cones of a batch are those of a piece of `a` and a piece of `b`, as bits.
#[derive(Clone, Copy)]
pub struct ArcCones {
    pub(crate) a: u32,
    pub(crate) b: u32,
    pub(crate) cones: u128,
}

/// At most 128 different cones, what the planes rule out of them, and the parts that they belong to.
#[derive(Drop)]
pub struct Batch {
    pub(crate) cones: Vec<HalfSpaces>,
    pub(crate) tests: Vec<PlaneTest>,
    pub(crate) arcs: Vec<ArcCones>,
}

// ---- tests of cones

// the word of the side t with the cone j, which is on the side s
fn with_outside(word: u128, t: Sign, s: Sign, j: usize) -> u128
    requires { j < 128 }
    ensures { (k : ℕ) → IsLeft result k ↔ (IsLeft word k × (k ≡ j → t ≡ s)) }
{
    if t == s { word } else { word | 1 << j }
}

// the test with the cone j, which is on the side s of its plane
fn with_cone(test: PlaneTest, s: Sign, j: usize) -> PlaneTest
    requires { j < 128 }
    ensures plane { result.plane ≡ test.plane }
    ensures left { (t : SignValue) (k : ℕ) → IsLeft (outside_at result t) k
        ↔ (IsLeft (outside_at test t) k × (k ≡ j → t ≡ s)) }
{
    PlaneTest {
        plane: test.plane,
        outside: [
            with_outside(test.outside[0], Sign::Neg, s, j),
            with_outside(test.outside[1], Sign::Zero, s, j),
            with_outside(test.outside[2], Sign::Pos, s, j),
        ],
    }
}

// where the test of a plane stands, or how many there are
fn place_of_plane(tests: &[PlaneTest], plane: usize) -> usize
    ensures { result < length tests.now
        → (d : TestValue) → (slice_index_or tests.now result d).plane ≡ plane }
{
    for k in 0..tests.len() {
        if tests[k].plane == plane {
            return k;
        }
    }
    tests.len()
}

// adds a half-space of the cone j
fn add_half_space(
    tests: &mut Vec<PlaneTest>,
    half_space: HalfSpace,
    j: usize,
) -> Result<(), OutOfMemory>
    requires { j < 128 }
    ensures { OnOk result ((signs : List SignValue) (k : ℕ) → IsLeftByAll (outside_by signs) tests.new.items k
        ↔ (IsLeftByAll (outside_by signs) tests.old.items k × (k ≡ j → IsInHalfSpace signs half_space))) }
{
    let at = place_of_plane(tests, half_space.plane);
    if at < tests.len() {
        tests[at] = with_cone(tests[at], half_space.sign, j);
        return Ok(());
    }
    let none = PlaneTest {
        plane: half_space.plane,
        outside: [0, 0, 0],
    };
    tests.push(with_cone(none, half_space.sign, j))?;
    Ok(())
}

// adds the half-spaces of the cone j
fn add_half_spaces(
    tests: &mut Vec<PlaneTest>,
    cone: &[HalfSpace],
    j: usize,
) -> Result<(), OutOfMemory>
    requires { j < 128 }
    ensures { OnOk result ((signs : List SignValue) (k : ℕ) → IsLeftByAll (outside_by signs) tests.new.items k
        ↔ (IsLeftByAll (outside_by signs) tests.old.items k × (k ≡ j → AreInside signs cone.now))) }
{
    for half_space in cone {
        add_half_space(tests, *half_space, j)?;
    }
    Ok(())
}

// ---- cones of parts

// whether the last listed are the parts a and b
fn is_last(arcs: &[ArcCones], a: u32, b: u32) -> bool
    ensures some { IsTrue result → 0 < length arcs.now }
    ensures last { IsTrue result → (d : ArcValue) → ((slice_index_or arcs.now (length arcs.now - 1) d).a ≡ a)
        × ((slice_index_or arcs.now (length arcs.now - 1) d).b ≡ b) }
{
    let count = arcs.len();
    count > 0 && arcs[count - 1].a == a && arcs[count - 1].b == b
}

// the parts with the cone j
fn with_bit(arc: ArcCones, j: usize) -> ArcCones
    requires { j < 128 }
    ensures a { result.a ≡ arc.a }
    ensures b { result.b ≡ arc.b }
    ensures cones { (k : ℕ) → (bit_at result.cones k ≡ 1) ↔ ((bit_at arc.cones k ≡ 1) ⊎ (k ≡ j)) }
{
    ArcCones {
        a: arc.a,
        b: arc.b,
        cones: arc.cones | 1 << j,
    }
}

// adds the cone j to those of the parts a and b
fn add_arc(arcs: &mut Vec<ArcCones>, a: u32, b: u32, j: usize) -> Result<(), OutOfMemory>
    requires cone { j < 128 }
    requires a { a < MOST_PARTS }
    requires b { b < MOST_PARTS }
    requires parts { All HasParts arcs.old.items }
    ensures parts { OnOk result (All HasParts arcs.new.items) }
    ensures cones { OnOk result ((x y k : ℕ) → HasCone arcs.new.items x y k
        ↔ (HasCone arcs.old.items x y k ⊎ ((x ≡ a) × (y ≡ b) × (k ≡ j)))) }
{
    if is_last(arcs, a, b) {
        let last = arcs.len() - 1;
        arcs[last] = with_bit(arcs[last], j);
        return Ok(());
    }
    let none = ArcCones { a, b, cones: 0 };
    arcs.push(with_bit(none, j))?;
    Ok(())
}

// adds a cone to a batch
fn add_new(
    alloc: Global,
    batch: &mut Batch,
    cone: &[HalfSpace],
    a: u32,
    b: u32,
) -> Result<(), OutOfMemory>
    requires rules { IsBatch batch.old }
    requires room { length batch.old.cones.items < 128 }
    requires a { a < MOST_PARTS }
    requires b { b < MOST_PARTS }
    ensures { OnOk result (AddsToBatch cone.now a b batch.old batch.new) }
{
    let j = batch.cones.len();
    add_half_spaces(&mut batch.tests, cone, j)?;
    add_arc(&mut batch.arcs, a, b, j)?;
    push_copy(alloc, &mut batch.cones, cone)
}

// adds the parts a and b to those of the cone j
fn add_parts(batch: &mut Batch, j: usize, a: u32, b: u32) -> Result<(), OutOfMemory>
    requires rules { IsBatch batch.old }
    requires cone { j < length batch.old.cones.items }
    requires a { a < MOST_PARTS }
    requires b { b < MOST_PARTS }
    ensures { OnOk result ((cone : List HalfSpaceValue) → slice_get batch.old.cones.items j ≡ Some cone
        → AddsToBatch cone a b batch.old batch.new) }
{
    add_arc(&mut batch.arcs, a, b, j)?;
    Ok(())
}

// the place of a cone
fn place_of_cone(cones: &[HalfSpaces], cone: &[HalfSpace]) -> Option<usize>
    ensures { (j : ℕ) → result ≡ Some j → slice_get cones.now j ≡ Some cone.now }
{
    for k in 0..cones.len() {
        if is_same_cone(cones[k].as_slice(), cone) {
            return Some(k);
        }
    }
    None
}

// the batch of a cone, and its place there
fn find(batches: &[Batch], cone: &[HalfSpace]) -> Option<(usize, usize)>
    ensures batch { (k j : ℕ) → result ≡ Some (k, j) → k < length batches.now }
    ensures cone { (k j : ℕ) → result ≡ Some (k, j) → (d : BatchValue)
        → slice_get (slice_index_or batches.now k d).cones.items j ≡ Some cone.now }
{
    for k in 0..batches.len() {
        if let Some(j) = place_of_cone(&batches[k].cones, cone) {
            return Some((k, j));
        }
    }
    None
}

// whether there is room for a cone in the last batch
fn has_room(batches: &[Batch]) -> bool
    ensures some { IsTrue result → 0 < length batches.now }
    ensures last { IsTrue result → (d : BatchValue)
        → length (slice_index_or batches.now (length batches.now - 1) d).cones.items < 128 }
{
    let count = batches.len();
    count > 0 && batches[count - 1].cones.len() < BATCH
}

// adds an empty batch, unless there is room for a cone in the last
fn make_room(alloc: Global, batches: &mut Vec<Batch>) -> Result<(), OutOfMemory>
    requires { All IsBatch batches.old.items }
    ensures { OnOk result (HasConeRoom batches.old.items batches.new.items) }
{
    if has_room(batches) {
        return Ok(());
    }
    batches.push(Batch {
        cones: Vec::new(alloc),
        tests: Vec::new(alloc),
        arcs: Vec::new(alloc),
    })?;
    Ok(())
}

/// Adds a cone of the parts `a` and `b`. A cone that is in a batch already gets these parts too.
pub(crate) fn add_cone(
    alloc: Global,
    batches: &mut Vec<Batch>,
    cone: &[HalfSpace],
    a: u32,
    b: u32,
) -> Result<(), OutOfMemory>
    requires rules { All IsBatch batches.old.items }
    requires a { a < MOST_PARTS }
    requires b { b < MOST_PARTS }
    ensures { OnOk result (AddsCone cone.now a b batches.old.items batches.new.items) }
{
    if let Some((k, j)) = find(batches, cone) {
        return add_parts(&mut batches[k], j, a, b);
    }
    make_room(alloc, batches)?;
    let last = batches.len() - 1;
    add_new(alloc, &mut batches[last], cone, a, b)
}
