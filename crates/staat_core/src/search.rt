// The search for the first vertex of the planes of a set of parts that serves.
ghost use Rattle.std.specs.Prelude.{◌≡◌, ◌≢◌, List, ◌∷◌, [], IfSome, ⊤};
ghost use Rattle.staat_vec.specs.declared.vector.V3.{V3 as Vector};
ghost use Rattle.staat_vec.specs.Vectors.{IsWithin, negative, origin};
ghost use Rattle.staat_model.specs.declared.assembly.Part.{Part as PartValue};
ghost use Rattle.staat_model.specs.declared.set.PartSet.{PartSet as PartSetValue};
ghost use Rattle.staat_model.specs.Planes.{ArePlanes, vertices};
ghost use Rattle.staat_model.specs.Sets.{IsNonempty, IsSubset};
ghost use Rattle.staat_pairs.specs.Tables.{Table, WasMadeFrom};
ghost use Rattle.staat_planes.specs.PairOrder.{IsPlaceIn, vertices_left};
ghost use Rattle.staat_core.specs.TableCores.{CoreHolds, IsTableCore};
ghost use Rattle.staat_core.specs.VertexSearch.{AreManyPassed, ArePassed, HasManyVertices, IfFirst, IfFound};
ghost use Rattle.staat_core.specs.VertexSearch.{IsDirectionWith, IsFirstIfAny, IsFirstOfTwo, IsFirstUnless};

use crate::table_core::TableCore;
use staat_model::PartSet;
use staat_planes::{PlanePairs, PlaneTable};
use staat_vec::{DIRECTION, V3, neg};

/// What a trial finds at a direction and at its opposite.
#[derive(Drop)]
pub enum Tried<F> {
    /// Neither serves.
    Neither,
    /// The direction serves, and this is found there.
    Ahead(F),
    /// The direction does not serve, its opposite does, and this is found there.
    Opposite(F),
}

/// A direction that serves, and what is found there.
#[derive(Drop)]
pub struct Served<F> {
    pub d: V3,
    pub found: F,
}

/// What a search finds that ends after some number of pairs of planes.
#[derive(Drop)]
pub enum Search<F> {
    /// The first direction that serves.
    First(Served<F>),
    /// No direction serves.
    Nothing,
    /// None of those that were tried serves, and others are left.
    Undecided,
}

/// What is looked for at the vertices of the planes of a set of parts. A trial takes no memory.
pub trait Trial {
    /// What is found at a direction that serves.
    type Found;

    // the trial speaks of this assembly and its table
    ghost knows: { Self → List PartValue → Table → Type 0 };

    // something is found for a set of parts of an assembly at a direction
    ghost serves: { List PartValue → PartSetValue → Vector → Type 0 };

    // this is found
    ghost finds: { List PartValue → PartSetValue → Vector → Self.Found → Type 0 };

    // what is found for the set is one of these, whatever the assembly
    ghost among: { PartSetValue → Self.Found → Type 0 };

    /// Looks at a direction, and at its opposite if the direction does not serve.
    fn ask(&self, table: &PlaneTable, w: PartSet, d: V3) -> Tried<Self::Found>
        requires nonempty { IsNonempty w }
        requires within { IsSubset w table.now.of }
        requires size { IsWithin DIRECTION d }
        requires some { d ≢ origin }
        ensures among { IfFound result (among w) }
        ensures tried { (parts : List PartValue) → WasMadeFrom parts table.now → knows self.now parts table.now
            → IsFirstOfTwo (serves parts w) (finds parts w) d result };

    /// A core that holds the set along no direction that serves.
    fn core(&self, table: &PlaneTable, w: PartSet) -> TableCore
        requires within { IsSubset w table.now.of }
        ensures core { IsTableCore table.now result }
        ensures held { (parts : List PartValue) (d : Vector) → WasMadeFrom parts table.now
            → knows self.now parts table.now → CoreHolds parts result w d → serves parts w d → ⊥ };
}

/// How many pairs of planes are tried one by one before there is a core.
const FEW_PAIRS: u32 = 8;

/// More pairs than the planes of a table have.
pub const ALL_PAIRS: u32 = 1_049_601;

// Passes over the rows of pairs along whose planes the core holds the set, from a row that begins at the place.
fn pass_rows(pairs: &mut PlanePairs, table: &PlaneTable, w: PartSet, core: &mut TableCore)
    requires place { IsPlaceIn table.now.planes pairs.old }
    requires nonempty { IsNonempty w }
    requires core { IsTableCore table.now core.old }
    ensures place { IsPlaceIn table.now.planes pairs.new }
    ensures core { IsTableCore table.now core.new }
    ensures kept { (parts : List PartValue) (d : Vector) → CoreHolds parts core.new w d → CoreHolds parts core.old w d }
    ensures passed { (parts : List PartValue) → WasMadeFrom parts table.now
        → ArePassed (λ d. CoreHolds parts core.old w d → ⊥) (vertices_left table.now.planes pairs.old)
        (vertices_left table.now.planes pairs.new) }
{
    // there are no more rows than planes
    for _k in 0..table.len() {
        let Some(g) = pairs.row_begun(table) else {
            return;
        };
        if !core.holds_on(table, w, g) {
            return;
        }
        pairs.end_row(table);
    }
}

// what a trial finds at a direction or at its opposite, and none exactly where neither serves
fn served_at<T: Trial>(table: &PlaneTable, w: PartSet, d: V3, trial: &T) -> Option<Served<T::Found>>
    requires nonempty { IsNonempty w }
    requires within { IsSubset w table.now.of }
    requires size { IsWithin DIRECTION d }
    requires some { d ≢ origin }
    ensures among { IfSome result (IsDirectionWith (T.among w)) }
    ensures served { (parts : List PartValue) → WasMadeFrom parts table.now → T.knows trial.now parts table.now
        → IsFirstIfAny (T.serves parts w) (T.finds parts w) (d ∷ negative d ∷ []) result }
{
    match trial.ask(table, w, d) {
        Tried::Neither => None,
        Tried::Ahead(found) => Some(Served { d, found }),
        Tried::Opposite(found) => Some(Served { d: neg(d), found }),
    }
}

// what a trial finds where the next two planes cross; undecided where nothing serves there
fn served_next<T: Trial>(
    pairs: &mut PlanePairs,
    table: &PlaneTable,
    w: PartSet,
    trial: &T,
) -> Search<T::Found>
    requires place { IsPlaceIn table.now.planes pairs.old }
    requires nonempty { IsNonempty w }
    requires within { IsSubset w table.now.of }
    ensures place { IsPlaceIn table.now.planes pairs.new }
    ensures among { IfFirst result (IsDirectionWith (T.among w)) }
    ensures first { (parts : List PartValue) → WasMadeFrom parts table.now → T.knows trial.now parts table.now
        → IsFirstUnless (AreManyPassed (T.serves parts w) (vertices_left table.now.planes pairs.old)
        (vertices_left table.now.planes pairs.new) 1) (T.serves parts w) (T.finds parts w)
        (vertices_left table.now.planes pairs.old) result }
{
    let Some(d) = pairs.next_crossing(table) else {
        return Search::Nothing;
    };
    match served_at(table, w, d, trial) {
        Some(served) => Search::First(served),
        None => Search::Undecided,
    }
}

// the first of the vertices of the first few pairs of planes that serves
fn first_of_few<T: Trial>(table: &PlaneTable, w: PartSet, trial: &T) -> Search<T::Found>
    requires nonempty { IsNonempty w }
    requires within { IsSubset w table.now.of }
    ensures among { IfFirst result (IsDirectionWith (T.among w)) }
    ensures first { (parts : List PartValue) (planes : List Vector) → WasMadeFrom parts table.now
        → T.knows trial.now parts table.now → ArePlanes parts w planes
        → IsFirstUnless ⊤ (T.serves parts w) (T.finds parts w) (vertices planes) result }
{
    let mut pairs = PlanePairs::of(table, w);
    for _k in 0..FEW_PAIRS {
        match served_next(&mut pairs, table, w, trial) {
            Search::First(served) => return Search::First(served),
            Search::Nothing => return Search::Nothing,
            Search::Undecided => {}
        }
    }
    Search::Undecided
}

// The first of the vertices that serves, by a core that holds most sets that are stuck, and on most planes those that
// are not. What it keeps on the stack is large, and is not to be part of the callers' frames.
#[inline(never)]
fn first_by_core<T: Trial>(
    trial: &T,
    table: &PlaneTable,
    w: PartSet,
    limit: u32,
) -> Search<T::Found>
    requires nonempty { IsNonempty w }
    requires within { IsSubset w table.now.of }
    ensures among { IfFirst result (IsDirectionWith (T.among w)) }
    ensures first { (parts : List PartValue) (planes : List Vector) → WasMadeFrom parts table.now
        → T.knows trial.now parts table.now → ArePlanes parts w planes
        → IsFirstUnless (HasManyVertices limit planes) (T.serves parts w) (T.finds parts w) (vertices planes) result }
{
    let mut core = trial.core(table, w);
    if core.holds(table, w) {
        return Search::Nothing;
    }
    let mut pairs = PlanePairs::of(table, w);
    for _k in 0..limit {
        pass_rows(&mut pairs, table, w, &mut core);
        match served_next(&mut pairs, table, w, trial) {
            Search::First(served) => return Search::First(served),
            Search::Nothing => return Search::Nothing,
            Search::Undecided => {}
        }
    }
    Search::Undecided
}

/// The first of the vertices of the planes of `w`, in pair order, that serves, and what is found there, with a limit on
/// the pairs of planes whose crossings are tried after the first few, where a core passes over rows of pairs.
///
/// `w` is not empty and lies in the table's set. The first vertices of each set are looked at before its planes are,
/// and there is no core before some more. It ends undecided only after so many pairs. It takes no memory.
pub fn first_within<T: Trial>(
    table: &PlaneTable,
    w: PartSet,
    trial: &T,
    limit: u32,
) -> Search<T::Found>
    requires nonempty { IsNonempty w }
    requires within { IsSubset w table.now.of }
    ensures among { IfFirst result (IsDirectionWith (T.among w)) }
    ensures first { (parts : List PartValue) (planes : List Vector) → WasMadeFrom parts table.now
        → T.knows trial.now parts table.now → ArePlanes parts w planes
        → IsFirstUnless (HasManyVertices limit planes) (T.serves parts w) (T.finds parts w) (vertices planes) result }
{
    // the first two coordinate planes cross along the last axis, and most sets come apart there
    let axis = V3 { x: 0, y: 0, z: 1 };
    if let Some(served) = served_at(table, w, axis, trial) {
        return Search::First(served);
    }
    match first_of_few(table, w, trial) {
        Search::First(served) => Search::First(served),
        Search::Nothing => Search::Nothing,
        Search::Undecided => first_by_core(trial, table, w, limit),
    }
}

/// The first of the vertices of the planes of `w`, in pair order, that serves, and what is found there. None exactly
/// where none of them serves.
///
/// `w` is not empty and lies in the table's set. The direction is not zero, and its components are at most
/// [`DIRECTION`] in absolute value. It takes no memory.
pub fn first_vertex<T: Trial>(table: &PlaneTable, w: PartSet, trial: &T) -> Option<Served<T::Found>>
    requires nonempty { IsNonempty w }
    requires within { IsSubset w table.now.of }
    ensures among { IfSome result (IsDirectionWith (T.among w)) }
    ensures first { (parts : List PartValue) (planes : List Vector) → WasMadeFrom parts table.now
        → T.knows trial.now parts table.now → ArePlanes parts w planes
        → IsFirstIfAny (T.serves parts w) (T.finds parts w) (vertices planes) result }
{
    match first_within(table, w, trial, ALL_PAIRS) {
        Search::First(served) => Some(served),
        Search::Nothing => None,
        // no set has so many pairs
        Search::Undecided => None,
    }
}
