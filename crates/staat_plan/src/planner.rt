// The outcome of an assembly.
ghost use Rattle.std.specs.{Option.option_to_list, Prelude.{◌≡◌, ◌≤◌, ◌++◌, [], IfOk, MatchResult, length, true}};
ghost use Rattle.std.specs.FinSet as set;
ghost use Rattle.staat_model.specs.{Outcomes.{IsOutcome, finding_of, planned}, Plans.{leaf, plan_of, split}};
ghost use Rattle.staat_model.specs.Sets.{IsNonempty, IsSubset, below};
ghost use Rattle.staat_pairs.specs.Tables.{IsTableOf};
ghost use Rattle.staat_planes.specs.Refusals.{IsPlanesRefusal};
ghost use Rattle.staat_certify.specs.Certifying.{CanBeCertified, HasFewPlanes};
ghost use Rattle.staat_plan.specs.Marks.{AreMarksRight};
ghost use Rattle.staat_plan.specs.Planning.{IsOutcomeOf, IsPlanner, IsSized, IsStepOf, IsVertexStep};
ghost use Rattle.staat_plan.specs.{Planning.{Settles, joined_finding}, RingSets.IsReadyFor};

use crate::cell_steps::{cell_step, first_open_step};
use crate::lone_step::lone_step;
use crate::marked::Marked;
use crate::step::{Sides, step_of};
use crate::tabulated::Tabulated;
use crate::walker::Walker;
use staat_cone::FacetSource;
use staat_core::{Search, first_within};
use staat_limits::{LEAST_PLANES, MOST_CELL_PLANES, MOST_PLANES};
use staat_model::{Kind, Marks, Outcome, PartSet, Sound, Step, Tree};
use staat_planes::{PlaneTable, PlanesRefusal, tabulate};
use staat_vec::{OutOfMemory, V3};
use std::alloc::Global;

/// Why there is no outcome.
pub type PlanRefusal = PlanesRefusal;

/// How an assembly is planned: with at most this many planes, and whether its plan is robust, so that steps lead into
/// open cells where they can.
#[derive(Clone, Copy, PartialEq, Eq)]
pub struct Options {
    pub planes: u32,
    pub robust: bool,
}

/// How many pairs of planes are tried, at most, where a core passes over planes.
const LATE_PAIRS: u32 = 4096;

// The step of a set of parts of the table in a plan that is not robust. The first vertices decide nearly every set
// that comes apart, and a core nearly every one that does not; only where neither does are all vertices gone through,
// by a walk along rings, which are made if they are not there yet.
fn vertex_step(
    alloc: Global,
    table: &PlaneTable,
    w: PartSet,
    walker: &mut Option<Walker>,
) -> Result<Option<Step>, OutOfMemory>
    requires ready { IsReadyFor table.now walker.old }
    requires within { IsSubset w table.now.of }
    requires some { IsNonempty w }
    requires two { 2 ≤ set.len w }
    ensures ready { IsReadyFor table.now walker.new }
    ensures step { IfOk result (IsVertexStep table.now w) }
{
    match first_within(table, w, &Sides, LATE_PAIRS) {
        Search::First(served) => Ok(Some(Step {
            moved: served.found,
            d: served.d,
        })),
        Search::Nothing => Ok(None),
        Search::Undecided => match walker {
            Some(own) => Ok(own.step(table, w)),
            None => {
                let mut own = Walker::new(alloc, table)?;
                let step = own.step(table, w);
                *walker = Some(own);
                Ok(step)
            }
        },
    }
}

// the plan of a part by itself
fn leaf(alloc: Global, p: u32) -> Outcome
    ensures { finding_of result ≡ planned (leaf p) [] }
{
    Outcome::Plan {
        tree: Tree::Leaf(p),
        marks: Marks::from_vec(Vec::new(alloc)),
    }
}

// the mark of a step, if it has one
fn own_mark(alloc: Global, mark: Option<Kind>) -> Result<Vec<Kind>, OutOfMemory>
    ensures { IfOk result (λ marks. marks.items ≡ option_to_list mark) }
{
    match mark {
        None => Ok(Vec::new(alloc)),
        Some(kind) => Ok(vec![in alloc; kind]?),
    }
}

// the mark of a step, then those of the moved side's plan, then those of the rest's
fn joined(
    alloc: Global,
    mark: Option<Kind>,
    moved: &Marks,
    rest: &Marks,
) -> Result<Marks, OutOfMemory>
    ensures { IfOk result (λ marks. marks ≡ option_to_list mark ++ moved.now ++ rest.now) }
{
    let mut marks = own_mark(alloc, mark)?;
    marks.extend_from_slice(moved.as_slice())?;
    marks.extend_from_slice(rest.as_slice())?;
    Ok(Marks::from_vec(marks))
}

// the outcome of a set from those of its two sides
fn join_sides(
    alloc: Global,
    found: Marked,
    moved: Outcome,
    rest: Outcome,
) -> Result<Outcome, OutOfMemory>
    ensures { IfOk result (λ o. finding_of o ≡ joined_finding found (finding_of moved) (finding_of rest)) }
{
    match moved {
        Outcome::Stuck(a) => Ok(Outcome::Stuck(a)),
        Outcome::Plan { tree, marks } => match rest {
            Outcome::Stuck(b) => Ok(Outcome::Stuck(b)),
            Outcome::Plan {
                tree: rest,
                marks: rest_marks,
            } => {
                let marks = joined(alloc, found.mark, &marks, &rest_marks)?;
                let moved = Box::new(alloc, tree)?;
                let rest = Box::new(alloc, rest)?;
                let d = found.step.d;
                Ok(Outcome::Plan {
                    tree: Tree::Split { d, moved, rest },
                    marks,
                })
            }
        },
    }
}

// An assembly that is planned, the table of all its parts, and a source of the facets of two pieces.
#[derive(Drop)]
struct Planner<'a, F: FacetSource> {
    alloc: Global,
    source: &'a F,
    sound: &'a Sound,
    table: &'a PlaneTable,
    options: Options,
}

impl<'a, F: FacetSource> Planner<'a, F> {
    // the step of a set of parts by all cells of its planes, which are those of a table of its own: its facets are
    // those of the table
    fn own_step(&self, w: PartSet) -> Result<Option<Marked>, OutOfMemory>
        requires planner { IsPlanner self.now.sound.now self.now.table.now self.now.options }
        requires robust { self.now.options.robust ≡ true }
        requires some { IsNonempty w }
        requires within { IsSubset w self.now.table.now.of }
        ensures { IfOk result (IsStepOf true self.now.sound.now w) }
    {
        let source = Tabulated::of(self.source, self.sound, self.table);
        match tabulate(self.alloc, &source, self.sound, w, self.options.planes) {
            Ok(own) => cell_step(self.alloc, &own),
            Err(PlanesRefusal::OutOfMemory) => Err(OutOfMemory),
            Err(PlanesRefusal::TooManyPlanes(_)) => unreachable!(),
        }
    }

    // The step of a set of parts of the table in a robust plan. Most sets that come apart do so in their first open
    // cell; where no vertex serves a set, no cell does, by the law `tries_decide`; and where it comes apart along one
    // line alone, no other vertex is looked at. For all three the one table is enough. Only where none of them decides
    // are all cells made.
    fn robust_step(&self, w: PartSet) -> Result<Option<Marked>, OutOfMemory>
        requires planner { IsPlanner self.now.sound.now self.now.table.now self.now.options }
        requires robust { self.now.options.robust ≡ true }
        requires some { IsNonempty w }
        requires two { 2 ≤ set.len w }
        requires within { IsSubset w self.now.table.now.of }
        ensures { IfOk result (IsStepOf true self.now.sound.now w) }
    {
        if let Some(found) = first_open_step(self.alloc, self.table, w)? {
            return Ok(Some(found));
        }
        let Some(first) = step_of(self.table, w) else {
            return Ok(None);
        };
        if let Some(found) = lone_step(self.alloc, self.table, w, first)? {
            return Ok(Some(found));
        }
        if self.table.set().within(w) {
            return cell_step(self.alloc, self.table);
        }
        self.own_step(w)
    }

    // the step of a set of two parts or more of the table, if it has one
    fn next_step(
        &self,
        walker: &mut Option<Walker>,
        w: PartSet,
    ) -> Result<Option<Marked>, OutOfMemory>
        requires planner { IsPlanner self.now.sound.now self.now.table.now self.now.options }
        requires ready { IsReadyFor self.now.table.now walker.old }
        requires some { IsNonempty w }
        requires two { 2 ≤ set.len w }
        requires within { IsSubset w self.now.table.now.of }
        ensures ready { IsReadyFor self.now.table.now walker.new }
        ensures step { IfOk result (IsStepOf self.now.options.robust self.now.sound.now w) }
    {
        if self.options.robust {
            return self.robust_step(w);
        }
        match vertex_step(self.alloc, self.table, w, walker)? {
            None => Ok(None),
            Some(step) => Ok(Some(Marked { step, mark: None })),
        }
    }

    // the outcome of a set of parts of the table: the moved side is planned first, and then the rest
    fn outcome_of_set(
        &self,
        walker: &mut Option<Walker>,
        w: PartSet,
    ) -> Result<Outcome, OutOfMemory>
        requires planner { IsPlanner self.now.sound.now self.now.table.now self.now.options }
        requires ready { IsReadyFor self.now.table.now walker.old }
        requires some { IsNonempty w }
        requires within { IsSubset w self.now.table.now.of }
        ensures ready { IsReadyFor self.now.table.now walker.new }
        ensures outcome { IfOk result
            (λ o. IsOutcome self.now.options.robust self.now.sound.now w (finding_of o)) }
    {
        if w.count() == 1 {
            return Ok(leaf(self.alloc, w.least()));
        }
        let Some(found) = self.next_step(walker, w)? else {
            return Ok(Outcome::Stuck(w));
        };
        let step = found.step;
        let moved = self.outcome_of_set(walker, step.moved)?;
        if let Outcome::Stuck(a) = &moved {
            return Ok(Outcome::Stuck(*a));
        }
        let other = w.without(step.moved);
        let rest = self.outcome_of_set(walker, other)?;
        join_sides(self.alloc, found, moved, rest)
    }
}

/// The outcome of an assembly, as [`plan`] answers it, and the table of all parts that it is found by.
///
/// The facets of two pieces are asked of `source` once. By the table, [`Tabulated`] answers all that is asked later.
pub fn plan_with_table<F: FacetSource>(
    alloc: Global,
    source: &F,
    sound: &Sound,
    options: Options,
) -> Result<(Outcome, PlaneTable), PlanRefusal>
    requires least { LEAST_PLANES ≤ options.planes }
    requires most { options.planes ≤ MOST_PLANES }
    requires cells { options.robust ≡ true → options.planes ≤ MOST_CELL_PLANES }
    ensures outcome { MatchResult result
        (λ o. IsOutcomeOf options.robust sound.now (below (length sound.now)) options.planes o.0)
        (IsPlanesRefusal sound.now (below (length sound.now)) options.planes) }
    ensures right { IfOk result (λ o. Settles sound.now (below (length sound.now)) (finding_of o.0)) }
    ensures certified { IfOk result (λ o. CanBeCertified sound.now (finding_of o.0)) }
    ensures table { IfOk result (λ o. IsTableOf sound.now (below (length sound.now)) o.1) }
{
    let all = PartSet::first(sound.assembly().parts());
    let table = tabulate(alloc, source, sound, all, options.planes)?;
    let planner = Planner {
        alloc,
        source,
        sound,
        table: &table,
        options,
    };
    let mut walker = None;
    let outcome = planner.outcome_of_set(&mut walker, all)?;
    Ok((outcome, table))
}

/// The outcome of an assembly: a plan for all its parts, or a set of parts that no step takes apart.
///
/// For a set of parts the step is that of [`part_step`](crate::part_step). In a robust plan it is instead the step
/// along the representative of the first cell that serves, of the open cells, then the edges, then the points, and
/// its mark is the kind of the cell: open only for a direction off all planes of the set, edge or point only where no
/// such direction serves, and point only where each that serves is a positive multiple of a vertex. The moved side is
/// planned first, then the rest, and the first set that is stuck is the outcome. The marks of a plan stand in
/// preorder; a plan that is not robust has none.
///
/// One table is made for all parts, and in a robust plan one more for each smaller set that comes apart, but neither in
/// its first open cell nor along one line alone; the facets of two pieces are asked of `source` once. Where the first
/// vertices of a set do not decide in a plan that is not robust, its vertices are gone through by a walk along rings,
/// which are made once.
///
/// There are at most `planes` planes, from 3 to [`MOST_PLANES`], and to [`MOST_CELL_PLANES`] in a robust plan;
/// [`TooManyPlanes`](PlanesRefusal::TooManyPlanes) comes exactly where all parts together have more, with their
/// number.
pub fn plan<F: FacetSource>(
    alloc: Global,
    source: &F,
    sound: &Sound,
    options: Options,
) -> Result<Outcome, PlanRefusal>
    requires least { LEAST_PLANES ≤ options.planes }
    requires most { options.planes ≤ MOST_PLANES }
    requires cells { options.robust ≡ true → options.planes ≤ MOST_CELL_PLANES }
    ensures outcome { IfOk result (λ o.
        IsOutcome options.robust sound.now (below (length sound.now)) (finding_of o)) }
    ensures right { IfOk result (λ o. Settles sound.now (below (length sound.now)) (finding_of o)) }
    ensures marks { IfOk result (λ o. options.robust ≡ true → AreMarksRight sound.now (finding_of o)) }
    ensures certified { IfOk result (λ o. CanBeCertified sound.now (finding_of o)) }
    ensures sized { IfOk result (λ o. IsSized (finding_of o)) }
    ensures planes { MatchResult result (λ o. HasFewPlanes sound.now (below (length sound.now)) options.planes)
        (IsPlanesRefusal sound.now (below (length sound.now)) options.planes) }
{
    // the parts are those of an assembly
    let _parts = sound.assembly().parts();
    let (outcome, _table) = plan_with_table(alloc, source, sound, options)?;
    Ok(outcome)
}
