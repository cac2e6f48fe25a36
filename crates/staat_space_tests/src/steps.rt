// The step of two cubes, and how often plans and orders ask for the facets of two pieces.
ghost use Rattle.std.specs.Prelude.{◌≡◌, ◌≤◌, true};
ghost use Rattle.staat_limits.specs.declared.limits.TheConstants.{LEAST_PLANES, MOST_CELL_PLANES, MOST_PLANES};
ghost use Rattle.staat_pairs.specs.Tables.{WasMadeFrom};
ghost use Rattle.staat_model.specs.Outcomes.{finding_of};
ghost use Rattle.staat_certify.specs.Certifying.{CanBeCertified};

use crate::fixtures::{
    ABOVE, BEFORE, BEHIND, BELOW, CUBE, CUBES, Corners, LEFT as WALL, LIDDED, RIGHT, Shape, same,
    sound, table,
};
use staat_certify::certify;
use staat_cone::{FacetSource, Plain};
use staat_limits::{LEAST_PLANES, MOST_CELL_PLANES, MOST_PLANES};
use staat_linear::linear;
use staat_model::{Assembly, Kind, Outcome, Piece, Sound};
use staat_plan::{Options, Tabulated, part_step, plan, plan_with_table};
use staat_planes::PlaneTable;
use staat_samples::at;
use staat_vec::{OutOfMemory, V3};
use std::alloc::Global;
use std::cell::Cell;
use std::process::Abort;

const LEFT: Corners = [-2, 0, 0, 0, 2, 2];

const PLAIN: Options = Options {
    planes: MOST_PLANES,
    robust: false,
};

const ROBUST: Options = Options {
    planes: MOST_CELL_PLANES,
    robust: true,
};

fn has_step(rt: &impl Abort, table: &PlaneTable) {
    let all = table.set();
    assert!(rt; all.count() >= 2);
    let step = part_step(table, all).expect(rt, "a step");
    same(rt, &(step.moved.bits(), step.d), &(1, at(0, 0, 1)));
}

#[test]
fn the_step_of_two_cubes(rt: HostRuntime) {
    has_step(&rt, &table(&rt, rt.alloc(), &CUBES));
}

// answers as `Plain`, and counts how often it is asked
#[derive(Drop)]
struct Counting {
    asked: Cell<u32>,
}

impl FacetSource for Counting {
    fn facets(&self, alloc: Global, p: &Piece, q: &Piece) -> Result<Vec<V3>, OutOfMemory> {
        self.asked.set(self.asked.get().saturating_add(1));
        Plain.facets(alloc, p, q)
    }
}

// how many pairs of pieces of different parts there are
fn pairs_of(assembly: &Assembly) -> u32 {
    let mut pairs = 0u32;
    let mut before = 0u32;
    for a in 0..assembly.parts() {
        let pieces = assembly.pieces(a);
        pairs = pairs.saturating_add(pieces.saturating_mul(before));
        before = before.saturating_add(pieces);
    }
    pairs
}

// whether the marks of the plan, if it is one, are those that are wanted
fn has_marks(outcome: &Outcome, wanted: Option<&[Kind]>) -> bool {
    match outcome {
        Outcome::Plan { marks, .. } => wanted == Some(marks.as_slice()),
        Outcome::Stuck(_) => wanted.is_none(),
    }
}

// Certifies what comes of a plan: no facets are asked for.
fn certifies(
    rt: &impl Abort,
    alloc: Global,
    source: &Counting,
    parts: &Sound,
    outcome: &Outcome,
    table: &PlaneTable,
)
    requires outcome { CanBeCertified parts.now (finding_of outcome.now) }
    requires table { WasMadeFrom parts.now table.now }
{
    let planned = source.asked.get();
    let kept = Tabulated::of(source, parts, table);
    let _certificate = certify(alloc, &kept, parts, outcome, 2).expect(rt, "memory");
    same(rt, &source.asked.get(), &planned);
}

// Plans the parts and certifies what comes: each two pieces are asked for once, and none for the certificate.
fn asks_once_for_both(
    rt: &impl Abort,
    alloc: Global,
    source: &Counting,
    parts: &Sound,
    options: Options,
    wanted: Option<&[Kind]>,
)
    requires least { LEAST_PLANES ≤ options.planes }
    requires most { options.planes ≤ MOST_PLANES }
    requires cells { options.robust ≡ true → options.planes ≤ MOST_CELL_PLANES }
{
    let found = plan_with_table(alloc, source, parts, options);
    let (outcome, table) = found.expect(rt, "an outcome");
    certifies(rt, alloc, source, parts, &outcome, &table);
    assert!(rt; has_marks(&outcome, wanted));
}

// how often a plan alone asks
fn asked_by_a_plan(
    rt: &impl Abort,
    alloc: Global,
    source: &Counting,
    parts: &Sound,
    options: Options,
) -> u32
    requires least { LEAST_PLANES ≤ options.planes }
    requires most { options.planes ≤ MOST_PLANES }
    requires cells { options.robust ≡ true → options.planes ≤ MOST_CELL_PLANES }
{
    let before = source.asked.get();
    let _same = plan(alloc, source, parts, options).expect(rt, "an outcome");
    source.asked.get().saturating_sub(before)
}

// how often an order of parts asks
fn asked_by_an_order(rt: &impl Abort, alloc: Global, source: &Counting, parts: &Sound) -> u32 {
    let before = source.asked.get();
    let _order = linear(alloc, source, parts, MOST_PLANES).expect(rt, "an order");
    source.asked.get().saturating_sub(before)
}

// A plan with its certificate asks once for each two pieces, and so does a plan alone, and an order.
fn asks_once_for(
    rt: &impl Abort,
    alloc: Global,
    parts: &Sound,
    options: Options,
    wanted: Option<&[Kind]>,
) {
    assert!(rt; options.planes >= LEAST_PLANES && options.planes <= MOST_PLANES);
    assert!(rt; !options.robust || options.planes <= MOST_CELL_PLANES);
    let source = Counting {
        asked: Cell::new(0),
    };
    let pairs = pairs_of(parts.assembly());
    asks_once_for_both(rt, alloc, &source, parts, options, wanted);
    same(rt, &source.asked.get(), &pairs);
    same(
        rt,
        &asked_by_a_plan(rt, alloc, &source, parts, options),
        &pairs,
    );
    same(rt, &asked_by_an_order(rt, alloc, &source, parts), &pairs);
}

fn asks_once(
    rt: &impl Abort,
    alloc: Global,
    shapes: &[Shape],
    options: Options,
    wanted: Option<&[Kind]>,
) {
    asks_once_for(rt, alloc, &sound(rt, alloc, shapes), options, wanted);
}

// the cube, the right wall, and a cube on the left
const ROW: [Shape<'static>; 3] = [
    Shape::Boxes(&[CUBE]),
    Shape::Boxes(&[RIGHT]),
    Shape::Boxes(&[LEFT]),
];

// the cube in a closed box, and a cube beside the box
const BOXED: [Shape<'static>; 3] = [
    Shape::Boxes(&[CUBE]),
    Shape::Boxes(&[RIGHT, WALL, BEHIND, BEFORE, ABOVE, BELOW]),
    Shape::Boxes(&[[4, 0, 0, 6, 2, 2]]),
];

const OPEN: [Kind; 2] = [Kind::Open, Kind::Open];

// in the robust plan the cube on the left leaves first, and then the other cube and the wall stand for themselves; the
// cube in the box is stuck with it, when the cube beside them has left
#[test]
fn facets_are_asked_for_once(rt: HostRuntime) {
    let alloc = rt.alloc();
    asks_once(&rt, alloc, &LIDDED, PLAIN, Some(&[]));
    asks_once(&rt, alloc, &ROW, ROBUST, Some(&OPEN));
    asks_once(&rt, alloc, &BOXED, PLAIN, None);
    asks_once(&rt, alloc, &BOXED, ROBUST, None);
}
