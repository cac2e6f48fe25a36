// A guess at a core that holds a set of parts together. The circles of the core's planes are gone round once; where
// its arcs do not lead everywhere, arcs of the whole graph are added, first those between pieces that look large from
// each other. So a direction is met along which the set comes apart, or a core that should hold it, which is judged
// later.
ghost use Rattle.std.specs.Prelude.{IfOk, IfSome};
ghost use Rattle.staat_vec.specs.declared.vector.TheConstants.{DIRECTION};
ghost use Rattle.staat_vec.specs.Vectors.{IsWithin};
ghost use Rattle.staat_motion.specs.Motions.{AreBodies, IsMotionOf};

use crate::circles::{Circle, add_arc, clear, look_at, loose_end, no_circle};
use crate::holding::copied;
use crate::listing::{Candidate, Met, add_candidates, first_met};
use crate::planes::{AXES, add_planes, crossing, facets_of, normals_of};
use crate::reach::Way;
use crate::scene::{Scene, View};
use crate::spots::{MOST_PAIRS, Pair, pairs_of, spots_of};
use crate::spreading::{are_all, mark_first, spread_all};
use crate::unlisted::met_across;
use staat_cone::FacetSource;
use staat_holds::Hold;
use staat_model::{Arc, Arcs, Part};
use staat_motion::{Along, Bodies};
use staat_vec::{DIRECTION, Normal, ORIGIN, OutOfMemory, V3, primitive};
use std::alloc::Global;
use std::mem;

/// How many vertices are counted, as a rule, until a set counts as large: on each circle those with the circles before,
/// or those that were looked at, if these are more.
pub const BOUND: usize = 3000;

/// What is guessed: a direction along which the set should come apart, or parts that should be stuck, or nothing, as
/// the set is too large for the bound.
#[derive(Drop)]
pub enum Guess {
    None,
    Free(V3),
    Stuck(Hold),
}

// What is known of a set of parts: pairs of their pieces, those first that look large from each other, the places of
// those in the core, these themselves, and the planes of the core. The circle is that of one of the planes.
#[derive(Drop)]
struct CoreSearch {
    list: Vec<Candidate>,
    core: Vec<usize>,
    pairs: Vec<Arc>,
    planes: Vec<Normal>,
    circle: Circle,
}

// lists a pair that was not listed, with its facets, for which there was no room before
fn listed_last<F: FacetSource>(
    list: &mut Vec<Candidate>,
    view: &View<F>,
    pair: Pair,
) -> Result<Option<Met>, OutOfMemory> {
    let met = Met {
        k: list.len(),
        lead: pair.lead,
        planes: 0,
    };
    list.push(Candidate {
        pair,
        facets: facets_of(view.alloc, view.source, view.parts, pair.arc)?,
    })?;
    Ok(Some(met))
}

// the first pair across of which the one piece meets the other, of those that are listed, or else of all
fn next_met<F: FacetSource>(
    search: &mut CoreSearch,
    view: &View<F>,
    w: &[u32],
    way: Way,
) -> Result<Option<Met>, OutOfMemory>
    requires { IsMotionOf view.now.parts.now view.now.along.now }
{
    let marks = search.circle.marks.as_slice();
    let planes = search.planes.as_slice();
    let met = first_met(&mut search.list, view, planes, marks, way)?;
    if met.is_some() || search.list.len() < MOST_PAIRS {
        return Ok(met);
    }
    match met_across(view, w, marks, way)? {
        None => Ok(None),
        Some(pair) => listed_last(&mut search.list, view, pair),
    }
}

// adds the pair to the core, with its planes and its lead
fn choose(search: &mut CoreSearch, met: Met) -> Result<(), OutOfMemory> {
    search.core.push(met.k)?;
    search.circle.leads.push(met.lead)?;
    if met.k < search.list.len() {
        let candidate = &search.list[met.k];
        search.pairs.push(candidate.pair.arc)?;
        add_planes(&mut search.planes, normals_of(&candidate.facets))?;
    }
    Ok(())
}

// adds pairs to the core until all places are reached on the way along the direction, and says whether they are
fn grow_on<F: FacetSource>(
    search: &mut CoreSearch,
    view: &View<F>,
    w: &[u32],
    way: Way,
) -> Result<bool, OutOfMemory>
    requires { IsMotionOf view.now.parts.now view.now.along.now }
{
    mark_first(&mut search.circle.marks);
    for _ in 0..w.len() {
        let leads = search.circle.leads.as_slice();
        spread_all(leads, way, &mut search.circle.marks);
        if are_all(search.circle.marks.as_slice()) {
            return Ok(true);
        }
        let Some(met) = next_met(search, view, w, way)? else {
            return Ok(false);
        };
        choose(search, met)?;
    }
    Ok(false)
}

// adds pairs to the core until it leads everywhere along the direction, and says whether it does
fn grow_along<F: FacetSource>(
    search: &mut CoreSearch,
    view: &View<F>,
    w: &[u32],
) -> Result<bool, OutOfMemory>
    requires { IsMotionOf view.now.parts.now view.now.along.now }
{
    if !grow_on(search, view, w, Way::Ahead)? {
        return Ok(false);
    }
    grow_on(search, view, w, Way::Back)
}

// adds the arcs on the circle of the plane g of the pairs at the places
fn add_arcs(
    circle: &mut Circle,
    list: &[Candidate],
    places: &[usize],
    g: Normal,
) -> Result<(), OutOfMemory> {
    for k in places {
        if *k < list.len() {
            let candidate = &list[*k];
            add_arc(
                circle,
                normals_of(&candidate.facets),
                g,
                candidate.pair.lead,
            )?;
        }
    }
    Ok(())
}

// the primitive vector along this one, unless it is zero
fn primitive_of(v: V3) -> Option<V3>
    requires { IsWithin DIRECTION v }
    ensures { IfSome result (IsWithin DIRECTION) }
{
    if v == ORIGIN {
        return None;
    }
    Some(primitive(v))
}

// a direction of the plane j at which the core, whose pairs from a number on are new, does not lead everywhere
fn loose_on(search: &mut CoreSearch, j: usize, first: usize) -> Result<Option<V3>, OutOfMemory>
    ensures { IfOk result (λ answer. IfSome answer (IsWithin DIRECTION)) }
{
    if j >= search.planes.len() {
        return Ok(None);
    }
    let places = &search.core[first.min(search.core.len())..];
    add_arcs(
        &mut search.circle,
        search.list.as_slice(),
        places,
        search.planes[j],
    )?;
    let i = if j == 0 { 1 } else { 0 };
    let other = crossing(search.planes.as_slice(), i, j);
    let end = loose_end(&mut search.circle, other)?;
    Ok(primitive_of(end))
}

// lets the core grow until it leads everywhere at d, a direction of the circle, and says whether it does
fn grow_at<F: FacetSource>(
    search: &mut CoreSearch,
    scene: &Scene<F>,
    w: &[u32],
    d: V3,
) -> Result<bool, OutOfMemory>
    requires bodies { AreBodies scene.now.parts.now scene.now.bodies.now }
    requires size { IsWithin DIRECTION d }
{
    look_at(&mut search.circle, d)?;
    let along = Along::of(scene.alloc, scene.parts, scene.bodies, d)?;
    let view = View {
        alloc: scene.alloc,
        source: scene.source,
        parts: scene.parts,
        along: &along,
    };
    grow_along(search, &view, w)
}

// lets the core grow until it leads everywhere on the plane j; a direction of it if the set comes apart there
fn free_on<F: FacetSource>(
    search: &mut CoreSearch,
    scene: &Scene<F>,
    w: &[u32],
    j: usize,
) -> Result<Option<V3>, OutOfMemory>
    requires { AreBodies scene.now.parts.now scene.now.bodies.now }
{
    clear(&mut search.circle);
    let mut first = 0usize;
    for _ in 0..usize::MAX {
        let Some(d) = loose_on(search, j, first)? else {
            return Ok(None);
        };
        first = search.core.len();
        if !grow_at(search, scene, w, d)? {
            return Ok(Some(d));
        }
        if search.core.len() == first {
            return Ok(None);
        }
    }
    Ok(None)
}

// begins with the planes across the axes, all pairs of pieces and no core
fn begin(
    search: &mut CoreSearch,
    alloc: Global,
    parts: &[Part],
    w: &[u32],
) -> Result<(), OutOfMemory> {
    search.circle.marks.resize(w.len(), false)?;
    add_planes(&mut search.planes, &AXES)?;
    let spots = spots_of(alloc, parts, w)?;
    let pairs = pairs_of(alloc, spots.as_slice())?;
    add_candidates(&mut search.list, pairs.as_slice())
}

// that the parts of w should be stuck, by the pairs of the core, which are taken out
fn stuck_by(alloc: Global, search: &mut CoreSearch, w: &[u32]) -> Result<Guess, OutOfMemory> {
    let nodes = copied(alloc, w)?;
    let core = mem::replace(&mut search.pairs, Vec::new(alloc));
    Ok(Guess::Stuck(Hold {
        nodes,
        pairs: Arcs::from_vec(core),
    }))
}

// lets the core grow plane by plane, by at most about so many vertices as the bound
fn grow<F: FacetSource>(
    search: &mut CoreSearch,
    scene: &Scene<F>,
    w: &[u32],
    bound: usize,
) -> Result<Guess, OutOfMemory>
    requires { AreBodies scene.now.parts.now scene.now.bodies.now }
{
    begin(search, scene.alloc, scene.parts, w)?;
    let mut used = 0usize;
    for j in 0..usize::MAX {
        if j >= search.planes.len() {
            return stuck_by(scene.alloc, search, w);
        }
        if used > bound {
            return Ok(Guess::None);
        }
        let before = search.circle.looks;
        if let Some(d) = free_on(search, scene, w, j)? {
            return Ok(Guess::Free(d));
        }
        let looks = search.circle.looks.saturating_sub(before);
        used = used.saturating_add(looks.max(j));
    }
    Ok(Guess::None)
}

/// Lets a core of the set of parts `w` grow, by at most about so many vertices as the bound.
pub fn grown<F: FacetSource>(
    scene: &Scene<F>,
    w: &[u32],
    bound: usize,
) -> Result<Guess, OutOfMemory>
    requires { AreBodies scene.now.parts.now scene.now.bodies.now }
{
    let mut search = CoreSearch {
        list: Vec::new(scene.alloc),
        core: Vec::new(scene.alloc),
        pairs: Vec::new(scene.alloc),
        planes: Vec::new(scene.alloc),
        circle: no_circle(scene.alloc),
    };
    grow(&mut search, scene, w, bound)
}
