// Pairs of pieces that are listed, with their facets once these were asked for, and those of them that meet across a
// border between marked places and others.
ghost use Rattle.staat_vec.specs.declared.vector.TheConstants.{DIRECTION};
ghost use Rattle.staat_vec.specs.Vectors.{IsWithin};
ghost use Rattle.staat_motion.specs.Motions.{IsMotionOf};

use crate::planes::{Facets, facets_of, is_ahead, new_planes, normals_of};
use crate::reach::Way;
use crate::scene::View;
use crate::spots::Pair;
use crate::spreading::{Lead, is_marked, turned};
use staat_cone::FacetSource;
use staat_holds::has_pieces;
use staat_model::{Arc, Part};
use staat_motion::Along;
use staat_vec::{DIRECTION, Normal, OutOfMemory, V3, neg};
use std::alloc::Global;

/// A pair of pieces, and their facets, if they were asked for.
#[derive(Drop)]
pub struct Candidate {
    pub pair: Pair,
    pub facets: Option<Facets>,
}

/// A pair by its place in the list, how it leads from the piece that meets the other, and how many planes its facets
/// add.
#[derive(Clone, Copy)]
pub struct Met {
    pub k: usize,
    pub lead: Lead,
    pub planes: usize,
}

/// How many pairs that meet are looked at for the one that adds the fewest planes.
const MOST_MET: usize = 3;

// whether boxes and spans leave it open that the first piece meets the second
fn may_meet(parts: &[Part], along: &Along, pair: Arc) -> bool
    requires { IsMotionOf parts.now along.now }
{
    if !has_pieces(parts, pair) {
        return false;
    }
    !along.apart(pair)
}

// the arc from the one piece of a pair to the other, or back
fn arc_of(pair: &Pair, is_turned: bool) -> Arc {
    let arc = pair.arc;
    if is_turned {
        Arc {
            a: arc.b,
            i: arc.j,
            b: arc.a,
            j: arc.i,
        }
    } else {
        arc
    }
}

// the same for the places of their parts
fn lead_of(pair: &Pair, is_turned: bool) -> Lead {
    if is_turned {
        turned(pair.lead)
    } else {
        pair.lead
    }
}

// whether d leads ahead of all facets of the pair, where they are known
fn leads_along(candidate: &Candidate, d: V3) -> bool
    requires { IsWithin DIRECTION d }
{
    match &candidate.facets {
        None => false,
        Some(facets) => is_ahead(facets, d),
    }
}

// whether of the pair the one piece meets the other
fn meets<F: FacetSource>(
    candidate: &mut Candidate,
    view: &View<F>,
    is_turned: bool,
) -> Result<bool, OutOfMemory>
    requires { IsMotionOf view.now.parts.now view.now.along.now }
{
    if !may_meet(view.parts, view.along, arc_of(&candidate.pair, is_turned)) {
        return Ok(false);
    }
    if candidate.facets.is_none() {
        candidate.facets = facets_of(view.alloc, view.source, view.parts, candidate.pair.arc)?;
    }
    let d = view.along.direction();
    let towards = if is_turned { neg(d) } else { d };
    Ok(leads_along(candidate, towards))
}

// whether the arc that a pair may have on the way from a marked place to one that is not is turned, if there is one
fn turned_on(marks: &[bool], way: Way, pair: &Pair) -> Option<bool> {
    let is_first = is_marked(marks, pair.lead.from);
    let is_second = is_marked(marks, pair.lead.to);
    if is_first == is_second {
        return None;
    }
    match way {
        Way::Ahead => Some(is_second),
        Way::Back => Some(is_first),
    }
}

// the one of two pairs that adds fewer planes, and the first where they add as many
fn fewer(best: Option<Met>, next: Met) -> Option<Met> {
    match best {
        Some(met) if met.planes <= next.planes => best,
        _ => Some(next),
    }
}

// how the pair k meets across, on the way from a marked place to one that is not, if it does
fn met_by<F: FacetSource>(
    k: usize,
    candidate: &mut Candidate,
    view: &View<F>,
    planes: &[Normal],
    marks: &[bool],
    way: Way,
) -> Result<Option<Met>, OutOfMemory>
    requires { IsMotionOf view.now.parts.now view.now.along.now }
{
    let Some(is_turned) = turned_on(marks, way, &candidate.pair) else {
        return Ok(None);
    };
    if !meets(candidate, view, is_turned)? {
        return Ok(None);
    }
    Ok(Some(Met {
        k,
        lead: lead_of(&candidate.pair, is_turned),
        planes: new_planes(planes, normals_of(&candidate.facets)),
    }))
}

/// Of the first pairs of which one piece meets the other across, on the way from a marked place to one that is not,
/// that which adds the fewest planes.
pub fn first_met<F: FacetSource>(
    list: &mut Vec<Candidate>,
    view: &View<F>,
    planes: &[Normal],
    marks: &[bool],
    way: Way,
) -> Result<Option<Met>, OutOfMemory>
    requires { IsMotionOf view.now.parts.now view.now.along.now }
{
    let mut best = None;
    let mut count = 0usize;
    for (k, candidate) in list.iter_mut().enumerate() {
        if let Some(met) = met_by(k, candidate, view, planes, marks, way)? {
            best = fewer(best, met);
            count = if met.planes == 0 {
                MOST_MET
            } else {
                count.saturating_add(1)
            };
        }
        if count >= MOST_MET {
            return Ok(best);
        }
    }
    Ok(best)
}

/// Lists the pairs, with no facets yet.
pub fn add_candidates(list: &mut Vec<Candidate>, pairs: &[Pair]) -> Result<(), OutOfMemory> {
    for pair in pairs {
        list.push(Candidate {
            pair: *pair,
            facets: None,
        })?;
    }
    Ok(())
}
