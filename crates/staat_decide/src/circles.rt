// The directions of a plane, a circle of them, and the arcs of it along which the first piece of a pair meets the
// second: those ahead of all facets, from where one of two facets begins to where the other ends.
ghost use Rattle.std.specs.Prelude.{All, IfOk, IfSome};
ghost use Rattle.staat_vec.specs.declared.vector.TheConstants.{DIRECTION, NORMAL};
ghost use Rattle.staat_vec.specs.Vectors.{IsWithin};

use crate::reach::Way;
use crate::spreading::{Lead, are_all, mark_first, spread_all, turned};
use staat_vec::{Normal, ORIGIN, OutOfMemory, Sign, V3, cross_normal, first_nonzero, sign_dot};
use std::alloc::Global;

// A facet, and the direction of the circle at which what is ahead of it ends.
#[derive(Clone, Copy)]
struct SpanEnd {
    facet: V3,
    at: V3,
    ghost normal: { IsWithin NORMAL facet },
    ghost direction: { IsWithin DIRECTION at },
}

// The arc of a pair on a circle: what is ahead of two of its facets is ahead of all. And how the pair leads there, and
// whether the pairs were looked at where the arc ends.
#[derive(Clone, Copy)]
struct CircleSpan {
    first: SpanEnd,
    last: SpanEnd,
    lead: Lead,
    is_seen: bool,
}

// where what is ahead of the facet ends on the circle of the plane g, unless they are parallel
fn end_of(g: Normal, facet: V3) -> Option<SpanEnd>
    requires { IsWithin NORMAL facet }
{
    let at = cross_normal(g.vector(), facet);
    if at == ORIGIN {
        return None;
    }
    Some(SpanEnd { facet, at })
}

// whether two directions of a circle that are parallel are the same, and not opposite
fn is_same_way(a: V3, b: V3) -> bool {
    (first_nonzero(a) > 0) == (first_nonzero(b) > 0)
}

// what of a span is ahead of one more facet
fn narrowed(span: CircleSpan, end: SpanEnd) -> Option<CircleSpan> {
    let from_first = sign_dot(end.facet, span.first.at);
    let from_last = sign_dot(end.facet, span.last.at);
    match (from_first, from_last) {
        (Sign::Pos, Sign::Pos) => Some(CircleSpan { last: end, ..span }),
        (Sign::Neg, Sign::Neg) => Some(CircleSpan { first: end, ..span }),
        (Sign::Pos, _) | (Sign::Zero, Sign::Neg) => Some(span),
        (Sign::Zero, Sign::Zero) if is_same_way(end.at, span.first.at) => Some(span),
        _ => None,
    }
}

// what is ahead of one facet
fn span_of(end: SpanEnd, lead: Lead) -> CircleSpan {
    CircleSpan {
        first: end,
        last: end,
        lead,
        is_seen: false,
    }
}

// the arc that a pair has on the circle of the plane g, if it has one
fn span_on(facets: &[V3], g: Normal, lead: Lead) -> Option<CircleSpan>
    requires { All (IsWithin NORMAL) facets.now }
{
    let mut found = None;
    for facet in facets {
        let Some(end) = end_of(g, *facet) else {
            return None;
        };
        let next = match found {
            None => Some(span_of(end, lead)),
            Some(span) => narrowed(span, end),
        };
        if next.is_none() {
            return None;
        }
        found = next;
    }
    found
}

// how the pair leads at a direction of the circle, if it does: back where it does ahead at the opposite direction
fn lead_at(span: &mut CircleSpan, d: V3) -> Option<Lead>
    requires { IsWithin DIRECTION d }
{
    let side = sign_dot(span.first.facet, d);
    if side == Sign::Zero {
        span.is_seen = true;
        return None;
    }
    if side != sign_dot(span.last.facet, d) {
        return None;
    }
    match side {
        Sign::Pos => Some(span.lead),
        _ => Some(turned(span.lead)),
    }
}

/// The arcs of pairs on a circle, how these lead at one of its directions, and marks for the places of the parts; and
/// how often it was looked how they lead at the end of an arc.
#[derive(Drop)]
pub struct Circle {
    spans: Vec<CircleSpan>,
    pub looks: usize,
    pub leads: Vec<Lead>,
    pub marks: Vec<bool>,
}

/// No arcs, and no marks.
pub fn no_circle(alloc: Global) -> Circle {
    Circle {
        spans: Vec::new(alloc),
        looks: 0,
        leads: Vec::new(alloc),
        marks: Vec::new(alloc),
    }
}

/// Begins with no arcs.
pub fn clear(circle: &mut Circle) {
    circle.spans.clear();
}

/// Adds the arc of a pair, by its facets and how it leads ahead of these, if it has one.
pub fn add_arc(circle: &mut Circle, facets: &[V3], g: Normal, lead: Lead) -> Result<(), OutOfMemory>
    requires { All (IsWithin NORMAL) facets.now }
{
    if let Some(span) = span_on(facets, g, lead) {
        circle.spans.push(span)?;
    }
    Ok(())
}

/// Finds how the pairs lead at a direction of the circle.
pub fn look_at(circle: &mut Circle, d: V3) -> Result<(), OutOfMemory>
    requires { IsWithin DIRECTION d }
{
    circle.leads.clear();
    for span in circle.spans.iter_mut() {
        if let Some(lead) = lead_at(span, d) {
            circle.leads.push(lead)?;
        }
    }
    Ok(())
}

// whether each place is reached from the first on the way along the leads; marks those that are
fn reaches(circle: &mut Circle, way: Way) -> bool {
    mark_first(&mut circle.marks);
    spread_all(circle.leads.as_slice(), way, &mut circle.marks);
    are_all(circle.marks.as_slice())
}

// whether each place is reached from each other one at a direction of the circle
fn leads_everywhere(circle: &mut Circle, d: V3) -> Result<bool, OutOfMemory>
    requires { IsWithin DIRECTION d }
{
    look_at(circle, d)?;
    circle.looks = circle.looks.saturating_add(1);
    Ok(reaches(circle, Way::Ahead) && reaches(circle, Way::Back))
}

// the end of the arc n, unless it was looked at there or there is no such arc
fn unseen_end(circle: &Circle, n: usize) -> Option<V3>
    ensures { IfSome result (IsWithin DIRECTION) }
{
    if n >= circle.spans.len() || circle.spans[n].is_seen {
        return None;
    }
    Some(circle.spans[n].first.at)
}

/// The first end of an arc at which the pairs do not lead everywhere, or `other` where there are no arcs; zero where
/// there is no such end. Round a circle what leads anywhere is least at some end of an arc.
pub fn loose_end(circle: &mut Circle, other: V3) -> Result<V3, OutOfMemory>
    requires { IsWithin DIRECTION other }
    ensures { IfOk result (IsWithin DIRECTION) }
{
    if circle.spans.is_empty() {
        return Ok(other);
    }
    for n in 0..circle.spans.len() {
        if let Some(at) = unseen_end(circle, n) {
            if !leads_everywhere(circle, at)? {
                return Ok(at);
            }
        }
    }
    Ok(ORIGIN)
}
