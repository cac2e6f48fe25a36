// Whether a core holds nodes together.
ghost use Rattle.std.specs.Prelude.{◌≡◌, ◌≢◌, ◌≤◌, ◌⊎◌, ◌↔◌, ℕ, List, All, IfOk, IfSome, IsTrue, MatchOption, OnOk};
ghost use Rattle.staat_vec.specs.Lists.{IsFirst};
ghost use Rattle.staat_vec.specs.Primitives.{primitive};
ghost use Rattle.staat_vec.specs.Vectors.{IsWithin, cross, origin};
ghost use Rattle.staat_model.specs.declared.set.PartSet.{PartSet as PartSetValue};
ghost use Rattle.staat_model.specs.Assemblies.{IsPart};
ghost use Rattle.staat_model.specs.Groups.{AreNodes};
ghost use Rattle.staat_model.specs.Planes.{crossings, vertices};
ghost use Rattle.staat_model.specs.Plans.{IsStuck};
ghost use Rattle.staat_model.specs.SetLists.{union_of};
ghost use Rattle.staat_model.proofs.PlaneLemmas.{NoneParallel};
ghost use Rattle.staat_holds.specs.Holds.{AreNodeSets, IsCorePair, IsFirstGap, JoinsNodes};
ghost use Rattle.staat_holds.specs.Links.{IsGap, IsJoined, IsLink, LinkLeads, SomeLeads};
ghost use Rattle.staat_holds.specs.VisitedNodes.{HasWay};

use crate::links::{Link, links_of};
use crate::planes::{planes_from, planes_of};
use crate::reach::all_reach;
use crate::ways::{Way, add_way};
use staat_cone::{FacetSource, blocks};
use staat_model::{Arc, Part};
use staat_vec::{DIRECTION, NORMAL, OutOfMemory, V3, cross_normal, neg, primitive};
use std::alloc::Global;

// adds the ways that a link leads at d
fn add_ways(ways: &mut Vec<Way>, count: u32, link: &Link, d: V3) -> Result<(), OutOfMemory>
    requires link { IsLink count link.now }
    requires direction { IsWithin DIRECTION d }
    ensures { OnOk result ((x y : ℕ) →
        HasWay ways.new.items x y ↔ (HasWay ways.old.items x y ⊎ LinkLeads d link.now x y)) }
{
    let facets = link.facets.as_slice();
    add_way(ways, blocks(facets, d), link.from, link.to)?;
    add_way(ways, blocks(facets, neg(d)), link.to, link.from)?;
    Ok(())
}

// the ways that the links lead at d
fn ways_at(alloc: Global, count: u32, links: &[Link], d: V3) -> Result<Vec<Way>, OutOfMemory>
    requires links { All (IsLink count) links.now }
    requires direction { IsWithin DIRECTION d }
    ensures { IfOk result (λ ways. (x y : ℕ) → HasWay ways.items x y ↔ SomeLeads links.now d x y) }
{
    let mut ways = Vec::new(alloc);
    for link in links {
        add_ways(&mut ways, count, link, d)?;
    }
    Ok(ways)
}

// whether each node reaches each other one at d, and so at the opposite of d
fn is_joined(alloc: Global, count: u32, links: &[Link], d: V3) -> Result<bool, OutOfMemory>
    requires some { 1 ≤ count }
    requires links { All (IsLink count) links.now }
    requires direction { IsWithin DIRECTION d }
    ensures { IfOk result (λ answer. IsTrue answer ↔ IsJoined links.now count d) }
{
    let ways = ways_at(alloc, count, links, d)?;
    all_reach(alloc, count, ways.as_slice())
}

// the direction in which the planes of g and h cross, if at it some node does not reach some other one
fn gap_at(
    alloc: Global,
    count: u32,
    links: &[Link],
    g: V3,
    h: V3,
) -> Result<Option<V3>, OutOfMemory>
    requires some { 1 ≤ count }
    requires links { All (IsLink count) links.now }
    requires first { IsWithin NORMAL g }
    requires second { IsWithin NORMAL h }
    requires apart { cross g h ≢ origin }
    ensures { IfOk result (λ gap. MatchOption gap (IsJoined links.now count (primitive (cross g h)))
        (λ v. (v ≡ primitive (cross g h)) × IsGap links.now count v)) }
{
    let d = cross_normal(g, h);
    if is_joined(alloc, count, links, d)? {
        return Ok(None);
    }
    Ok(Some(primitive(d)))
}

// the first such direction where the plane of g crosses one of the planes
fn gap_on(
    alloc: Global,
    count: u32,
    links: &[Link],
    g: V3,
    hs: &[V3],
) -> Result<Option<V3>, OutOfMemory>
    requires some { 1 ≤ count }
    requires links { All (IsLink count) links.now }
    requires first { IsWithin NORMAL g }
    requires planes { All (IsWithin NORMAL) hs.now }
    requires apart { All (λ h. cross g h ≢ origin) hs.now }
    ensures { IfOk result (λ gap. MatchOption gap (All (IsJoined links.now count) (crossings g hs.now))
        (IsFirst (IsGap links.now count) (crossings g hs.now))) }
{
    for h in hs {
        match gap_at(alloc, count, links, g, *h)? {
            Some(v) => return Ok(Some(v)),
            None => {}
        }
    }
    Ok(None)
}

// the first one where two of the planes cross
fn gap_among(
    alloc: Global,
    count: u32,
    links: &[Link],
    planes: &[V3],
) -> Result<Option<V3>, OutOfMemory>
    requires some { 1 ≤ count }
    requires links { All (IsLink count) links.now }
    requires planes { All (IsWithin NORMAL) planes.now }
    requires apart { NoneParallel planes.now }
    ensures { IfOk result (λ gap. MatchOption gap (All (IsJoined links.now count) (vertices planes.now))
        (IsFirst (IsGap links.now count) (vertices planes.now))) }
{
    for (k, g) in planes.iter().enumerate() {
        match gap_on(alloc, count, links, *g, planes_from(planes, k + 1))? {
            Some(v) => return Ok(Some(v)),
            None => {}
        }
    }
    Ok(None)
}

/// The first vertex, in pair order, at which a core, pairs of pieces, does not hold nodes of parts together. Where
/// there is none, it holds them: wherever two of its planes cross, each node reaches each other one by the arcs that
/// the pairs have there. Its planes are the axes and those of the facets of its pairs.
///
/// `nodes` has for each part the number of its node, below `count`, or none. A pair is of two pieces of parts of nodes.
/// One look serves a crossing and its opposite, where the arcs are the same ones turned round.
pub fn first_gap<F: FacetSource>(
    alloc: Global,
    source: &F,
    parts: &[Part],
    nodes: &[Option<u32>],
    count: u32,
    core: &[Arc],
) -> Result<Option<V3>, OutOfMemory>
    requires parts { All IsPart parts.now }
    requires two { 2 ≤ count }
    requires core { All (IsCorePair parts.now nodes.now count) core.now }
    ensures held { IfOk result (λ gap. MatchOption gap (JoinsNodes parts.now nodes.now count core.now)
        (λ v. JoinsNodes parts.now nodes.now count core.now → ⊥)) }
    ensures first { IfOk result (λ gap. IfSome gap (IsFirstGap parts.now nodes.now count core.now)) }
    ensures size { IfOk result (λ gap. IfSome gap (λ v. (v ≢ origin) × IsWithin DIRECTION v)) }
{
    let links = links_of(alloc, source, parts, nodes, count, core)?;
    let planes = planes_of(alloc, count, links.as_slice())?;
    gap_among(alloc, count, links.as_slice(), planes.as_slice())
}

/// Whether the core holds the nodes together, with the conditions of [`first_gap`]. Where the nodes are parts by
/// themselves and sets of parts that are stuck, all of their parts together are then stuck.
pub fn judge_hold<F: FacetSource>(
    alloc: Global,
    source: &F,
    parts: &[Part],
    nodes: &[Option<u32>],
    count: u32,
    core: &[Arc],
) -> Result<bool, OutOfMemory>
    requires parts { All IsPart parts.now }
    requires two { 2 ≤ count }
    requires core { All (IsCorePair parts.now nodes.now count) core.now }
    ensures held { IfOk result (λ answer. IsTrue answer ↔ JoinsNodes parts.now nodes.now count core.now) }
    ensures stuck { IfOk result (λ answer. IsTrue answer → (sets : List PartSetValue)
        → AreNodeSets nodes.now count sets → AreNodes parts.now sets → IsStuck parts.now (union_of sets)) }
{
    let gap = first_gap(alloc, source, parts, nodes, count, core)?;
    Ok(gap.is_none())
}
