// The table of the planes of a set of parts and of the facets of their pieces, with a limit on planes.
ghost use Rattle.std.specs.Prelude.{◌≡◌, ◌<◌, ◌≤◌, ◌+◌, ◌-◌, ◌*◌, Some, length, slice_get};
ghost use Rattle.staat_vec.specs.declared.vector.V3.{V3 as Vector};
ghost use Rattle.staat_vec.specs.Primitives.{canon};
ghost use Rattle.staat_vec.specs.Vectors.{IsWithin, dot, sign};
ghost use Rattle.staat_model.specs.Sets.{Has};
ghost use Rattle.staat_pairs.specs.Tables.{AreTableFacets, AreTablePlanes, IsPlaneNormal, IsTable, IsTableArc};
ghost use Rattle.staat_pairs.specs.Tables.{IsTableFacet, facets_of, pieces_of, reversed_facets, slot};

use crate::steps::Steps;
use staat_limits::{LEAST_PLANES, MOST_PIECES, MOST_PLANES};
use staat_model::{Arc, PartSet};
use staat_pairs::{FacetTable, SLOTS, back};
use staat_vec::{DIRECTION, Normal, Sign, V3, neg, sign_dot};
use std::marker::Model;
use std::sync::ledger::Ledger;

/// The planes of a set of parts, and the facets of each two pieces of different parts of the set.
///
/// A [`FacetTable`] of 3 to [`MOST_PLANES`] planes: the three coordinate planes, then the others ascending.
#[derive(Drop)]
pub struct PlaneTable {
    table: FacetTable,
}

impl Model for PlaneTable {
    ghost use Rattle.std.specs.Prelude.{◌≤◌, length};
    ghost use Rattle.staat_pairs.specs.Tables.{Table, coded_table};
    ghost use Rattle.staat_limits.specs.declared.limits.TheConstants.{MOST_PLANES};

    ghost Value = { Table };

    ghost coded = { coded_table };

    ghost view = { λ t. t.table };

    ghost invariant = { λ t. length t.table.planes ≤ MOST_PLANES };
}

impl PlaneTable {
    /// The table, of which it is known that its planes are not too many. It takes no memory.
    pub(crate) fn seal(table: FacetTable) -> PlaneTable
        requires { length table.planes ≤ MOST_PLANES }
        ensures { result ≡ table }
    {
        PlaneTable { table }
    }

    /// The set of parts.
    pub fn set(&self) -> PartSet
        ensures is { result ≡ self.now.of }
        ensures rules { IsTable self.now }
        ensures most { length self.now.planes ≤ MOST_PLANES }
    {
        self.table.set()
    }

    /// The number of planes.
    pub fn len(&self) -> u32
        ensures is { result ≡ length self.now.planes }
        ensures least { LEAST_PLANES ≤ result }
        ensures most { result ≤ MOST_PLANES }
        ensures rules { IsTable self.now }
    {
        self.table.planes().len() as u32
    }

    /// The normals of the planes.
    pub fn planes(&self) -> &[Normal]
        ensures is { result.now ≡ self.now.planes }
        ensures rules { AreTablePlanes result.now }
        ensures most { length result.now ≤ MOST_PLANES }
    {
        self.table.planes()
    }

    /// The normal of the plane `k`, which is below [`len`](PlaneTable::len).
    pub fn plane(&self, k: u32) -> V3
        requires { k < length self.now.planes }
        ensures is { slice_get self.now.planes k ≡ Some result }
        ensures rules { IsPlaneNormal result }
    {
        self.table.planes()[k as usize].vector()
    }

    /// The sign of the plane `k` at the direction `d`, which takes one step.
    ///
    /// `k` is below [`len`](PlaneTable::len), and the components of `d` are at most
    /// [`DIRECTION`](staat_vec::DIRECTION) in absolute value.
    pub fn sign_at<L: Ledger>(&self, k: u32, d: V3, steps: &mut Steps<L>) -> Sign
        requires plane { k < length self.now.planes }
        requires direction { IsWithin DIRECTION d }
        ensures sign { (n : Vector) → slice_get self.now.planes k ≡ Some n → result ≡ sign (dot n d) }
        ensures step { steps.new ≡ steps.old + 1 }
    {
        steps.tick();
        sign_dot(self.plane(k), d)
    }

    /// The number of pieces of the part `a` of the set.
    pub fn pieces(&self, a: u32) -> u32
        requires { Has self.now.of a }
        ensures is { result ≡ pieces_of self.now a }
        ensures least { 1 ≤ result }
        ensures most { result ≤ MOST_PIECES }
    {
        self.table.pieces(a)
    }

    /// The slot of an ordered pair of pieces of different parts of the set: a number below 4,096, which is that of no
    /// other pair.
    pub fn slot(&self, arc: Arc) -> u32
        requires { IsTableArc self.now arc }
        ensures is { result ≡ slot self.now.pieces arc }
        ensures small { result < SLOTS }
        ensures table { IsTable self.now }
    {
        // the table keeps its rules
        let _set = self.set();
        self.table.slot(arc)
    }
}

// a member of the reversed list
fn reversed_at(facets: &[Normal], m: usize) -> V3
    requires { m < length facets.now }
    ensures { slice_get (reversed_facets facets.now) m ≡ Some result }
{
    neg(facets[facets.len() - 1 - m].vector())
}

impl PlaneTable {
    /// The facets of two pieces of different parts of the set, of which that of the lesser part comes first.
    pub fn kept_facets(&self, arc: Arc) -> &[Normal]
        requires across { IsTableArc self.now arc }
        requires order { arc.a < arc.b }
        ensures is { result.now ≡ facets_of self.now arc }
        ensures rules { AreTableFacets self.now.planes result.now }
        ensures table { IsTable self.now }
        ensures most { length self.now.planes ≤ MOST_PLANES }
    {
        self.table.kept_facets(arc)
    }

    // the number of the plane of the facet m of two pieces, that of the lesser part first
    pub(crate) fn kept_number(&self, arc: Arc, m: u32) -> u32
        requires across { IsTableArc self.now arc }
        requires order { arc.a < arc.b }
        requires place { m < length (facets_of self.now arc) }
        ensures within { result < length self.now.planes }
        ensures most { length self.now.planes ≤ MOST_PLANES }
        ensures is { (n : Vector) → slice_get (facets_of self.now arc) m ≡ Some n
            → slice_get self.now.planes result ≡ Some (canon n) }
        ensures table { IsTable self.now }
    {
        self.table.kept_number(arc, m as usize) as u32
    }

    // the number of facets of two pieces, that of the lesser part first
    pub(crate) fn kept_count(&self, arc: Arc) -> u32
        requires across { IsTableArc self.now arc }
        requires order { arc.a < arc.b }
        ensures is { result ≡ length (facets_of self.now arc) }
        ensures most { result ≤ 2 * length self.now.planes }
    {
        self.kept_facets(arc).len() as u32
    }

    /// The number of facets of an ordered pair of pieces of different parts of the set.
    pub fn facet_count(&self, arc: Arc) -> u32
        requires { IsTableArc self.now arc }
        ensures is { result ≡ length (facets_of self.now arc) }
        ensures most { result ≤ 2 * length self.now.planes }
    {
        if arc.a < arc.b {
            self.kept_count(arc)
        } else {
            self.kept_count(back(arc))
        }
    }

    /// The facet `m` of an ordered pair of pieces of different parts of the set, where the facets ascend. `m` is below
    /// [`facet_count`](PlaneTable::facet_count).
    pub fn facet(&self, arc: Arc, m: u32) -> V3
        requires across { IsTableArc self.now arc }
        requires place { m < length (facets_of self.now arc) }
        ensures is { slice_get (facets_of self.now arc) m ≡ Some result }
        ensures rules { IsTableFacet self.now.planes result }
    {
        if arc.a < arc.b {
            self.kept_facets(arc)[m as usize].vector()
        } else {
            reversed_at(self.kept_facets(back(arc)), m as usize)
        }
    }

    /// The number of the plane of the facet `m` of an ordered pair of pieces of different parts of the set. `m` is
    /// below [`facet_count`](PlaneTable::facet_count).
    pub fn facet_plane(&self, arc: Arc, m: u32) -> u32
        requires across { IsTableArc self.now arc }
        requires place { m < length (facets_of self.now arc) }
        ensures within { result < length self.now.planes }
        ensures is { (n : Vector) → slice_get (facets_of self.now arc) m ≡ Some n
            → slice_get self.now.planes result ≡ Some (canon n) }
        ensures rules { AreTablePlanes self.now.planes }
    {
        if arc.a < arc.b {
            self.kept_number(arc, m)
        } else {
            // the facets stand there the other way round
            let kept = back(arc);
            self.kept_number(kept, self.kept_count(kept) - 1 - m)
        }
    }
}
