// The blocking graph at a direction.
ghost use Rattle.std.specs.Prelude.{◌≡◌, ◌<◌, ◌⊎◌, ◌↔◌, ℕ, List, All, IsTrue, pos, ◌<ℤ◌};
ghost use Rattle.staat_vec.specs.Vectors.{IsWithin, dot};
ghost use Rattle.staat_model.specs.declared.assembly.Part.{Part as PartValue};
ghost use Rattle.staat_model.specs.Sets.{Has, IsSubset};
ghost use Rattle.staat_graph.specs.Blocking.{ShowsBlocking};
ghost use Rattle.staat_graph.specs.Graphs.{HasArc};
ghost use Rattle.staat_pairs.specs.Tables.{IsTableArc, WasMadeFrom, back, facets_of};
ghost use Rattle.staat_planes.specs.Tables.{BlocksIn, GainsArcs, IsAhead, IsAheadIn};

use crate::leads::{Heading, Leads, is_ahead};
use crate::table::PlaneTable;
use staat_graph::Graph;
use staat_limits::MOST_PARTS;
use staat_model::{Arc, PartSet};
use staat_pairs::back;
use staat_vec::{DIRECTION, V3, neg};

// puts the arc from a to b into the rows, if it stands
fn put_arc(rows: &mut [u32; 32], a: u32, b: u32, stands: bool)
    requires from { a < MOST_PARTS }
    requires to { b < MOST_PARTS }
    ensures { (x y : ℕ) → HasArc rows.new x y ↔ (HasArc rows.old x y ⊎ ((x ≡ a) × (y ≡ b) × IsTrue stands)) }
{
    if stands {
        let row = PartSet::from_bits(rows[a as usize]);
        rows[a as usize] = row.union(PartSet::single(b)).bits();
    }
}

impl PlaneTable {
    /// Whether `d` leads ahead of all facets of an ordered pair of pieces of different parts of the set.
    ///
    /// The components of `d` are at most [`DIRECTION`] in absolute value. The search ends at the first facet that it
    /// does not lead ahead of.
    // of the facets in the other order, which are the negatives, d leads ahead where -d does of these
    pub fn leads_ahead(&self, arc: Arc, d: V3) -> bool
        requires across { IsTableArc self.now arc }
        requires direction { IsWithin DIRECTION d }
        ensures { IsTrue result ↔ All (λ n. pos 0 <ℤ dot n d) (facets_of self.now arc) }
    {
        if arc.a < arc.b {
            is_ahead(self.kept_facets(arc), d)
        } else {
            is_ahead(self.kept_facets(back(arc)), neg(d))
        }
    }

    // How a direction leads past the facets of two pieces of different parts of the set, that of the lesser part first:
    // whether ahead of all of them, and whether behind all, which is ahead of all facets of the two in the other order.
    fn leads_both_ways(&self, arc: Arc, heading: &Heading) -> Leads
        requires across { IsTableArc self.now arc }
        requires order { arc.a < arc.b }
        requires far { IsTrue heading.now.fair → ⊥ }
        ensures ahead { IsTrue result.ahead ↔ All (λ n. pos 0 <ℤ dot n heading.now.d) (facets_of self.now arc) }
        ensures behind { IsTrue result.behind
            ↔ All (λ n. pos 0 <ℤ dot n heading.now.d) (facets_of self.now (back arc)) }
    {
        heading.past(self.kept_facets(arc))
    }

    // the same of any pieces of the part a and any of the greater part b
    fn leads_between(&self, a: u32, b: u32, heading: &Heading) -> Leads
        requires a_in { Has self.now.of a }
        requires b_in { Has self.now.of b }
        requires order { a < b }
        requires far { IsTrue heading.now.fair → ⊥ }
        ensures ahead { IsTrue result.ahead ↔ IsAhead self.now heading.now.d a b }
        ensures behind { IsTrue result.behind ↔ IsAhead self.now heading.now.d b a }
    {
        let mut leads = Leads::neither();
        for i in 0..self.pieces(a) {
            for j in 0..self.pieces(b) {
                leads = leads.or(self.leads_both_ways(Arc { a, i, b, j }, heading));
                if leads.ahead && leads.behind {
                    return leads;
                }
            }
        }
        leads
    }

    // puts the arcs between the part a and the greater part b into the rows
    fn put_pair(&self, rows: &mut [u32; 32], a: u32, b: u32, heading: &Heading)
        requires a_in { Has self.now.of a }
        requires b_in { Has self.now.of b }
        requires order { a < b }
        requires far { IsTrue heading.now.fair → ⊥ }
        ensures { GainsArcs (IsAhead self.now heading.now.d) a (λ y. y ≡ b) rows.old rows.new }
    {
        // parts are below the number of rows
        let _set = self.set();
        let leads = self.leads_between(a, b, heading);
        put_arc(rows, a, b, leads.ahead);
        put_arc(rows, b, a, leads.behind);
    }

    // puts those between the part a and each of others, which are greater
    fn put_pairs(&self, rows: &mut [u32; 32], a: u32, others: PartSet, heading: &Heading)
        requires a_in { Has self.now.of a }
        requires set { IsSubset others self.now.of }
        requires order { (b : ℕ) → Has others b → a < b }
        requires far { IsTrue heading.now.fair → ⊥ }
        ensures { GainsArcs (IsAhead self.now heading.now.d) a (Has others) rows.old rows.new }
    {
        let mut left = others;
        while left.meets(left) {
            let b = left.least();
            left = left.without(PartSet::single(b));
            self.put_pair(rows, a, b, heading);
        }
    }

    /// The blocking graph of the parts of `w` at the direction `d`: an arc from one of them to another stands exactly
    /// where some piece of the first, moved along `d`, meets some piece of the second (Wilson and Latombe, 1994).
    ///
    /// `w` lies in the table's set. The components of `d` are at most [`DIRECTION`](staat_vec::DIRECTION) in absolute
    /// value. The facets of two pieces are looked at for both orders at once, and for two parts the search ends where
    /// both arcs stand. It takes no memory.
    pub fn graph_in(&self, w: PartSet, d: V3) -> Graph
        requires set { IsSubset w self.now.of }
        requires direction { IsWithin DIRECTION d }
        ensures table { (a b : ℕ) → HasArc result.rows a b ↔ IsAheadIn self.now w d a b }
        ensures arcs { (parts : List PartValue) → WasMadeFrom parts self.now → (a b : ℕ) →
            HasArc result.rows a b ↔ BlocksIn parts w d a b }
        ensures shows { (parts : List PartValue) → WasMadeFrom parts self.now →
            ShowsBlocking parts d w result.rows }
    {
        let heading = Heading::of(d, false);
        let mut rows = [0u32; 32];
        let mut left = w;
        while left.meets(left) {
            let a = left.least();
            left = left.without(PartSet::single(a));
            self.put_pairs(&mut rows, a, left, &heading);
        }
        Graph { rows }
    }

    /// The blocking graph of the table's set at the direction `d`.
    ///
    /// The components of `d` are at most [`DIRECTION`](staat_vec::DIRECTION) in absolute value. It takes no memory.
    pub fn graph_at(&self, d: V3) -> Graph
        requires { IsWithin DIRECTION d }
        ensures table { (a b : ℕ) → HasArc result.rows a b ↔ IsAhead self.now d a b }
        ensures arcs { (parts : List PartValue) → WasMadeFrom parts self.now → (a b : ℕ) →
            HasArc result.rows a b ↔ BlocksIn parts self.now.of d a b }
        ensures shows { (parts : List PartValue) → WasMadeFrom parts self.now →
            ShowsBlocking parts d self.now.of result.rows }
    {
        self.graph_in(self.set(), d)
    }
}
