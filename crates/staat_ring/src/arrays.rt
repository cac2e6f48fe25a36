// The arrays of all rings.
ghost use Rattle.std.specs.Prelude.{◌≡◌, ◌≢◌, ℕ, ◌+◌, ◌<◌, ◌≤◌, ◌^◌, IfOk, List, length, slice_index};
ghost use Rattle.staat_ring.specs.Links.{take, give, take_all, give_all, InRange};
ghost use Rattle.staat_ring.specs.Stands.{IsShortRing};
ghost use Rattle.staat_ring.specs.RingViews.{entries_of};
ghost use Rattle.staat_ring.specs.Linking.{AreSized, CanBeLinked, HoldsCircle, IsAlone, IsKeptAt};
ghost use Rattle.staat_ring.specs.Numbered.{circle_of_node, entry_count, entry_of_plane, head_number, ring_node_count};

use crate::linking::link_stops;
use crate::nodes::{NodeLinks, counted};
use crate::stop_list::Stops;
use staat_limits::MOST_PLANES;
use staat_vec::OutOfMemory;
use std::alloc::Global;
use std::marker::Model;

/// The rings of the circles, whose nodes are vertices, and the rings of the vertices, whose nodes are entries.
#[derive(Drop)]
pub struct RingArrays {
    circles: NodeLinks,
    vertices: NodeLinks,
    home: Vec<u32>,
}

impl Model for RingArrays {
    ghost use Rattle.staat_ring.specs.Links.{Arrays, coded_arrays, AreArrays};

    ghost Value = { Arrays };

    ghost coded = { coded_arrays };

    ghost view = { λ a. record { circles = a.circles; vertices = a.vertices; home = a.home.items } };

    ghost invariant = { λ a. AreArrays a.circles a.vertices a.home.items };
}

/// The number of the first of the two entries of a plane on a circle.
fn entry(planes: u32, c: u32, p: u32) -> u32
    requires planes { planes ≤ MOST_PLANES }
    requires circle { c < planes }
    requires plane { p < planes }
    ensures is { result ≡ entry_of_plane planes c p }
    ensures within { result + 1 < entry_count planes }
    ensures small { result < 2 ^ 30 }
{
    2 * (c * planes + p)
}

impl RingArrays {
    /// Takes an entry out; its vertex leaves the circle with its last entry.
    pub fn take(&mut self, e: u32)
        requires { e < length self.old.home }
        ensures arrays { self.new ≡ take e self.old }
        ensures length { length self.new.home ≡ length self.old.home }
    {
        self.vertices.unlink(e);
        let v = self.home[e as usize];
        if self.vertices.next(v) == v {
            self.circles.unlink(v);
        }
    }

    /// Puts an entry back; a bare vertex comes back to its circle.
    pub fn give(&mut self, e: u32)
        requires { e < length self.old.home }
        ensures arrays { self.new ≡ give e self.old }
        ensures length { length self.new.home ≡ length self.old.home }
    {
        let v = self.home[e as usize];
        if self.vertices.next(v) == v {
            self.circles.relink(v);
        }
        self.vertices.relink(e);
    }

    /// Takes all entries of a plane out.
    #[tactic(auto, using(crate::proofs::Chains::taken, crate::proofs::Chains::skipped))]
    pub fn take_plane(&mut self, planes: u32, p: u32)
        requires planes { planes ≤ MOST_PLANES }
        requires plane { p < planes }
        requires room { entry_count planes ≤ length self.old.home }
        ensures arrays { self.new ≡ take_all (entries_of planes p planes) self.old }
        ensures length { length self.new.home ≡ length self.old.home }
    {
        for c in 0..planes {
            if c != p {
                let e = entry(planes, c, p);
                self.take(e);
                self.take(e + 1);
            }
        }
    }

    /// Puts them back, the last first.
    pub fn give_plane(&mut self, planes: u32, p: u32)
        requires planes { planes ≤ MOST_PLANES }
        requires plane { p < planes }
        requires room { entry_count planes ≤ length self.old.home }
        ensures arrays { self.new ≡ give_all (entries_of planes p planes) self.old }
        ensures length { length self.new.home ≡ length self.old.home }
    {
        let mut c = planes;
        while c > 0 {
            c -= 1;
            if c != p {
                let e = entry(planes, c, p);
                self.give(e + 1);
                self.give(e);
            }
        }
    }
}

impl RingArrays {
    // the arrays have one length, and every word is a node
    pub(crate) fn sizes(&self)
        ensures circles { length self.now.circles.next ≡ length self.now.home }
        ensures vertices { length self.now.vertices.next ≡ length self.now.home }
        ensures circle_words { InRange self.now.circles }
        ensures vertex_words { InRange self.now.vertices }
    {
        let _count = self.home.len();
        self.circles.range();
        self.vertices.range();
    }

    /// The node that follows on a circle.
    pub fn next_vertex(&self, v: u32) -> u32
        requires { v < length self.now.circles.next }
        ensures { result ≡ slice_index self.now.circles.next v }
    {
        self.circles.next(v)
    }

    /// The node that follows at a vertex: an entry, or the vertex itself.
    pub fn next_entry(&self, e: u32) -> u32
        requires { e < length self.now.vertices.next }
        ensures { result ≡ slice_index self.now.vertices.next e }
    {
        self.vertices.next(e)
    }

    /// The number of vertices on the circle with this head.
    pub fn circle_len(&self, head: u32) -> u32
        requires some { (nodes : List ℕ) × IsShortRing self.now.circles head nodes }
        requires small { length self.now.home < 2 ^ 32 }
        ensures { (nodes : List ℕ) → IsShortRing self.now.circles head nodes → result ≡ length nodes }
    {
        self.circles.ring_len(head)
    }
}

/// The head of the circle `c`: the number that an entry of its own plane would have.
pub fn head_of(planes: u32, c: u32) -> u32
    requires planes { planes ≤ MOST_PLANES }
    requires circle { c < planes }
    ensures is { result ≡ head_number planes c }
    ensures within { result < entry_count planes }
{
    2 * (c * planes + c)
}

impl RingArrays {
    /// Arrays for so many planes, in which each node is a ring of its own.
    pub fn alone(alloc: Global, planes: u32) -> Result<RingArrays, OutOfMemory>
        requires { planes ≤ MOST_PLANES }
        ensures sizes { IfOk result (AreSized planes) }
        ensures alone { IfOk result (λ a. (x : ℕ) → x < ring_node_count planes → IsAlone a x) }
        ensures home { IfOk result (λ a. (x : ℕ) → x < ring_node_count planes → slice_index a.home x ≡ x) }
    {
        let count = 4 * (planes * planes);
        let home = counted(alloc, count)?;
        let circles = NodeLinks::alone(alloc, count)?;
        let vertices = NodeLinks::alone(alloc, count)?;
        Ok(RingArrays {
            circles,
            vertices,
            home,
        })
    }

    /// Links the circle `c`, whose nodes stand alone, to these stops.
    pub fn link_circle(&mut self, planes: u32, c: u32, stops: &Stops)
        requires planes { planes ≤ MOST_PLANES }
        requires circle { c < planes }
        requires sizes { AreSized planes self.old }
        requires stops { CanBeLinked planes c stops.now }
        requires alone { (x : ℕ) → x < ring_node_count planes → circle_of_node planes x ≡ c
            → IsAlone self.old x }
        ensures sizes { AreSized planes self.new }
        ensures holds { HoldsCircle planes self.new c stops.now }
        ensures others { (x : ℕ) → circle_of_node planes x ≢ c → IsKeptAt self.old self.new x }
        ensures home { (x : ℕ) → entry_count planes ≤ x
            → slice_index self.new.home x ≡ slice_index self.old.home x }
    {
        self.circles.link(planes, c, stops);
        link_stops(&mut self.vertices, &mut self.home, planes, c, stops);
    }
}
