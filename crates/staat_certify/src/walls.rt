// The walls of a split.
ghost use Rattle.std.specs.Prelude.{◌≡◌, ◌<◌, ◌<ℤ◌, ◌↔◌, ℕ};
ghost use Rattle.std.specs.Prelude.{pos, false, All, IfOk, IsTrue, MatchOption, OnOk, length};
ghost use Rattle.staat_vec.specs.Lists.{IsFirst, IsLeast};
ghost use Rattle.staat_vec.specs.Vectors.{IsWithin, dot, vector_cmp};
ghost use Rattle.staat_model.specs.Assemblies.{piece_count};
ghost use Rattle.staat_model.specs.Certify.{IsFacetAway};
ghost use Rattle.staat_model.specs.Removal.{IsFree, MeetsAlong};
ghost use Rattle.staat_model.specs.Sets.{Has};
ghost use Rattle.staat_certify.specs.Walls.{AddsSplit, HasPieces, IsAway};

use staat_cone::FacetSource;
use staat_model::{Arc, Assembly, Node, PartSet, Sep, Seps};
use staat_vec::{DIRECTION, NORMAL, OutOfMemory, Sign, V3, sign_dot};
use std::alloc::Global;

fn is_away(n: V3, d: V3) -> bool
    requires normal { IsWithin NORMAL n }
    requires direction { IsWithin DIRECTION d }
    ensures yes { IsTrue result → IsAway d n }
    ensures no { result ≡ false → pos 0 <ℤ dot n d }
{
    match sign_dot(n, d) {
        Sign::Pos => false,
        _ => true,
    }
}

// the first of the facets that d does not lead ahead of
fn first_away(facets: &[V3], d: V3) -> Option<V3>
    requires normals { All (IsWithin NORMAL) facets.now }
    requires direction { IsWithin DIRECTION d }
    ensures { MatchOption result (All (λ n. pos 0 <ℤ dot n d) facets.now) (IsFirst (IsAway d) facets.now) }
{
    for n in facets {
        if is_away(*n, d) {
            return Some(*n);
        }
    }
    None
}

/// A side that moves along a direction away from the rest, and a source of the facets of two pieces.
#[derive(Drop)]
pub(crate) struct Parting<'a, F: FacetSource> {
    pub alloc: Global,
    pub source: &'a F,
    pub assembly: &'a Assembly,
    pub side: PartSet,
    pub rest: PartSet,
    pub d: V3,
}

impl<'a, F: FacetSource> Parting<'a, F> {
    // how many pieces the part has, and none where it is not in the set
    fn pieces_in(&self, set: PartSet, part: u32) -> u32
        requires { part < length self.now.assembly.now }
        ensures { (piece : ℕ) → piece < result ↔ (Has set part × (piece < piece_count self.now.assembly.now part)) }
    {
        // an assembly has few parts
        let _parts = self.assembly.parts();
        if set.has(part) {
            self.assembly.pieces(part)
        } else {
            0
        }
    }

    // the wall of an arc: the least facet of its pieces that the direction does not lead ahead of
    fn wall(&self, arc: Arc) -> Result<V3, OutOfMemory>
        requires direction { IsWithin DIRECTION self.now.d }
        requires pieces { HasPieces self.now.assembly.now arc }
        requires apart { MeetsAlong self.now.assembly.now self.now.d arc → ⊥ }
        ensures { IfOk result (IsLeast vector_cmp (IsFacetAway self.now.assembly.now self.now.d arc)) }
    {
        let p = self.assembly.piece(arc.a, arc.i);
        let q = self.assembly.piece(arc.b, arc.j);
        // pieces are solid
        let _first = p.points();
        let _second = q.points();
        let facets = self.source.facets(self.alloc, p, q)?;
        match first_away(facets.as_slice(), self.d) {
            Some(n) => Ok(n),
            None => unreachable!(),
        }
    }

    /// Adds the node of the split, with its walls: for each piece of a part of the side and each of a part of the rest
    /// the least facet that the direction does not lead ahead of.
    pub(crate) fn push_split(&self, nodes: &mut Vec<Node>) -> Result<(), OutOfMemory>
        requires direction { IsWithin DIRECTION self.now.d }
        requires free { IsFree self.now.assembly.now self.now.side self.now.rest self.now.d }
        ensures { OnOk result (AddsSplit self.now.assembly.now self.now.side self.now.rest self.now.d nodes.old.items
            nodes.new.items) }
    {
        let mut seps = Vec::new(self.alloc);
        for a in 0..self.assembly.parts() {
            for i in 0..self.pieces_in(self.side, a) {
                for b in 0..self.assembly.parts() {
                    for j in 0..self.pieces_in(self.rest, b) {
                        let arc = Arc { a, i, b, j };
                        let n = self.wall(arc)?;
                        seps.push(Sep { arc, n })?;
                    }
                }
            }
        }
        nodes.push(Node::Split {
            d: self.d,
            seps: Seps::from_vec(seps),
        })?;
        Ok(())
    }
}
