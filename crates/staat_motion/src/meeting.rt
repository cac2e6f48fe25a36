// Whether pieces and parts meet along a direction.
ghost use Rattle.std.specs.Prelude.{◌≡◌, ◌<◌, ◌↔◌, List, All, Any, IfOk, IsTrue, Some, length};
ghost use Rattle.staat_vec.specs.Vectors.{IsWithin};
ghost use Rattle.staat_model.specs.declared.assembly.Part.{Part as PartValue};
ghost use Rattle.staat_model.specs.Assemblies.{piece_at, piece_count};
ghost use Rattle.staat_model.specs.Meeting.{Meets};
ghost use Rattle.staat_model.specs.Removal.{Blocks, MeetsAlong};
ghost use Rattle.staat_motion.specs.Motions.{HasFacets, HasBothPieces, HasShadows, IsMotionOf, pieces_of_body, turned};
ghost use Rattle.staat_motion.specs.Shadows.{IsBody, IsShadow};

use crate::along::Along;
use crate::shadow::{Shadow, is_apart};
use staat_cone::{FacetSource, blocks};
use staat_model::{Arc, Part, Piece};
use staat_vec::{DIRECTION, NORMAL, OutOfMemory, V3, neg};
use std::alloc::Global;

// The pieces of a part, the shadow of each, and that of all their points.
#[derive(Clone, Copy)]
struct Body<'a> {
    pieces: &'a [Piece],
    shadows: &'a [Shadow],
    whole: &'a Shadow,
}

// the pieces of the part a
fn pieces_of(parts: &[Part], a: u32) -> &[Piece]
    requires { a < length parts.now }
    ensures { pieces_of_body parts.now a ≡ Some result.now }
{
    parts[a as usize].pieces.as_slice()
}

// the piece i of the part a
pub(crate) fn piece_of(parts: &[Part], a: u32, i: u32) -> &Piece
    requires part { a < length parts.now }
    requires piece { i < piece_count parts.now a }
    ensures { piece_at parts.now a i ≡ Some result.now }
{
    let part = &parts[a as usize];
    &part.pieces.as_slice()[i as usize]
}

// whether a piece meets another, by their facets
fn meets_by_facets<F: FacetSource>(
    alloc: Global,
    source: &F,
    d: V3,
    p: &Piece,
    q: &Piece,
) -> Result<bool, OutOfMemory>
    requires { IsWithin DIRECTION d }
    ensures { IfOk result (λ answer. IsTrue answer ↔ Meets p.now q.now d) }
{
    // both keep the rules of pieces
    let _p = p.points();
    let _q = q.points();
    let facets = source.facets(alloc, p, q)?;
    Ok(blocks(facets.as_slice(), d))
}

impl Along {
    // whether a piece meets another, of which the shadows are known: the facets are asked for only where these do not
    // show that it does not
    fn pair_meets<F: FacetSource>(
        &self,
        alloc: Global,
        source: &F,
        p: &Piece,
        s: &Shadow,
        q: &Piece,
        t: &Shadow,
    ) -> Result<bool, OutOfMemory>
        requires first { IsShadow self.now.frame p.now s.now }
        requires second { IsShadow self.now.frame q.now t.now }
        ensures { IfOk result (λ answer. IsTrue answer ↔ Meets p.now q.now self.now.d) }
    {
        let d = self.direction();
        // a piece's points span space, so that no wall leads through it
        let _piece = p.points();
        if is_apart(d, s, t) {
            return Ok(false);
        }
        let answer = meets_by_facets(alloc, source, d, p, q)?;
        Ok(answer)
    }

    // the pieces of the part a, with what is kept of them
    fn body<'a>(&'a self, parts: &'a [Part], a: u32) -> Body<'a>
        requires made { IsMotionOf parts.now self.now }
        requires a_in { a < length parts.now }
        ensures pieces { pieces_of_body parts.now a ≡ Some result.pieces.now }
        ensures kept { IsBody self.now.frame result.pieces.now result.shadows.now result.whole.now }
    {
        Body {
            pieces: pieces_of(parts, a),
            shadows: self.part(a),
            whole: self.whole(a),
        }
    }

    // whether the spans of a part's points, taken together, show that a piece meets none of its pieces
    fn is_clear_of(&self, p: &Piece, s: &Shadow, others: &Body) -> bool
        requires first { IsShadow self.now.frame p.now s.now }
        requires others { IsBody self.now.frame others.now.pieces.now others.now.shadows.now others.now.whole.now }
        ensures { IsTrue result → Any (λ q. Meets p.now q self.now.d) others.now.pieces.now → ⊥ }
    {
        let d = self.direction();
        // a piece's points span space, so that no wall leads through it
        let _piece = p.points();
        is_apart(d, s, others.whole)
    }

    // whether a piece meets one of a part's
    fn meets_one_of<F: FacetSource>(
        &self,
        alloc: Global,
        source: &F,
        p: &Piece,
        s: &Shadow,
        others: &Body,
    ) -> Result<bool, OutOfMemory>
        requires first { IsShadow self.now.frame p.now s.now }
        requires others { IsBody self.now.frame others.now.pieces.now others.now.shadows.now others.now.whole.now }
        ensures { IfOk result (λ answer. IsTrue answer ↔ Any (λ q. Meets p.now q self.now.d) others.now.pieces.now) }
    {
        if self.is_clear_of(p, s, others) {
            return Ok(false);
        }
        let qs = others.pieces;
        let ts = others.shadows;
        // each piece has its shadow
        let _shadows = ts.len();
        for j in 0..qs.len() {
            if self.pair_meets(alloc, source, p, s, &qs[j], &ts[j])? {
                return Ok(true);
            }
        }
        Ok(false)
    }

    // whether one of a part's pieces meets one of another's
    fn one_meets_one_of<F: FacetSource>(
        &self,
        alloc: Global,
        source: &F,
        body: &Body,
        others: &Body,
    ) -> Result<bool, OutOfMemory>
        requires body { IsBody self.now.frame body.now.pieces.now body.now.shadows.now body.now.whole.now }
        requires others { IsBody self.now.frame others.now.pieces.now others.now.shadows.now others.now.whole.now }
        ensures { IfOk result (λ answer. IsTrue answer ↔
            Any (λ p. Any (λ q. Meets p q self.now.d) others.now.pieces.now) body.now.pieces.now) }
    {
        let ps = body.pieces;
        let ss = body.shadows;
        // each piece has its shadow
        let _shadows = ss.len();
        for i in 0..ps.len() {
            if self.meets_one_of(alloc, source, &ps[i], &ss[i], others)? {
                return Ok(true);
            }
        }
        Ok(false)
    }

    /// Whether the first piece of the arc, moved along the direction, meets the second while that rests.
    ///
    /// The parts are those that this was made from, and the two pieces are among them. The source is asked for the
    /// facets of the two only where boxes and spans do not show that they do not meet, as [`apart`](Along::apart) does.
    pub fn meets<F: FacetSource>(
        &self,
        alloc: Global,
        source: &F,
        parts: &[Part],
        arc: Arc,
    ) -> Result<bool, OutOfMemory>
        requires made { IsMotionOf parts.now self.now }
        requires pieces { HasBothPieces parts.now arc }
        ensures { IfOk result (λ answer. IsTrue answer ↔ MeetsAlong parts.now self.now.d arc) }
    {
        let p = piece_of(parts, arc.a, arc.i);
        let q = piece_of(parts, arc.b, arc.j);
        let s = self.shadow(arc.a, arc.i);
        let t = self.shadow(arc.b, arc.j);
        let answer = self.pair_meets(alloc, source, p, s, q, t)?;
        Ok(answer)
    }

    /// Whether the part `a` blocks along the direction: some piece of it meets some piece of another part `b`.
    ///
    /// The parts are those that this was made from, and `a` and `b` are among them. The search ends at the first two
    /// pieces that meet.
    pub fn blocks<F: FacetSource>(
        &self,
        alloc: Global,
        source: &F,
        parts: &[Part],
        a: u32,
        b: u32,
    ) -> Result<bool, OutOfMemory>
        requires made { IsMotionOf parts.now self.now }
        requires a_in { a < length parts.now }
        requires b_in { b < length parts.now }
        ensures { IfOk result (λ answer. IsTrue answer ↔ Blocks parts.now self.now.d a b) }
    {
        if a == b || self.parts_apart(a, b) {
            return Ok(false);
        }
        let body = self.body(parts, a);
        let others = self.body(parts, b);
        let answer = self.one_meets_one_of(alloc, source, &body, &others)?;
        Ok(answer)
    }

    /// The same as [`meets`](Along::meets), from the facets of the two pieces, which the caller has kept.
    ///
    /// The components of the facets are at most [`NORMAL`] in absolute value. It takes no memory.
    pub fn meets_with(&self, arc: Arc, facets: &[V3]) -> bool
        requires shadows { HasShadows self.now arc }
        requires size { All (IsWithin NORMAL) facets.now }
        ensures { (parts : List PartValue) → IsMotionOf parts self.now → HasFacets parts arc facets.now →
            IsTrue result ↔ MeetsAlong parts self.now.d arc }
    {
        let along = self.direction();
        if self.apart(arc) {
            return false;
        }
        blocks(facets, along)
    }

    /// The same as [`meets_with`](Along::meets_with), from the facets of the two pieces in the other order: these are
    /// the negatives.
    pub fn meets_with_turned(&self, arc: Arc, facets: &[V3]) -> bool
        requires shadows { HasShadows self.now arc }
        requires size { All (IsWithin NORMAL) facets.now }
        ensures { (parts : List PartValue) → IsMotionOf parts self.now → HasFacets parts (turned arc) facets.now →
            IsTrue result ↔ MeetsAlong parts self.now.d arc }
    {
        let back = neg(self.direction());
        if self.apart(arc) {
            return false;
        }
        blocks(facets, back)
    }
}
