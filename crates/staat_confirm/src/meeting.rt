// The first two pieces across a split that meet.
ghost use Rattle.std.specs.Prelude.{◌≡◌, ◌<◌, ◌↔◌, ℕ, All, Any, IfOk, IsTrue, length};
ghost use Rattle.std.specs.List.Sorted.{IsStrictlySortedBy};
ghost use Rattle.std.specs.Ordering.{nat_cmp};
ghost use Rattle.staat_model.specs.Assemblies.{piece_count};
ghost use Rattle.staat_model.specs.Removal.{Blocks};
ghost use Rattle.staat_motion.specs.Motions.{IsMotionOf};
ghost use Rattle.staat_confirm.specs.Found.{FindsLeast, MeetsBetween, MeetsFrom, MeetsFromPiece, MeetsTo};

use staat_cone::FacetSource;
use staat_model::{Arc, Product};
use staat_motion::Along;
use staat_vec::OutOfMemory;
use std::alloc::Global;

/// A product as it moves along a direction, and a source of the facets of two pieces.
#[derive(Drop)]
pub(crate) struct View<'a, F: FacetSource> {
    pub alloc: Global,
    pub source: &'a F,
    pub product: &'a Product,
    pub along: &'a Along,
}

impl<'a, F: FacetSource> View<'a, F> {
    // the first piece of the part b that the piece i of the part a meets
    fn first_to(&self, a: u32, i: u32, b: u32) -> Result<Option<Arc>, OutOfMemory>
        requires made { IsMotionOf self.now.product.now self.now.along.now }
        requires a_in { a < length self.now.product.now }
        requires i_in { i < piece_count self.now.product.now a }
        requires b_in { b < length self.now.product.now }
        ensures { IfOk result (FindsLeast (MeetsTo self.now.product.now self.now.along.now.d a i b)) }
    {
        for j in 0..self.product.pieces(b) {
            let arc = Arc { a, i, b, j };
            if self
                .along
                .meets(self.alloc, self.source, self.product.as_slice(), arc)?
            {
                return Ok(Some(arc));
            }
        }
        Ok(None)
    }

    // the first piece of one of the parts that the piece i of the part a meets
    fn first_from_piece(&self, a: u32, i: u32, rest: &[u32]) -> Result<Option<Arc>, OutOfMemory>
        requires made { IsMotionOf self.now.product.now self.now.along.now }
        requires a_in { a < length self.now.product.now }
        requires i_in { i < piece_count self.now.product.now a }
        requires rest_in { All (λ b. b < length self.now.product.now) rest.now }
        requires ascending { IsStrictlySortedBy nat_cmp rest.now }
        ensures { IfOk result (FindsLeast (MeetsFromPiece self.now.product.now self.now.along.now.d a i rest.now)) }
    {
        for y in 0..rest.len() {
            match self.first_to(a, i, rest[y])? {
                Some(arc) => return Ok(Some(arc)),
                None => {}
            }
        }
        Ok(None)
    }

    // the first pieces of the part a, and then of one of the parts, that meet
    fn first_from(&self, a: u32, rest: &[u32]) -> Result<Option<Arc>, OutOfMemory>
        requires made { IsMotionOf self.now.product.now self.now.along.now }
        requires a_in { a < length self.now.product.now }
        requires rest_in { All (λ b. b < length self.now.product.now) rest.now }
        requires ascending { IsStrictlySortedBy nat_cmp rest.now }
        ensures { IfOk result (FindsLeast (MeetsFrom self.now.product.now self.now.along.now.d a rest.now)) }
    {
        for i in 0..self.product.pieces(a) {
            match self.first_from_piece(a, i, rest)? {
                Some(arc) => return Ok(Some(arc)),
                None => {}
            }
        }
        Ok(None)
    }

    // whether the part a blocks one of the parts
    fn blocks_one(&self, a: u32, rest: &[u32]) -> Result<bool, OutOfMemory>
        requires made { IsMotionOf self.now.product.now self.now.along.now }
        requires a_in { a < length self.now.product.now }
        requires rest_in { All (λ b. b < length self.now.product.now) rest.now }
        ensures { IfOk result (λ answer. IsTrue answer
            ↔ Any (Blocks self.now.product.now self.now.along.now.d a) rest.now) }
    {
        for b in rest {
            if self
                .along
                .blocks(self.alloc, self.source, self.product.as_slice(), a, *b)?
            {
                return Ok(true);
            }
        }
        Ok(false)
    }

    // the same as `first_from`, with a look at whole parts first
    fn first_of(&self, a: u32, rest: &[u32]) -> Result<Option<Arc>, OutOfMemory>
        requires made { IsMotionOf self.now.product.now self.now.along.now }
        requires a_in { a < length self.now.product.now }
        requires rest_in { All (λ b. b < length self.now.product.now) rest.now }
        requires ascending { IsStrictlySortedBy nat_cmp rest.now }
        requires other { All (λ b. b ≡ a → ⊥) rest.now }
        ensures { IfOk result (FindsLeast (MeetsFrom self.now.product.now self.now.along.now.d a rest.now)) }
    {
        if !self.blocks_one(a, rest)? {
            return Ok(None);
        }
        self.first_from(a, rest)
    }

    /// The first two pieces, the one of a part of `moved` and the other of a part of `rest`, of which the first meets
    /// the second along the direction: by the part and the piece of the first, then by those of the second.
    ///
    /// Both lists are ascending, and have no part in common. Parts are compared as wholes before their pieces are.
    pub(crate) fn first_meeting(
        &self,
        moved: &[u32],
        rest: &[u32],
    ) -> Result<Option<Arc>, OutOfMemory>
        requires made { IsMotionOf self.now.product.now self.now.along.now }
        requires moved_in { All (λ a. a < length self.now.product.now) moved.now }
        requires rest_in { All (λ b. b < length self.now.product.now) rest.now }
        requires moved_ascending { IsStrictlySortedBy nat_cmp moved.now }
        requires rest_ascending { IsStrictlySortedBy nat_cmp rest.now }
        requires other { All (λ a. All (λ b. b ≡ a → ⊥) rest.now) moved.now }
        ensures { IfOk result (FindsLeast (MeetsBetween self.now.product.now self.now.along.now.d moved.now rest.now)) }
    {
        for x in 0..moved.len() {
            match self.first_of(moved[x], rest)? {
                Some(arc) => return Ok(Some(arc)),
                None => {}
            }
        }
        Ok(None)
    }
}
