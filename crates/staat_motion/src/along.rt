// What is kept of all pieces for one direction.
ghost use Rattle.std.specs.Prelude.{◌≡◌, ◌<◌, ◌↔◌, ℕ, List, IfOk, IsTrue, Some, length, slice_get};
ghost use Rattle.staat_vec.specs.declared.vector.V3.{V3 as Point};
ghost use Rattle.staat_vec.specs.Vectors.{IsWithin};
ghost use Rattle.staat_model.specs.declared.assembly.Part.{Part as PartValue};
ghost use Rattle.staat_model.specs.Assemblies.{HoldsAt, piece_at};
ghost use Rattle.staat_model.specs.Removal.{Blocks, MeetsAlong};
ghost use Rattle.staat_motion.specs.Motions.{
  AreBodies,
  HasShadows,
  IsMotion,
  IsMotionOf,
  points_of_body,
  shadow_at,
  shadow_count,
};
ghost use Rattle.staat_motion.specs.Shadows.{IsSeenApart};

use crate::bounds::Bodies;
use crate::frame::{Frame, frame_of};
use crate::shadow::{Shadow, Shadows, is_apart, part_shadows, wholes_of};
use staat_model::{Arc, Part};
use staat_vec::{DIRECTION, OutOfMemory, V3};
use std::alloc::Global;
use std::marker::Model;

/// A direction, and how far some parts and each of their pieces reach along the axes and along normals across the
/// direction.
///
/// The parts are not kept. Parts, and the pieces of each, are numbered from 0 as in the list that it was made from.
#[derive(Drop)]
pub struct Along {
    d: V3,
    frame: Frame,
    shadows: Vec<Shadows>,
    wholes: Vec<Shadow>,
}

impl Model for Along {
    ghost use Rattle.staat_motion.specs.Motions.{IsMotion, Motion};

    ghost Value = { Motion };

    ghost view = { λ a. record { d = a.d; frame = a.frame; shadows = a.shadows.items; wholes = a.wholes.items } };

    ghost invariant = { λ a. IsMotion a.d a.frame };
}

impl Along {
    /// What is kept of the pieces of these parts for the direction `d`, by three passes over their points. The bodies
    /// are those of the parts.
    ///
    /// The components of `d` are at most [`DIRECTION`] in absolute value.
    pub fn of(alloc: Global, parts: &[Part], bodies: &Bodies, d: V3) -> Result<Along, OutOfMemory>
        requires size { IsWithin DIRECTION d }
        requires bodies { AreBodies parts.now bodies.now }
        ensures direction { IfOk result (λ along. along.d ≡ d) }
        ensures made { IfOk result (IsMotionOf parts.now) }
    {
        let frame = frame_of(d);
        let shadows = part_shadows(alloc, &frame, parts, bodies.boxes())?;
        let wholes = wholes_of(alloc, shadows.as_slice())?;
        Ok(Along {
            d,
            frame,
            shadows,
            wholes,
        })
    }

    /// The direction.
    pub fn direction(&self) -> V3
        ensures is { result ≡ self.now.d }
        ensures rules { IsMotion self.now.d self.now.frame }
    {
        self.d
    }

    // the shadows of the pieces of the part a
    pub(crate) fn part(&self, a: u32) -> &[Shadow]
        requires { a < length self.now.shadows }
        ensures { slice_get self.now.shadows a ≡ Some result.now }
    {
        self.shadows[a as usize].as_slice()
    }

    // the shadow of the piece i of the part a
    pub(crate) fn shadow(&self, a: u32, i: u32) -> &Shadow
        requires part { a < length self.now.shadows }
        requires piece { i < shadow_count self.now.shadows a }
        ensures { shadow_at self.now.shadows a i ≡ Some result.now }
    {
        let shadows = &self.shadows[a as usize];
        &shadows.as_slice()[i as usize]
    }

    // the shadow of all points of the part a
    pub(crate) fn whole(&self, a: u32) -> &Shadow
        requires { a < length self.now.wholes }
        ensures { slice_get self.now.wholes a ≡ Some result.now }
    {
        &self.wholes[a as usize]
    }

    /// Whether boxes or spans show that the first piece of the arc never meets the second along the direction: a wall
    /// keeps the second out of the way of the first, and its normal is an axis or one of the normals across the
    /// direction, or the negative of one of these. It takes no memory.
    pub fn apart(&self, arc: Arc) -> bool
        requires { HasShadows self.now arc }
        ensures seen { (parts : List PartValue) → IsMotionOf parts self.now →
            IsTrue result ↔ HoldsAt parts arc (λ p q. IsSeenApart self.now.frame p q self.now.d) }
        ensures never { (parts : List PartValue) → IsMotionOf parts self.now → IsTrue result →
            MeetsAlong parts self.now.d arc → ⊥ }
    {
        let d = self.direction();
        is_apart(d, self.shadow(arc.a, arc.i), self.shadow(arc.b, arc.j))
    }

    /// Whether boxes or spans of whole parts show that no piece of the part `a` meets one of the part `b` along the
    /// direction, as [`apart`](Along::apart) does of pieces. It takes no memory.
    pub fn parts_apart(&self, a: u32, b: u32) -> bool
        requires a_in { a < length self.now.wholes }
        requires b_in { b < length self.now.wholes }
        ensures seen { (parts : List PartValue) → IsMotionOf parts self.now →
            IsTrue result ↔ IsSeenApart self.now.frame (points_of_body parts a) (points_of_body parts b) self.now.d }
        ensures never { (parts : List PartValue) → IsMotionOf parts self.now → IsTrue result →
            Blocks parts self.now.d a b → ⊥ }
    {
        let d = self.direction();
        is_apart(d, self.whole(a), self.whole(b))
    }
    /// Whether boxes or spans of the piece `i` of the part `a` and of the whole part `b` show that the piece meets no
    /// piece of that part along the direction, as [`apart`](Along::apart) does of two pieces. It takes no memory.
    pub fn piece_apart(&self, a: u32, i: u32, b: u32) -> bool
        requires part { a < length self.now.shadows }
        requires piece { i < shadow_count self.now.shadows a }
        requires b_in { b < length self.now.wholes }
        ensures seen { (parts : List PartValue) (p : List Point) → IsMotionOf parts self.now →
            piece_at parts a i ≡ Some p →
            IsTrue result ↔ IsSeenApart self.now.frame p (points_of_body parts b) self.now.d }
        ensures never { (parts : List PartValue) (j : ℕ) → IsMotionOf parts self.now → IsTrue result →
            MeetsAlong parts self.now.d (record { a = a; i = i; b = b; j = j }) → ⊥ }
    {
        let d = self.direction();
        is_apart(d, self.shadow(a, i), self.whole(b))
    }
}
