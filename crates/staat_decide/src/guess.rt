// A guess at how a set of parts goes on where no likely direction serves, which is judged later: two parts that hold
// each other, else the whole set within a bound, else fewer and fewer of its parts within it, else without a bound.
ghost use Rattle.staat_motion.specs.Motions.{AreBodies};

use crate::growing::{BOUND, Guess, grown};
use crate::halves::halved;
use crate::likely::AskedRows;
use crate::pairs::held_pair;
use crate::scene::Scene;
use staat_cone::FacetSource;
use staat_holds::Hold;
use staat_model::Part;
use staat_motion::Bodies;
use staat_vec::OutOfMemory;
use std::alloc::Global;

// a guess at how a large set goes on, of whose parts as many are left out as may be
fn guess_among<F: FacetSource>(
    scene: &Scene<F>,
    asked: &[AskedRows],
    w: &[u32],
    left: &mut Vec<u32>,
) -> Result<Guess, OutOfMemory>
    requires { AreBodies scene.now.parts.now scene.now.bodies.now }
{
    if let Some(hold) = halved(scene, asked, left)? {
        return Ok(Guess::Stuck(hold));
    }
    if left.len() < w.len() {
        if let Guess::Stuck(hold) = grown(scene, left.as_slice(), usize::MAX)? {
            return Ok(Guess::Stuck(hold));
        }
    }
    grown(scene, w, usize::MAX)
}

// a guess at how a set that is too large for a bound goes on
fn guess_large<F: FacetSource>(
    scene: &Scene<F>,
    asked: &[AskedRows],
    w: &[u32],
) -> Result<Guess, OutOfMemory>
    requires { AreBodies scene.now.parts.now scene.now.bodies.now }
{
    let mut left = w.to_vec(scene.alloc)?;
    guess_among(scene, asked, w, &mut left)
}

/// A guess at how the parts of `w` go on.
pub fn guess_of<F: FacetSource>(
    scene: &Scene<F>,
    asked: &[AskedRows],
    w: &[u32],
) -> Result<Guess, OutOfMemory>
    requires { AreBodies scene.now.parts.now scene.now.bodies.now }
{
    if let Some(found) = held_pair(scene, asked, w)? {
        return Ok(Guess::Stuck(found));
    }
    match grown(scene, w, BOUND)? {
        Guess::None => guess_large(scene, asked, w),
        guess => Ok(guess),
    }
}
