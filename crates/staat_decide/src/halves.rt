// A few parts that hold each other among many that do not. Where a set is too large for a core within the bound, halves
// of it are left out, then quarters, and so on: what is still too large without them is looked at on.
ghost use Rattle.staat_motion.specs.Motions.{AreBodies};

use crate::growing::{BOUND, Guess, grown};
use crate::likely::AskedRows;
use crate::pairs::comes_apart;
use crate::scene::Scene;
use staat_cone::FacetSource;
use staat_holds::Hold;
use staat_model::Part;
use staat_motion::Bodies;
use staat_vec::OutOfMemory;
use std::alloc::Global;

// the parts but those from low to high
fn without(alloc: Global, w: &[u32], low: u32, high: u32) -> Result<Vec<u32>, OutOfMemory> {
    let mut rest = Vec::new(alloc);
    for p in w {
        if *p < low || *p > high {
            rest.push(*p)?;
        }
    }
    Ok(rest)
}

// leaves out the parts from low to high if the rest is still too large; the rest, if pairs should hold it together
fn leave_out<F: FacetSource>(
    scene: &Scene<F>,
    asked: &[AskedRows],
    left: &mut Vec<u32>,
    low: u32,
    high: u32,
) -> Result<Option<Hold>, OutOfMemory>
    requires { AreBodies scene.now.parts.now scene.now.bodies.now }
{
    let rest = without(scene.alloc, left.as_slice(), low, high)?;
    if rest.len() < 2 || comes_apart(scene.alloc, asked, rest.as_slice())? {
        return Ok(None);
    }
    match grown(scene, rest.as_slice(), BOUND)? {
        Guess::Free(_) => Ok(None),
        Guess::Stuck(hold) => Ok(Some(hold)),
        Guess::None => {
            *left = rest;
            Ok(None)
        }
    }
}

// leaves out so many of the parts at a time
fn leave_out_each<F: FacetSource>(
    scene: &Scene<F>,
    asked: &[AskedRows],
    left: &mut Vec<u32>,
    all: &[u32],
    count: usize,
) -> Result<Option<Hold>, OutOfMemory>
    requires { AreBodies scene.now.parts.now scene.now.bodies.now }
{
    for chunk in all.chunks(count.max(1)) {
        let low = chunk[0];
        let high = chunk[chunk.len() - 1];
        if let Some(hold) = leave_out(scene, asked, left, low, high)? {
            return Ok(Some(hold));
        }
    }
    Ok(None)
}

// leaves out so many of those that are left at a time
fn leave_out_by<F: FacetSource>(
    scene: &Scene<F>,
    asked: &[AskedRows],
    left: &mut Vec<u32>,
    count: usize,
) -> Result<Option<Hold>, OutOfMemory>
    requires { AreBodies scene.now.parts.now scene.now.bodies.now }
{
    let all = left.as_slice().to_vec(scene.alloc)?;
    leave_out_each(scene, asked, left, all.as_slice(), count)
}

/// Leaves parts out of a set that is too large as long as the rest is: a half, quarters, and so on. A rest that pairs
/// should hold together, once there is one.
pub fn halved<F: FacetSource>(
    scene: &Scene<F>,
    asked: &[AskedRows],
    left: &mut Vec<u32>,
) -> Result<Option<Hold>, OutOfMemory>
    requires { AreBodies scene.now.parts.now scene.now.bodies.now }
{
    let mut count = left.len();
    for _ in 0..usize::BITS {
        if count < 2 {
            return Ok(None);
        }
        count = count / 2 + count % 2;
        if let Some(hold) = leave_out_by(scene, asked, left, count)? {
            return Ok(Some(hold));
        }
    }
    Ok(None)
}
