// What the likely directions say of parts: whether two parts hold each other along all of them, or some of them takes
// a set apart.
ghost use Rattle.staat_motion.specs.Motions.{AreBodies};

use crate::growing::{Guess, grown};
use crate::likely::AskedRows;
use crate::reach::{Way, has_arc, leads};
use crate::scene::Scene;
use crate::spreading::{are_all, mark};
use staat_cone::FacetSource;
use staat_holds::Hold;
use staat_model::Part;
use staat_motion::Bodies;
use staat_vec::OutOfMemory;
use std::alloc::Global;

// how many vertices are gone through for two parts
const PAIR_BOUND: usize = 20000;

// whether two parts block each other along all likely directions
fn hold_each_other(asked: &[AskedRows], a: u32, b: u32) -> bool {
    for one in asked {
        let rows = one.rows.as_slice();
        if !has_arc(rows, a as usize, b as usize) || !has_arc(rows, b as usize, a as usize) {
            return false;
        }
    }
    true
}

// two parts that should be stuck: the first and a later one
fn held_with<F: FacetSource>(
    scene: &Scene<F>,
    asked: &[AskedRows],
    a: u32,
    w: &[u32],
) -> Result<Option<Hold>, OutOfMemory>
    requires { AreBodies scene.now.parts.now scene.now.bodies.now }
{
    for b in w {
        if a < *b && hold_each_other(asked, a, *b) {
            let two = [a, *b];
            if let Guess::Stuck(hold) = grown(scene, &two, PAIR_BOUND)? {
                return Ok(Some(hold));
            }
        }
    }
    Ok(None)
}

/// Two parts of `w` that should be stuck.
pub fn held_pair<F: FacetSource>(
    scene: &Scene<F>,
    asked: &[AskedRows],
    w: &[u32],
) -> Result<Option<Hold>, OutOfMemory>
    requires { AreBodies scene.now.parts.now scene.now.bodies.now }
{
    for a in w {
        if let Some(found) = held_with(scene, asked, *a, w)? {
            return Ok(Some(found));
        }
    }
    Ok(None)
}

// marks for the places of parts, and the parts from which it is to go on
#[derive(Drop)]
struct Reach {
    marks: Vec<bool>,
    next: Vec<u32>,
}

// marks the places of parts of w to which the way leads from the part a, from which it is then to go on
fn add_next(
    asked: &AskedRows,
    w: &[u32],
    way: Way,
    a: u32,
    reach: &mut Reach,
) -> Result<(), OutOfMemory> {
    let rows = asked.rows.as_slice();
    for (j, b) in w.iter().enumerate() {
        if leads(rows, way, a as usize, *b as usize) && mark(&mut reach.marks, j) {
            reach.next.push(*b)?;
        }
    }
    Ok(())
}

// marks the places of all parts of w to which the way leads from the first one
fn go_on(asked: &AskedRows, w: &[u32], way: Way, reach: &mut Reach) -> Result<(), OutOfMemory> {
    reach.marks.resize(w.len(), false)?;
    if let Some(first) = w.first() {
        mark(&mut reach.marks, 0);
        reach.next.push(*first)?;
    }
    for _ in 0..w.len() {
        if let Some(a) = reach.next.pop() {
            add_next(asked, w, way, a, reach)?;
        }
    }
    Ok(())
}

// whether each part of w is reached from the first one on the way
fn reaches_all(alloc: Global, asked: &AskedRows, w: &[u32], way: Way) -> Result<bool, OutOfMemory> {
    let mut reach = Reach {
        marks: Vec::new(alloc),
        next: Vec::new(alloc),
    };
    go_on(asked, w, way, &mut reach)?;
    Ok(are_all(reach.marks.as_slice()))
}

/// Whether one of the likely directions takes the parts of `w` apart.
pub fn comes_apart(alloc: Global, asked: &[AskedRows], w: &[u32]) -> Result<bool, OutOfMemory> {
    for one in asked {
        if !reaches_all(alloc, one, w, Way::Ahead)? || !reaches_all(alloc, one, w, Way::Back)? {
            return Ok(true);
        }
    }
    Ok(false)
}
