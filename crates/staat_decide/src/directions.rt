// Directions along which something is likely to come apart: the normals that most pairs of pieces that touch have in
// common, and the directions in which two of them cross.
use crate::planes::{crossing_of, facets_of, normals_of, plane_of};
use crate::scene::Scene;
use crate::spots::{Spot, arc_between, boxes_touch, spots_of};
use staat_cone::FacetSource;
use staat_model::Arc;
use staat_vec::{ORIGIN, OutOfMemory, V3};
use std::alloc::Global;

/// How many pairs that touch are looked at.
const MOST_TOUCHES: usize = 500;

/// How many of their normals are likely directions, and cross each other in some more.
const MOST_NORMALS: usize = 6;

// A normal, and how often it was found.
#[derive(Clone, Copy)]
struct Count {
    count: usize,
    normal: V3,
}

// The normals of pairs that touch, and how many such pairs were looked at.
#[derive(Drop)]
struct Touches {
    normals: Vec<V3>,
    count: usize,
}

// adds the normals of planes among the facets
fn add_normals(normals: &mut Vec<V3>, facets: &[V3]) -> Result<(), OutOfMemory> {
    for n in facets {
        if let Some(normal) = plane_of(*n) {
            normals.push(normal)?;
        }
    }
    Ok(())
}

// adds those of the facets of a pair of pieces
fn add_touch<F: FacetSource>(
    touches: &mut Touches,
    scene: &Scene<F>,
    pair: Arc,
) -> Result<(), OutOfMemory> {
    let facets = facets_of(scene.alloc, scene.source, scene.parts, pair)?;
    touches.count = touches.count.saturating_add(1);
    add_normals(&mut touches.normals, normals_of(&facets))
}

// adds those of a piece and the later ones that it touches, of pieces by where their boxes begin
fn add_touches<F: FacetSource>(
    touches: &mut Touches,
    scene: &Scene<F>,
    spot: &Spot,
    later: &[Spot],
) -> Result<(), OutOfMemory> {
    for other in later {
        if other.low.x > spot.high.x {
            return Ok(());
        }
        if other.part != spot.part && boxes_touch(spot, other) {
            add_touch(touches, scene, arc_between(spot, other))?;
        }
    }
    Ok(())
}

// adds those of pieces that touch, of pieces by where their boxes begin
fn add_all_touches<F: FacetSource>(
    touches: &mut Touches,
    scene: &Scene<F>,
    spots: &[Spot],
) -> Result<(), OutOfMemory> {
    for k in 0..spots.len() {
        if touches.count < MOST_TOUCHES {
            add_touches(touches, scene, &spots[k], &spots[k..])?;
        }
    }
    Ok(())
}

// adds those of pieces of the parts that touch
fn add_touching<F: FacetSource>(
    touches: &mut Touches,
    scene: &Scene<F>,
    all: &[u32],
) -> Result<(), OutOfMemory> {
    let mut spots = spots_of(scene.alloc, scene.parts, all)?;
    spots.sort_unstable_by_key(|spot| spot.low.x);
    add_all_touches(touches, scene, spots.as_slice())
}

// counts a normal, which is the last one or another
fn count_one(counts: &mut Vec<Count>, normal: V3) -> Result<(), OutOfMemory> {
    if let Some(last) = counts.last_mut() {
        if last.normal == normal {
            last.count = last.count.saturating_add(1);
            return Ok(());
        }
    }
    counts.push(Count { count: 1, normal })?;
    Ok(())
}

// how often each is found: the most frequent ones alone, and these first
fn counts_of(alloc: Global, normals: &[V3]) -> Result<Vec<Count>, OutOfMemory> {
    let none = Count {
        count: 0,
        normal: ORIGIN,
    };
    let mut counts = vec![in alloc; none]?;
    for n in normals {
        count_one(&mut counts, *n)?;
    }
    counts.sort_unstable_by_key(|one| one.count);
    counts.reverse();
    counts.truncate(MOST_NORMALS);
    Ok(counts)
}

// adds the normals that were found
fn add_counted(directions: &mut Vec<V3>, counts: &[Count]) -> Result<(), OutOfMemory> {
    for one in counts {
        if one.count > 0 {
            directions.push(one.normal)?;
        }
    }
    Ok(())
}

// adds the directions in which a plane crosses others, but those that are there
fn add_crossings(
    directions: &mut Vec<V3>,
    counts: &[Count],
    normal: V3,
) -> Result<(), OutOfMemory> {
    for other in counts {
        if let Some(d) = crossing_of(normal, other.normal) {
            if !directions.as_slice().contains(&d) {
                directions.push(d)?;
            }
        }
    }
    Ok(())
}

// adds the directions in which two of the planes cross
fn add_all_crossings(directions: &mut Vec<V3>, counts: &[Count]) -> Result<(), OutOfMemory> {
    for one in counts {
        add_crossings(directions, counts, one.normal)?;
    }
    Ok(())
}

// the normals, and the directions in which two of their planes cross
fn with_crossings(alloc: Global, counts: &[Count]) -> Result<Vec<V3>, OutOfMemory> {
    let mut directions = Vec::new(alloc);
    add_counted(&mut directions, counts)?;
    add_all_crossings(&mut directions, counts)?;
    Ok(directions)
}

/// Directions along which something is likely to come apart, no two of them the same. They are only tried.
pub fn likely_directions<F: FacetSource>(
    scene: &Scene<F>,
    all: &[u32],
) -> Result<Vec<V3>, OutOfMemory> {
    let mut touches = Touches {
        normals: Vec::new(scene.alloc),
        count: 0,
    };
    add_touching(&mut touches, scene, all)?;
    touches.normals.sort_unstable();
    let counts = counts_of(scene.alloc, touches.normals.as_slice())?;
    with_crossings(scene.alloc, counts.as_slice())
}
