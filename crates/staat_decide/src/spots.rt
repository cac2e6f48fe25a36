// How large pieces look from each other: what a guess at a core goes by.
use crate::spreading::Lead;
use staat_model::{Arc, Part, Piece};
use staat_vec::{OutOfMemory, V3};
use std::alloc::Global;

/// A piece of a part, the place of the part in a list, the piece's box, its centre, doubled, and the square of its
/// diagonal.
#[derive(Clone, Copy)]
pub struct Spot {
    pub part: u32,
    pub piece: u32,
    pub place: usize,
    pub low: V3,
    pub high: V3,
    pub centre: V3,
    pub size: u128,
}

fn square_of(v: V3) -> u128 {
    let x = v.x.unsigned_abs();
    let y = v.y.unsigned_abs();
    let z = v.z.unsigned_abs();
    let first = x.saturating_mul(x).saturating_add(y.saturating_mul(y));
    first.saturating_add(z.saturating_mul(z))
}

fn least_of(a: V3, b: V3) -> V3 {
    V3 {
        x: a.x.min(b.x),
        y: a.y.min(b.y),
        z: a.z.min(b.z),
    }
}

fn most_of(a: V3, b: V3) -> V3 {
    V3 {
        x: a.x.max(b.x),
        y: a.y.max(b.y),
        z: a.z.max(b.z),
    }
}

fn sum_of(a: V3, b: V3) -> V3 {
    V3 {
        x: a.x.saturating_add(b.x),
        y: a.y.saturating_add(b.y),
        z: a.z.saturating_add(b.z),
    }
}

fn difference_of(a: V3, b: V3) -> V3 {
    V3 {
        x: a.x.saturating_sub(b.x),
        y: a.y.saturating_sub(b.y),
        z: a.z.saturating_sub(b.z),
    }
}

fn spot_of(part: u32, piece: u32, place: usize, points: &[V3]) -> Spot {
    let mut low = V3 {
        x: i128::MAX,
        y: i128::MAX,
        z: i128::MAX,
    };
    let mut high = V3 {
        x: i128::MIN,
        y: i128::MIN,
        z: i128::MIN,
    };
    for point in points {
        low = least_of(low, *point);
        high = most_of(high, *point);
    }
    Spot {
        part,
        piece,
        place,
        low,
        high,
        centre: sum_of(low, high),
        size: square_of(difference_of(high, low)),
    }
}

// adds the spots of the pieces of a part
fn add_spots(
    spots: &mut Vec<Spot>,
    part: u32,
    place: usize,
    pieces: &[Piece],
) -> Result<(), OutOfMemory> {
    let mut i = 0u32;
    for piece in pieces {
        spots.push(spot_of(part, i, place, piece.points()))?;
        i = i.saturating_add(1);
    }
    Ok(())
}

/// The spots of the pieces of the parts of `w`, each with the place of its part there.
pub fn spots_of(alloc: Global, parts: &[Part], w: &[u32]) -> Result<Vec<Spot>, OutOfMemory> {
    let mut spots = Vec::new(alloc);
    for place in 0..w.len() {
        let a = w[place];
        if (a as usize) < parts.len() {
            add_spots(&mut spots, a, place, parts[a as usize].pieces.as_slice())?;
        }
    }
    Ok(spots)
}

/// Whether the boxes of two pieces touch.
pub fn boxes_touch(a: &Spot, b: &Spot) -> bool {
    are_met(a.low.x, a.high.x, b.low.x, b.high.x)
        && are_met(a.low.y, a.high.y, b.low.y, b.high.y)
        && are_met(a.low.z, a.high.z, b.low.z, b.high.z)
}

// whether two spans have a number in common
fn are_met(low: i128, high: i128, other_low: i128, other_high: i128) -> bool {
    low <= other_high && other_low <= high
}

const FINE: u128 = 1 << 40;

/// How many pairs are listed at most.
pub const MOST_PAIRS: usize = 1 << 20;

/// Two pieces of different parts, the places of these, and how small the pieces look from each other.
#[derive(Clone, Copy)]
pub struct Pair {
    pub smallness: u128,
    pub arc: Arc,
    pub lead: Lead,
}

// how small two pieces look from each other: the square of their distance by that of their sizes
fn smallness(a: &Spot, b: &Spot) -> u128 {
    let distance = square_of(difference_of(a.centre, b.centre));
    let size = a.size.saturating_add(b.size).max(1);
    distance.saturating_mul(FINE) / size
}

/// The pair of two pieces.
pub fn arc_between(first: &Spot, second: &Spot) -> Arc {
    Arc {
        a: first.part,
        i: first.piece,
        b: second.part,
        j: second.piece,
    }
}

fn pair_of(first: &Spot, second: &Spot) -> Pair {
    Pair {
        smallness: smallness(first, second),
        arc: arc_between(first, second),
        lead: Lead {
            from: first.place,
            to: second.place,
        },
    }
}

// adds the pairs of a spot with some of other parts
fn add_pairs(pairs: &mut Vec<Pair>, spot: &Spot, others: &[Spot]) -> Result<(), OutOfMemory> {
    for other in others {
        if pairs.len() >= MOST_PAIRS {
            return Ok(());
        }
        if spot.place != other.place {
            pairs.push(pair_of(spot, other))?;
        }
    }
    Ok(())
}

/// The pairs of spots of different parts, those first that look large from each other; at most [`MOST_PAIRS`].
pub fn pairs_of(alloc: Global, spots: &[Spot]) -> Result<Vec<Pair>, OutOfMemory> {
    let mut pairs = Vec::new(alloc);
    for k in 0..spots.len() {
        add_pairs(&mut pairs, &spots[k], &spots[k..])?;
    }
    pairs.sort_unstable_by_key(|pair| pair.smallness);
    Ok(pairs)
}
