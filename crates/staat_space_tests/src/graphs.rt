// Worked graphs.
use crate::fixtures::same;
use staat_graph::{Graph, Groups, is_strong, reach, sink_of, strong_parts, trees_of};
use staat_limits::MOST_PARTS;
use staat_model::PartSet;
use std::process::Abort;

// the graph with these arcs
fn graph(arcs: &[(u32, u32)]) -> Graph {
    let mut rows = [0u32; 32];
    for (from, to) in arcs {
        if *from < 32 && *to < 32 {
            rows[*from as usize] |= 1 << *to;
        }
    }
    Graph { rows }
}

const CHAIN: &[(u32, u32)] = &[(0, 1), (1, 2)];

const RING: &[(u32, u32)] = &[(0, 1), (1, 2), (2, 0)];

// two that reach each other, one that leads to them, and two apart from all
const THREE_GROUPS: &[(u32, u32)] = &[(0, 1), (1, 0), (2, 0), (3, 4), (4, 3)];

const FULL: &[(u32, u32)] = &[(0, 1), (0, 2), (1, 0), (1, 2), (2, 0), (2, 1)];

// what a part reaches, the first group that no arc leaves, whether the set is one group, and its trees' arcs
fn seen(arcs: &[(u32, u32)], word: u32, from: u32) -> Option<(u32, u32, bool, Option<u32>)> {
    let (graph, set) = (graph(arcs), PartSet::from_bits(word));
    if from >= MOST_PARTS || !set.has(from) {
        return None;
    }
    Some((
        reach(&graph, set, from).bits(),
        sink_of(&graph, set).bits(),
        is_strong(&graph, set),
        trees_of(&graph, set).map(|trees| trees.count),
    ))
}

const BACK: &[(u32, u32)] = &[(1, 0), (2, 1)];

// the arcs, a set, a part of it, and what is seen of them
type Row = (
    &'static [(u32, u32)],
    u32,
    u32,
    (u32, u32, bool, Option<u32>),
);

const ROWS: [Row; 8] = [
    (THREE_GROUPS, 0b11111, 2, (0b00111, 0b00011, false, None)),
    (THREE_GROUPS, 0b11111, 3, (0b11000, 0b00011, false, None)),
    (THREE_GROUPS, 0b00100, 2, (0b00100, 0b00100, true, Some(0))),
    (CHAIN, 0b101, 0, (0b001, 0b001, false, None)),
    (CHAIN, 0b111, 0, (0b111, 0b100, false, None)),
    (BACK, 0b111, 0, (0b001, 0b001, false, None)),
    (RING, 0b111, 0, (0b111, 0b111, true, Some(2))),
    (FULL, 0b111, 0, (0b111, 0b111, true, Some(2))),
];

fn sees(rt: &impl Abort, row: &Row) {
    same(rt, &seen(row.0, row.1, row.2), &Some(row.3));
}

#[test]
fn walks_sinks_and_strength(rt: HostRuntime) {
    for row in &ROWS {
        sees(&rt, row);
    }
}

// the first two arcs of the tree from part 0, and of that to it
fn arcs_of_trees(arcs: &[(u32, u32)]) -> Option<[(u32, u32); 4]> {
    let three = PartSet::from_bits(0b111);
    if !three.has(0) {
        return None;
    }
    trees_of(&graph(arcs), three).map(|t| [t.outs[0], t.outs[1], t.ins[0], t.ins[1]])
}

fn words_of(groups: &Groups) -> [u32; 32] {
    let mut words = [0u32; 32];
    for k in 0..32usize {
        words[k] = groups.of[k].bits();
    }
    words
}

// the words of the groups of a set
fn groups(rt: &impl Abort, arcs: &[(u32, u32)], word: u32, wanted: &[u32]) {
    let groups = strong_parts(&graph(arcs), PartSet::from_bits(word));
    let words = words_of(&groups);
    same(rt, &&words[..groups.count as usize], &wanted);
}

#[test]
fn groups_and_trees(rt: HostRuntime) {
    groups(&rt, THREE_GROUPS, 0b11111, &[0b00011, 0b00100, 0b11000]);
    groups(&rt, THREE_GROUPS, 0, &[]);
    groups(&rt, &[(0, 31), (31, 0)], 1 << 31 | 1, &[1 << 31 | 1]);
    same(
        &rt,
        &arcs_of_trees(RING),
        &Some([(0, 1), (1, 2), (2, 0), (1, 2)]),
    );
    same(
        &rt,
        &arcs_of_trees(FULL),
        &Some([(0, 1), (0, 2), (1, 0), (2, 0)]),
    );
}
