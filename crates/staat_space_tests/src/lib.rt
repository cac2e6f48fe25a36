//! Tests of the crates on vectors, pieces, directions and plans: worked values, and sources of facets that fail.
#![tactic(auto)]

#[cfg(test)]
mod assembling;
#[cfg(test)]
mod circles;
pub mod conditions;
#[cfg(test)]
mod cores;
#[cfg(test)]
mod directions;
#[cfg(test)]
mod facets;
#[cfg(test)]
mod fixtures;
#[cfg(test)]
mod graphs;
#[cfg(test)]
mod holds;
#[cfg(test)]
mod parts;
#[cfg(test)]
mod steps;
#[cfg(test)]
mod tables;
#[cfg(test)]
mod vectors;
