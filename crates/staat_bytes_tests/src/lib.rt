//! Tests of the crates that read and write texts, bytes and files, and of the call `staat` over files in memory: what
//! no transcript of tests/ can say.
//!
//! Values are compared as texts where a text says as much. A table is read by reference, row by row, and each row is
//! given to a function: so little is to be proved of a test.
#![tactic(auto)]

pub mod sameness;
#[cfg(test)]
mod tests;
