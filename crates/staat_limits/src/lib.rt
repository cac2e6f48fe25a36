//! The numbers that words, formats and tables share, each in one place below all that cite it.
#![tactic(auto)]

pub mod laws;
mod limits;

pub use limits::{
    FILE_LIMIT, LATEST_VERSION, LEAST_PLANES, LEAST_POINTS, LINE_LIMIT, LIST_LIMIT, MOST_BOXES,
    MOST_CELL_PLANES, MOST_COUNT, MOST_DIGITS, MOST_PARTS, MOST_PIECES, MOST_PLANES, MOST_POINTS,
    MOST_PRODUCT_PARTS, MOST_PRODUCT_PIECES, TEXT_LIMIT,
};
