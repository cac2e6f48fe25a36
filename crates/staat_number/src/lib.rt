//! Whole numbers as texts: each number has one spelling.
#![tactic(auto)]

mod decimal;
mod number;
mod row;
mod spelling;

pub use decimal::push_number;
pub use number::{integer_of, natural_of};
pub use row::{NUMBER_ROOM, ROOM, RowEnd};
pub use spelling::number_in;
