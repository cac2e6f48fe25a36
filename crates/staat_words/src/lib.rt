//! What the command words ask for. The words are read with `clap`.
#![tactic(auto)]

mod arguments;
mod command;
mod request;
mod vector;
mod words;

pub use request::{
    Asked, CellsRequest, CheckRequest, DecideRequest, DrillProduct, ExplodeRequest, GraphRequest,
    Input, LinearRequest, LocalRequest, PairRequest, PlanRequest, Request, RequestRefusal,
};
pub use words::request_of;
