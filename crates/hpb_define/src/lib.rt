//! Definitions of auctions from JSON.
#![tactic(auto)]

mod definition;
mod fault;
mod places;
mod reading;
mod shape;

pub use definition::read_definition;
pub use fault::{DefineCause, DefineFault};
