//! Why a definition is refused: the fault and its place, in words for people. Nothing is decided here.
#![tactic(auto)]

mod entries;
mod fault;
mod fields;
mod json;
mod limits;
mod names;
mod numbers;
mod place;
mod shown;
mod telling;
mod terms;
mod tree;
mod written;

pub use telling::{Explanation, NOTHING_FOUND, reason};
