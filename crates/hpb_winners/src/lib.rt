//! The winners: the choice of high bids with the greatest revenue, found from the bottom up.
#![tactic(auto)]

mod forming;
mod outcome;
mod places;
mod winners;

pub use outcome::{MOST_VALUE, Outcome};
pub use places::{first_bits, take_greatest};
pub use winners::{upward, upward_along};
