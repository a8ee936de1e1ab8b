//! Prices of the nodes, the least bids on them, and certificates: prices that prove a choice of high bids to be the
//! best.
#![tactic(auto)]

mod certificate;
mod minimum;
mod passing;
mod prices;

pub use certificate::check_certificate;
pub use passing::{downward, downward_along};
pub use prices::Prices;
