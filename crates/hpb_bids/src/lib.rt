//! The bids of an auction. Each node has the high bid of closed rounds and the best bid of the open round, and each
//! bidder the nodes on which it bid in the open round. Another part decides whether a saved auction may be restored.
#![tactic(auto)]

mod books;
mod restorable;

pub use books::Books;
pub use restorable::is_saved;
