use crate::command::Command;
use crate::id::{BidderId, NodeId};

/// The request of a line.
#[derive(Clone, Copy, Debug, PartialEq, Eq)]
pub enum Request {
    /// A command to the auction: `BID`, `CLOSE`, `STAGE` or `WAIVE`.
    Command(Command),
    /// `SHOW`: the round, the stage, the revenue and the count.
    Show,
    /// `NODE`: the state of a node.
    Node(NodeId),
    /// `WHO`: the state of a bidder.
    Who(BidderId),
}
