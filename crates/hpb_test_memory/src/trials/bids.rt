//! Letters to an auction, and events that make an engine commit them.

use super::MOST;
use hpb_engine::Event;
use hpb_rules::{BidderId, Command, Letter, Letters, NodeId};
use std::alloc::{AllocError, Global};

/// The first bid of a bidder, on the licence of the same place among the licences, which come behind the packages.
fn bid_of(packages: usize, bidder: usize) -> Letter {
    Letter {
        seat: 0,
        command: Command::Bid {
            bidder: BidderId::new(bidder.min(63)),
            ticket: 1,
            node: NodeId::new(packages.saturating_add(bidder).min(126)),
            amount: 1_000,
        },
    }
}

/// The first bid of each bidder in an auction of this many nodes, each on a licence of its own.
pub(crate) fn letters(nodes: u64) -> Letters {
    let nodes = nodes.min(MOST) as usize;
    let packages = nodes / 2;
    let mut letters = Letters::new();
    for bidder in 0..nodes - packages {
        let _ = letters.push(bid_of(packages, bidder));
    }
    letters
}

/// The events of a first batch: a bid of each bidder, offered together and committed, and a step of a checkpoint.
pub(crate) fn events(alloc: Global, nodes: u64) -> Result<Vec<Event>, AllocError> {
    let events = vec![in alloc;
        Event::Offer(letters(nodes)),
        Event::Commit,
        Event::Commit,
        Event::Commit,
        Event::Commit,
        Event::Checkpoint,
    ]?;
    Ok(events)
}
