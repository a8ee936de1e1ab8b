//! Bodies of the greatest size: a batch of 64 bids, and a state with two bids on each of 127 nodes and a last bid of
//! each of 64 bidders.

use crate::auctions::full_tree;
use anyhow::Result;
use hpb_codec::Batch;
use hpb_rules::{
    Accepted, BidderId, Command, Commands, MOST_BIDDERS, MOST_LETTERS, MOST_NODES, NodeId, Offer,
    Saved, SavedBidder, SavedNode,
};
use hpb_tree::Definition;
use std::alloc::Global;

const AMOUNT: u64 = 1_000_000;

/// A full binary tree of the most nodes, 64 of them licences, with the most bidders.
pub(crate) fn definition(alloc: Global) -> Result<Definition> {
    full_tree(alloc, MOST_NODES as u64, MOST_BIDDERS as u64)
}

/// A bid of a bidder.
fn bid(place: usize) -> Command {
    Command::Bid {
        bidder: BidderId::new(place % MOST_BIDDERS),
        ticket: 1_000,
        node: NodeId::new(place % MOST_NODES),
        amount: AMOUNT,
    }
}

pub(crate) fn batch() -> Batch {
    let mut commands = Commands::new();
    for place in 0..MOST_LETTERS {
        let _ = commands.push(bid(place));
    }
    Batch {
        index: 0,
        first: 1,
        commands,
    }
}

fn offer() -> Option<Offer> {
    Some(Offer {
        amount: AMOUNT,
        bidder: BidderId::new(1),
    })
}

pub(crate) fn saved() -> Saved {
    let node = SavedNode {
        high: offer(),
        incoming: offer(),
    };
    let bidder = SavedBidder {
        eligibility: 64,
        last: None,
        bid_on: u128::MAX / 2,
        waivers: 0,
        has_waived: false,
    };
    let mut saved = Saved {
        round: 2,
        stage: 1,
        over: false,
        count: 1_000_000,
        auctioneer: Some(Accepted {
            command: Command::Close { ticket: 1 },
            number: 1,
        }),
        nodes: [node; MOST_NODES],
        bidders: [bidder; MOST_BIDDERS],
    };
    for place in 0..MOST_BIDDERS {
        saved.bidders[place].last = Some(Accepted {
            command: bid(place),
            number: 2_000,
        });
    }
    saved
}
