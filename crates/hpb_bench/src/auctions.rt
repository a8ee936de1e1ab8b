//! Auctions, and commands that they accept.

use crate::dice::Dice;
use anyhow::Result;
use hpb_auction::Auction;
use hpb_rules::{BidderId, Command, Commands, NodeId, Reply};
use hpb_tree::{BidderDraft, Definition, Draft, NodeDraft, TermsDraft};
use std::alloc::Global;

/// The unit of bids, and the opening of a licence.
const STEP: u64 = 10;

const OPENING: u64 = 100;

/// A full binary tree of this many nodes, the last half of them licences, with this many bidders. Each bidder may bid
/// on all nodes.
pub(crate) fn full_tree(alloc: Global, nodes: u64, bidders: u64) -> Result<Definition> {
    let packages = nodes / 2;
    let mut draft = Draft {
        step: STEP,
        percent: 10,
        stages: vec![in alloc; 80]?,
        waivers: 0,
        nodes: Vec::new(alloc),
        bidders: Vec::new(alloc),
    };
    for place in 0..nodes {
        draft.nodes.push(NodeDraft {
            name: format!(in alloc; "n{place}")?,
            parent: if place == 0 {
                None
            } else {
                Some((place - 1) / 2)
            },
            terms: if place < packages {
                None
            } else {
                Some(TermsDraft {
                    units: 1,
                    opening: OPENING,
                })
            },
        })?;
    }
    for place in 0..bidders {
        draft.bidders.push(BidderDraft {
            name: format!(in alloc; "b{place}")?,
            units: nodes - packages,
        })?;
    }
    Ok(Definition::check(alloc, &draft)?)
}

/// An auction that has accepted no command.
pub(crate) fn new_auction(alloc: Global, definition: &Definition) -> Result<Auction> {
    Ok(Auction::new(alloc, definition)?)
}

/// How many commands an auction has accepted.
pub(crate) fn count_of(auction: &Auction) -> u64 {
    u64::from(auction.count())
}

/// The next bid of a bidder on a node, this many steps above its minimum. Places of bidders and nodes wrap around.
pub(crate) fn next_bid(auction: &Auction, bidder: usize, node: usize, steps: u8) -> Command {
    let definition = auction.definition();
    let bidder = BidderId::new(bidder % definition.bidder_count());
    let node = NodeId::new(node % definition.node_count());
    let last = auction.bidder_view(bidder).ticket;
    let minimum = auction.node_view(node).minimum;
    Command::Bid {
        bidder,
        ticket: last.wrapping_add(1),
        node,
        amount: minimum.wrapping_add(u64::from(steps) * STEP),
    }
}

/// The next close. All commands of the auctioneer so far were closes.
pub(crate) fn next_close(auction: &Auction) -> Command {
    Command::Close {
        ticket: auction.round(),
    }
}

/// Appends a command, if the auction newly accepts it.
pub(crate) fn take(auction: &mut Auction, command: Command, taken: &mut Commands) {
    let number = auction.count() + 1;
    if auction.apply(&command) == Reply::Ok(number) {
        let _ = taken.push(command);
    }
}

/// Some commands that the auction newly accepts; none only if it is over.
pub(crate) fn play(auction: &mut Auction, dice: &mut Dice) -> Commands {
    let mut taken = Commands::new();
    for _ in 0..1 + dice.below(6) {
        let command = if dice.once_in(8) {
            next_close(auction)
        } else {
            let (bidder, node) = (dice.below(64), dice.below(127));
            next_bid(auction, bidder, node, dice.below(3) as u8)
        };
        take(auction, command, &mut taken);
    }
    if taken.len() == 0 {
        let close = next_close(auction);
        take(auction, close, &mut taken);
    }
    taken
}
