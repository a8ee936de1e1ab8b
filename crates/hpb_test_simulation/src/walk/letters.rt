//! Letters that look random, most of which are accepted.
ghost use Rattle.std.specs.Prelude.{◌<◌};

use crate::bidding::{amount, has_bid, minimum, ticket_after};
use crate::random::Random;
use hpb_auction::Auction;
use hpb_rules::{BidderId, Command, Letter, Letters, NodeId, Saved};
use hpb_test_engine::letters::{close, stage};
use hpb_test_engine::states::saved_of;
use std::alloc::{AllocError, Global};

/// Up to six letters, and at times many more. Most of them can be accepted after the commands of the auction, one after
/// another.
pub(crate) fn next_letters(
    random: &mut Random,
    alloc: Global,
    auction: &Auction,
) -> Result<Letters, AllocError> {
    let mut after = auction.copy(alloc)?;
    let mut letters = Letters::new();
    let count = if random.is_one_in(32) {
        64
    } else {
        random.below(7)
    };
    for _ in 0..count {
        let next = letter(random, &after);
        after.apply(&next.command);
        let _ = letters.push(next);
    }
    Ok(letters)
}

/// Mostly a bid. A close without a bid would end the auction, so it is seldom.
fn letter(random: &mut Random, auction: &Auction) -> Letter {
    let saved = saved_of(auction);
    let closes = if has_bid(&saved) { 2 } else { 1 };
    let kind = random.below(60);
    if kind < closes {
        return close(ticket_after(random, saved.auctioneer, 0, 16));
    }
    if kind == 2 {
        return stage(ticket_after(random, saved.auctioneer, 0, 16));
    }
    bid(random, auction, &saved)
}

/// Mostly at the minimum or a little above it. At times the bidder's last bid once more.
fn bid(random: &mut Random, auction: &Auction, saved: &Saved) -> Letter {
    let (bidder, node) = (random.below(4) as usize, random.below(6) as usize);
    let last = saved.bidders[bidder].last;
    let seat = bidder as u8;
    if random.is_one_in(12) {
        if let Some(accepted) = last {
            return Letter {
                seat,
                command: accepted.command,
            };
        }
    }
    let ticket = ticket_after(random, last, 0, 16);
    Letter {
        seat,
        command: Command::Bid {
            bidder: BidderId::new(bidder),
            ticket,
            node: NodeId::new(node),
            amount: amount(random, minimum(auction, node), false),
        },
    }
}
