//! Commands of a house's clients that look random, most of which are accepted.
ghost use Rattle.std.specs.Prelude.{◌<◌};

use crate::bidding::{amount, has_bid, minimum, ticket_after};
use crate::random::Random;
use hpb_auction::Auction;
use hpb_rules::{BidderId, Command, NodeId, Saved};
use hpb_test_engine::states::saved_of;

/// How many nodes and bidders there are.
const NODES: u32 = 6;

pub(crate) const BIDDERS: usize = 4;

/// The next command of a client; the auctioneer's, if there is no bidder of this place. `ahead` commands before it have
/// no answer, mostly none. A close comes seldom, and hardly ever when it would end the auction.
pub(crate) fn next_command(
    random: &mut Random,
    auction: &Auction,
    place: usize,
    ahead: u32,
) -> Option<Command> {
    if ahead > 0 && !random.is_one_in(6) {
        return None;
    }
    let saved = saved_of(auction);
    if place < BIDDERS {
        return Some(next_of_bidder(random, auction, &saved, place, ahead));
    }
    let ticket = ticket_after(random, saved.auctioneer, ahead, 24);
    match random.below(60) {
        0 => Some(Command::Stage { ticket }),
        1 => Some(Command::Close { ticket }),
        2..=40 if has_bid(&saved) && ahead == 0 => Some(Command::Close { ticket }),
        _ => None,
    }
}

/// Mostly a bid; at times a waiver, or the bidder's last command once more.
fn next_of_bidder(
    random: &mut Random,
    auction: &Auction,
    saved: &Saved,
    place: usize,
    ahead: u32,
) -> Command {
    let place = place.min(BIDDERS);
    let last = saved.bidders[place].last;
    if random.is_one_in(12) {
        if let Some(accepted) = last {
            return accepted.command;
        }
    }
    let ticket = ticket_after(random, last, ahead, 24);
    let bidder = BidderId::new(place);
    if random.is_one_in(16) {
        return Command::Waive { bidder, ticket };
    }
    let node = node_of(random);
    Command::Bid {
        bidder,
        ticket,
        node: NodeId::new(node),
        amount: amount(random, minimum(auction, node), true),
    }
}

/// Seldom a package: few bidders may bid on one.
fn node_of(random: &mut Random) -> usize
    ensures { result < 6 }
{
    let node = random.below(NODES);
    if node < 2 && random.is_one_in(2) {
        5
    } else {
        node as usize
    }
}
