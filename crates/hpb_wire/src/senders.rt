//! The sender of a command, and its next ticket.
ghost use Rattle.std.specs.Prelude.{◌≡◌, suc, ◌<◌, true, false, length, IsSome, None};
ghost use Rattle.hpb_rules.specs.Answer.{unknown};
ghost use Rattle.hpb_rules.specs.Rounds.{auctioneer, bidder as bidder_sender, ticket_of};
ghost use Rattle.hpb_rules.specs.Values.{ticket_at};
ghost use Rattle.hpb_wire.specs.Reasons.{AreKnown};

use hpb_auction::Auction;
use hpb_rules::{BidderId, Command, Saved};
use hpb_tree::Definition;

/// Whether a definition has the bidder and the node that a command names.
pub(crate) fn is_known(definition: &Definition, command: &Command) -> bool
    ensures known { result ≡ true → unknown definition.now command.now ≡ None }
    ensures places { result ≡ true → AreKnown definition.now command.now }
    ensures unknown { result ≡ false → IsSome (unknown definition.now command.now) }
{
    match *command {
        Command::Bid { bidder, node, .. } => {
            bidder.place() < definition.bidder_count() && node.place() < definition.node_count()
        }
        Command::Waive { bidder, .. } => bidder.place() < definition.bidder_count(),
        Command::Close { .. } | Command::Stage { .. } => true,
    }
}

/// The next ticket of a bidder.
pub(crate) fn next_of_bidder(auction: &Auction, bidder: BidderId) -> u64
    requires { bidder < length auction.now.rules.bidders }
    ensures { result ≡ suc (ticket_at auction.now (bidder_sender bidder)) }
{
    u64::from(auction.bidder_view(bidder).ticket) + 1
}

/// The next ticket of the auctioneer.
pub(crate) fn next_of_auctioneer(auction: &Auction) -> u64
    ensures { result ≡ suc (ticket_at auction.now auctioneer) }
{
    let mut saved = Saved::empty();
    auction.save(&mut saved);
    match saved.auctioneer {
        Some(accepted) => u64::from(ticket(&accepted.command)) + 1,
        None => 1,
    }
}

/// The ticket that a command bears.
fn ticket(command: &Command) -> u32
    ensures { result ≡ ticket_of command.now }
{
    match *command {
        Command::Bid { ticket, .. }
        | Command::Close { ticket }
        | Command::Stage { ticket }
        | Command::Waive { ticket, .. } => ticket,
    }
}
