//! Whether two auctions of one definition are equal.
ghost use Rattle.std.specs.Prelude.{◌≡◌, ◌↔◌, IsTrue};

use hpb_auction::Auction;
use hpb_rules::{Accepted, Saved, SavedBidder, SavedNode};

/// Whether two auctions of one definition are the same. It compares the bids, the states of the bidders and the
/// auctioneer, the round, the stage, whether it is over, and how many commands were accepted. It takes no memory.
pub fn same_auction(ours: &Auction, theirs: &Auction) -> bool
    requires { ours.now.rules ≡ theirs.now.rules }
    ensures { IsTrue result ↔ (ours.now ≡ theirs.now) }
{
    let mut our = Saved::empty();
    let mut their = Saved::empty();
    ours.save(&mut our);
    theirs.save(&mut their);
    same_saved(&our, &their)
}

/// Whether two saved states are the same.
fn same_saved(our: &Saved, their: &Saved) -> bool
    ensures { IsTrue result ↔ (our.now ≡ their.now) }
{
    our.round == their.round
        && our.stage == their.stage
        && our.over == their.over
        && our.count == their.count
        && same_last(our.auctioneer, their.auctioneer)
        && same_nodes(&our.nodes, &their.nodes)
        && same_bidders(&our.bidders, &their.bidders)
}

fn same_nodes(our: &[SavedNode], their: &[SavedNode]) -> bool
    ensures { IsTrue result ↔ (our.now ≡ their.now) }
{
    our == their
}

fn same_bidders(our: &[SavedBidder], their: &[SavedBidder]) -> bool
    ensures { IsTrue result ↔ (our.now ≡ their.now) }
{
    our == their
}

fn same_last(our: Option<Accepted>, their: Option<Accepted>) -> bool
    ensures { IsTrue result ↔ (our ≡ their) }
{
    our == their
}
