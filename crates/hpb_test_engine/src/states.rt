//! Auctions, and whether two of them are equal.

use crate::devices::{boxed, six_nodes};
use anyhow::Result;
use hpb_auction::Auction;
use hpb_rules::{BidderId, Letter, NodeId, Saved};
use std::alloc::Global;

/// The auction before the first letter.
fn new_auction(alloc: Global) -> Result<Box<Auction>> {
    let definition = boxed(alloc, six_nodes(alloc)?)?;
    let auction = Auction::new(alloc, &definition)?;
    Ok(boxed(alloc, auction)?)
}

/// The auction after letters that are all accepted.
pub fn state_after(alloc: Global, letters: &[Letter]) -> Result<Box<Auction>> {
    let mut auction = new_auction(alloc)?;
    for letter in letters {
        auction.apply(&letter.command);
    }
    Ok(auction)
}

/// The saved state of an auction.
pub fn saved_of(auction: &Auction) -> Saved {
    let mut saved = Saved::empty();
    auction.save(&mut saved);
    saved
}

/// Whether two auctions have the same rounds, bids and last commands.
fn same_saved(left: &Saved, right: &Saved) -> bool {
    left.round == right.round
        && left.stage == right.stage
        && left.over == right.over
        && left.count == right.count
        && left.auctioneer == right.auctioneer
        && left.nodes == right.nodes
        && left.bidders == right.bidders
}

/// Whether two auctions show a node alike.
fn same_node(left: &Auction, right: &Auction, place: usize) -> bool {
    place < left.definition().node_count()
        && place < right.definition().node_count()
        && left.node_view(NodeId::new(place)) == right.node_view(NodeId::new(place))
}

/// Whether two auctions show a bidder alike.
fn same_bidder(left: &Auction, right: &Auction, place: usize) -> bool {
    place < left.definition().bidder_count()
        && place < right.definition().bidder_count()
        && left.bidder_view(BidderId::new(place)) == right.bidder_view(BidderId::new(place))
}

/// Whether two auctions of six nodes and four bidders show and keep the same.
pub fn same(left: &Auction, right: &Auction) -> bool {
    for place in 0..6 {
        if !same_node(left, right, place) {
            return false;
        }
    }
    for place in 0..4 {
        if !same_bidder(left, right, place) {
            return false;
        }
    }
    left.revenue() == right.revenue() && same_saved(&saved_of(left), &saved_of(right))
}
