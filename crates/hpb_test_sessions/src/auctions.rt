//! Auctions of a size, and commands that they accept.

use anyhow::Result;
use hpb_auction::Auction;
use hpb_engine::Event;
use hpb_rules::{Answer, BidderId, Command, Letter, Letters, NodeId, Reply};
use hpb_test_engine::devices::boxed;
use hpb_tree::{BidderDraft, Definition, Draft, NodeDraft, TermsDraft};
use std::alloc::{AllocError, Global};

/// How many nodes and bidders an auction has.
#[derive(Clone, Copy, Debug, PartialEq, Eq)]
pub(crate) struct Size {
    pub(crate) nodes: u64,
    /// How many of the nodes are packages, which come first: none, one over all others, or those of a full binary tree.
    pub(crate) packages: u64,
    pub(crate) bidders: u64,
}

/// How many commands are sent, how many in a batch, and after how many batches a checkpoint is made.
#[derive(Clone, Copy, Debug, PartialEq, Eq)]
pub(crate) struct Sent {
    pub(crate) commands: u32,
    pub(crate) batch: u32,
    pub(crate) frames: u32,
}

/// The seat of the auctioneer.
const AUCTIONEER: u8 = 33;

fn parent(packages: u64, place: u64) -> Option<u64> {
    match packages {
        _ if place == 0 => None,
        0 => None,
        1 => Some(0),
        _ => Some((place - 1) / 2),
    }
}

fn node(alloc: Global, size: Size, place: u64) -> Result<NodeDraft, AllocError> {
    let terms = if place < size.packages {
        None
    } else {
        Some(TermsDraft {
            units: 1,
            opening: 10,
        })
    };
    Ok(NodeDraft {
        name: format!(in alloc; "n{place}")?,
        parent: parent(size.packages, place),
        terms,
    })
}

/// Each bidder may bid on all licences.
pub(crate) fn definition(alloc: Global, size: Size) -> Result<Definition> {
    let mut draft = Draft {
        step: 1,
        percent: 1,
        stages: vec![in alloc; 50]?,
        waivers: 20,
        nodes: Vec::new(alloc),
        bidders: Vec::new(alloc),
    };
    for place in 0..size.nodes {
        draft.nodes.push(node(alloc, size, place)?)?;
    }
    for place in 0..size.bidders {
        draft.bidders.push(BidderDraft {
            name: format!(in alloc; "b{place}")?,
            units: 64,
        })?;
    }
    Ok(Definition::check(alloc, &draft)?)
}

/// A bid of each bidder on each licence, by its place in its round, at its node's minimum; and the close behind the
/// last.
pub(crate) fn next_letter(auction: &Auction, size: Size, place: u64) -> Letter {
    let licences = size.nodes.saturating_sub(size.packages);
    let bidder = (place % size.bidders.max(1)).min(63) as usize;
    let licence = place / size.bidders.max(1);
    if licence >= licences {
        return Letter {
            seat: AUCTIONEER,
            command: Command::Close {
                ticket: auction.round(),
            },
        };
    }
    let node = size.packages.saturating_add(licence).min(126) as usize;
    Letter {
        seat: 0,
        command: bid(auction, bidder, node),
    }
}

fn bid(auction: &Auction, bidder: usize, node: usize) -> Command {
    let (nodes, bidders) = (
        auction.definition().node_count(),
        auction.definition().bidder_count(),
    );
    let (bidder, node) = (BidderId::new(bidder % bidders), NodeId::new(node % nodes));
    Command::Bid {
        bidder,
        ticket: auction.bidder_view(bidder).ticket.saturating_add(1),
        node,
        amount: auction.node_view(node).minimum,
    }
}

/// An auction of such a size, before the first letter.
fn new_auction(alloc: Global, size: Size) -> Result<Box<Auction>> {
    let definition = boxed(alloc, definition(alloc, size)?)?;
    let auction = Auction::new(alloc, &definition)?;
    Ok(boxed(alloc, auction)?)
}

/// The events of all batches, each of which is committed.
pub(crate) fn events(alloc: Global, size: Size, sent: Sent) -> Result<Vec<Event>> {
    let mut auction = new_auction(alloc, size)?;
    let (mut events, mut letters) = (Vec::new(alloc), Letters::new());
    let (mut place, mut batches) = (0u64, 0u32);
    for count in 1..=sent.commands {
        let letter = next_letter(&auction, size, place);
        place = place.saturating_add(1);
        if letter.seat == AUCTIONEER {
            place = 0;
        }
        auction.apply(&letter.command);
        let _ = letters.push(letter);
        if letters.len() >= sent.batch as usize || count == sent.commands {
            batches = batches.saturating_add(1);
            push_batch(&mut events, letters, sent, batches)?;
            letters = Letters::new();
        }
    }
    Ok(events)
}

/// A commit, and a whole checkpoint if the journal is full.
fn push_batch(
    events: &mut Vec<Event>,
    letters: Letters,
    sent: Sent,
    batches: u32,
) -> Result<(), AllocError> {
    events.push(Event::Offer(letters))?;
    for _ in 0..4 {
        events.push(Event::Commit)?;
    }
    if sent.frames > 0 && batches % sent.frames == 0 {
        for _ in 0..sent.frames.saturating_add(10) {
            events.push(Event::Checkpoint)?;
        }
    }
    Ok(())
}

/// Whether each of these is newly accepted, from the first on.
pub(crate) fn are_accepted(answers: &[Answer]) -> bool {
    let mut count = 0u32;
    for answer in answers {
        let at = count;
        count = count.saturating_add(1);
        if answer.at != at || answer.reply != Reply::Ok(count) {
            return false;
        }
    }
    true
}
