//! Calls that make auctions.

use crate::trials::{
    Came, Tried, auction_came, begin, definition, end, sum_of_auction, sum_of_definition,
};
use anyhow::Result;
use hpb_auction::{Auction, Run, run_commands};
use hpb_rules::{BidderId, Command, NodeId, Refusal};
use hpb_tree::Definition;
use std::alloc::{AllocError, Global};

/// Tries `Auction::new`.
pub(crate) fn new(rt: &HostRuntime, nodes: u64) -> Result<Tried> {
    let alloc = rt.alloc();
    let definition = definition(alloc, nodes)?;
    let given = sum_of_definition(alloc, &definition)?;
    begin(rt)?;
    let made = Auction::new(alloc, &definition);
    end(rt)?;
    Ok(Tried {
        first: auction_came(alloc, made)?,
        is_same: sum_of_definition(alloc, &definition)? == given,
        again: auction_came(alloc, Auction::new(alloc, &definition))?,
    })
}

/// A bid of each bidder on a node of its own, and the end of the round.
fn commands(alloc: Global, definition: &Definition) -> Result<Vec<Command>, AllocError> {
    let mut commands = Vec::new(alloc);
    for place in 0..definition.bidder_count() {
        commands.push(Command::Bid {
            bidder: BidderId::new(place),
            ticket: 1,
            node: NodeId::new(
                definition
                    .node_count()
                    .saturating_sub(1)
                    .saturating_sub(place),
            ),
            amount: 1_000,
        })?;
    }
    commands.push(Command::Close { ticket: 1 })?;
    Ok(commands)
}

/// An auction of this many nodes in its second round.
fn played(alloc: Global, nodes: u64) -> Result<Auction> {
    let definition = definition(alloc, nodes)?;
    let commands = commands(alloc, &definition)?;
    let Run { auction, .. } = run_commands(alloc, &definition, &commands)?;
    Ok(auction)
}

/// Tries `Auction::copy`, on an auction in its second round.
pub(crate) fn copy(rt: &HostRuntime, nodes: u64) -> Result<Tried> {
    let auction = played(rt.alloc(), nodes)?;
    copy_of(rt, &auction)
}

fn copy_of(rt: &HostRuntime, auction: &Auction) -> Result<Tried> {
    let alloc = rt.alloc();
    let given = sum_of_auction(alloc, auction)?;
    begin(rt)?;
    let made = auction.copy(alloc);
    end(rt)?;
    Ok(Tried {
        first: auction_came(alloc, made)?,
        is_same: sum_of_auction(alloc, auction)? == given,
        again: auction_came(alloc, auction.copy(alloc))?,
    })
}

fn ran(alloc: Global, made: Result<Run, AllocError>) -> Result<Came, AllocError> {
    match made {
        Ok(run) => {
            let auction = sum_of_auction(alloc, &run.auction)?;
            let accepted = run.replies.len() as u64;
            Ok(Came::Well(auction ^ accepted))
        }
        Err(_) => Ok(Came::Refused(Refusal::Memory)),
    }
}

/// Tries `run_commands`, with a bid of each bidder and the end of the round.
pub(crate) fn run(rt: &HostRuntime, nodes: u64) -> Result<Tried> {
    let alloc = rt.alloc();
    let definition = definition(alloc, nodes)?;
    let commands = commands(alloc, &definition)?;
    let given = sum_of_definition(alloc, &definition)?;
    begin(rt)?;
    let made = run_commands(alloc, &definition, &commands);
    end(rt)?;
    Ok(Tried {
        first: ran(alloc, made)?,
        is_same: sum_of_definition(alloc, &definition)? == given,
        again: ran(alloc, run_commands(alloc, &definition, &commands))?,
    })
}
