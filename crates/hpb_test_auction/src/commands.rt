//! Commands by the places of bidders and nodes.
ghost use Rattle.std.specs.Prelude.{◌<◌};

use hpb_rules::{BidderId, Command, NodeId};
use std::alloc::{AllocError, Global};

/// The bidders.
pub(crate) const X: usize = 0;

pub(crate) const Y: usize = 1;

pub(crate) const Z: usize = 2;

pub(crate) const W: usize = 3;

/// A package, and the four licences.
pub(crate) const ALL: usize = 0;

pub(crate) const A: usize = 2;

pub(crate) const B: usize = 3;

pub(crate) const C: usize = 4;

pub(crate) const D: usize = 5;

pub(crate) fn bid(bidder: usize, ticket: u32, node: usize, amount: u64) -> Command
    requires bidder { bidder < 64 }
    requires node { node < 127 }
{
    Command::Bid {
        bidder: BidderId::new(bidder),
        ticket,
        node: NodeId::new(node),
        amount,
    }
}

pub(crate) fn close(ticket: u32) -> Command {
    Command::Close { ticket }
}

/// A first round in which a package beats its parts, and a bid in the second by which these win.
pub(crate) fn first_round() -> [Command; 6] {
    [
        bid(X, 1, A, 100),
        bid(Y, 1, B, 150),
        bid(Z, 1, ALL, 500),
        bid(W, 1, C, 100),
        close(1),
        bid(W, 2, C, 250),
    ]
}

/// 129 rounds of 8 commands, in which all bidders bid on all licences for which they have units.
pub(crate) fn many_rounds(alloc: Global) -> Result<Vec<Command>, AllocError> {
    let mut commands = Vec::new(alloc);
    let mut amount = 100_u64;
    for round in 0_u8..129 {
        let round = u32::from(round);
        for command in [
            bid(X, round + 1, A, amount),
            bid(Y, round + 1, B, amount),
            bid(Z, 3 * round + 1, C, amount),
            bid(W, 2 * round + 1, D, amount),
            bid(Z, 3 * round + 2, A, amount),
            bid(Z, 3 * round + 3, B, amount),
            bid(W, 2 * round + 2, C, amount),
            close(round + 1),
        ] {
            commands.push(command)?;
        }
        // A tenth more, in steps of 10.
        amount = amount.wrapping_add(amount / 100 * 10).wrapping_add(10);
    }
    Ok(commands)
}

/// The first `count` commands of a list.
pub(crate) fn front(commands: &[Command], count: u16) -> &[Command] {
    &commands[..commands.len().min(usize::from(count))]
}
