//! Tickets and amounts of commands that look random, most of which are accepted.
ghost use Rattle.std.specs.Prelude.{◌<◌};

use crate::random::Random;
use hpb_auction::Auction;
use hpb_rules::{Accepted, Command, NodeId, Saved};

/// Mostly the next ticket behind `ahead` commands without an answer. Three in `chances` times it is another one.
pub(crate) fn ticket_after(
    random: &mut Random,
    last: Option<Accepted>,
    ahead: u32,
    chances: u32,
) -> u32
    requires { 0 < chances }
{
    let last = match last {
        Some(accepted) => ticket_of(&accepted.command),
        None => 0,
    };
    match random.below(chances) {
        0 => last,
        1 => last.saturating_add(ahead).saturating_add(2),
        2 => random.below(last.max(1)),
        _ => last.saturating_add(ahead).saturating_add(1),
    }
}

fn ticket_of(command: &Command) -> u32 {
    match command {
        Command::Bid { ticket, .. } => *ticket,
        Command::Close { ticket } => *ticket,
        Command::Stage { ticket } => *ticket,
        Command::Waive { ticket, .. } => *ticket,
    }
}

/// Whether there is a bid of the open round.
pub(crate) fn has_bid(saved: &Saved) -> bool {
    saved.nodes.iter().any(|node| node.incoming.is_some())
}

/// The least amount for a node.
pub(crate) fn minimum(auction: &Auction, node: usize) -> u64 {
    if node < auction.definition().node_count() {
        auction.node_view(NodeId::new(node)).minimum
    } else {
        0
    }
}

/// Mostly the minimum, or a little more. At times it is far too much, if that is allowed.
pub(crate) fn amount(random: &mut Random, minimum: u64, may_be_high: bool) -> u64 {
    let pick = if may_be_high {
        random.below(14)
    } else {
        random.below(12)
    };
    match pick {
        0 => u64::from(random.below(1_000)),
        1 if may_be_high => 1_000_000_000_000 + u64::from(random.below(3)) * 10,
        more if may_be_high => minimum.saturating_add(u64::from(more / 5) * 10),
        more => minimum.saturating_add(u64::from(more / 4) * 10),
    }
}
