//! The call that starts a house.
ghost use Rattle.std.specs.Prelude.{◌≤◌};
ghost use Rattle.hpb_rules.specs.declared.limits.TheConstants.{MOST_SEATS};

use crate::trials::{
    Came, Tried, auction_and_file_sum, begin, came_of, end, is_sum, opened, opened_sum,
};
use anyhow::Result;
use hpb_disk::FileDisk;
use hpb_house::{House, StartFault, StartPart, Started};
use hpb_recover::Opened;
use std::sync::Wait;

/// A call that was made, and the part that was refused the first time, if one was.
pub(crate) struct Begun {
    pub(crate) tried: Tried,
    pub(crate) part: Option<StartPart>,
}

/// How many sessions there are: 32 over a definition of one node, and two over any other.
fn sessions_of(nodes: u64) -> u8
    ensures { (1 ≤ result) × (result ≤ MOST_SEATS) }
{
    if nodes == 1 { 32 } else { 2 }
}

/// The result of a call that starts a house: the sum of all that it shows and keeps, and how many clients it has.
fn came<W: Wait + Drop>(
    rt: &HostRuntime,
    made: Result<Started<FileDisk, W>, StartFault<FileDisk>>,
) -> Came {
    match made {
        Ok(started) => came_of(started_sum(rt, &started)),
        Err(fault) => Came::Refused(fault.cause().refusal()),
    }
}

/// The sum of the auction that a house shows and has committed, of the file, and of the number of clients.
fn started_sum<W: Wait + Drop>(rt: &HostRuntime, started: &Started<FileDisk, W>) -> Option<u64> {
    let shown = auction_and_file_sum(rt, started.eye.auction())?;
    let committed = auction_and_file_sum(rt, started.keeper.committed())?;
    let clients = started.clients.len() as u64;
    Some(
        shown
            .wrapping_mul(3)
            .wrapping_add(committed)
            .wrapping_add(clients),
    )
}

/// Tries `House::start`, over a new device of an auction of this many nodes.
pub(crate) fn start<W: Wait>(rt: &HostRuntime, waits: &W, nodes: u64, layout: u8) -> Result<Begun> {
    let opened = opened(rt, nodes, layout)?;
    Ok(start_marked(rt, waits, opened, sessions_of(nodes)))
}

/// Starts a house between the marks. If that is refused, the opened device is handed back, and a house is started over
/// it once more.
fn start_marked<W: Wait>(
    rt: &HostRuntime,
    waits: &W,
    opened: Opened<FileDisk>,
    sessions: u8,
) -> Begun
    requires { (1 ≤ sessions) × (sessions ≤ MOST_SEATS) }
{
    let given = opened_sum(rt, &opened);
    let _ = begin(rt);
    let made = House::start(waits, rt.alloc(), opened, sessions);
    let _ = end(rt);
    match made {
        Ok(started) => Begun {
            tried: Tried::well(came_of(started_sum(rt, &started))),
            part: None,
        },
        Err(fault) => start_again(rt, waits, fault, given, sessions),
    }
}

/// Checks that the opened device that was handed back is unchanged, and starts a house over it.
fn start_again<W: Wait>(
    rt: &HostRuntime,
    waits: &W,
    fault: StartFault<FileDisk>,
    given: Option<u64>,
    sessions: u8,
) -> Begun
    requires { (1 ≤ sessions) × (sessions ≤ MOST_SEATS) }
{
    let first = Came::Refused(fault.cause().refusal());
    let StartFault { opened, part } = fault;
    let is_same = is_sum(opened_sum(rt, &opened), given);
    let made = House::start(waits, rt.alloc(), opened, sessions);
    let tried = Tried {
        first,
        is_same,
        again: came(rt, made),
    };
    Begun {
        tried,
        part: Some(part),
    }
}
