//! An opened device, an engine over it, and their sums.

use super::{Came, file_sum, formatted, sum_of, sum_of_auction, with_flags, with_numbers};
use anyhow::{Error, Result, bail};
use hpb_auction::Auction;
use hpb_disk::{Disk, FileDisk};
use hpb_engine::{Checkpoint, Commit, Engine, Progress, Retirement, Window};
use hpb_recover::{Opened, Plan, open};
use hpb_rules::Refusal;
use std::alloc::{AllocError, Global};

/// Opens a new device.
fn open_new<D: Disk + Drop>(alloc: Global, disk: D) -> Result<Opened<D>> {
    match open(alloc, disk) {
        Ok(opened) => Ok(opened),
        Err(fault) => Err(Error::from(fault.cause)),
    }
}

/// A new file of an auction of this many nodes, opened.
pub(crate) fn opened(rt: &HostRuntime, nodes: u64, layout: u8) -> Result<Opened<FileDisk>> {
    let disk = formatted(rt, nodes, layout)?;
    open_new(rt.alloc(), disk)
}

/// An engine over such a file.
pub(crate) fn engine(rt: &HostRuntime, nodes: u64, layout: u8) -> Result<Engine<FileDisk>> {
    let opened = opened(rt, nodes, layout)?;
    match Engine::start(rt.alloc(), opened) {
        Ok(engine) => Ok(engine),
        Err(_) => bail!("memory was refused"),
    }
}

/// The sum of an auction, and of the file.
pub(crate) fn auction_and_file_sum(rt: &HostRuntime, auction: &Auction) -> Option<u64> {
    match (file_sum(rt), sum_of_auction(rt.alloc(), auction)) {
        (Some(file), Ok(auction)) => Some(file ^ auction),
        _ => None,
    }
}

/// The sum of an opened device's plan, beside its auction.
fn plan_sum(alloc: Global, plan: &Plan) -> Result<u64, AllocError> {
    let Plan {
        frames,
        slot,
        other_open,
        covered,
        next,
        clean_end,
        gates,
        ..
    } = plan;
    let names = format!(in alloc; "{frames:?} {slot:?}")?;
    let numbers = [*other_open as u64, *covered, *next, *clean_end];
    let sum = with_numbers(sum_of(names.as_bytes()), &numbers);
    Ok(with_flags(sum, gates))
}

/// The sum of an auction, of the file, and of what stands beside them.
fn sum_with(rt: &HostRuntime, auction: &Auction, beside: Result<u64, AllocError>) -> Option<u64> {
    match (auction_and_file_sum(rt, auction), beside) {
        (Some(sum), Ok(beside)) => Some(sum.wrapping_add(beside)),
        _ => None,
    }
}

/// The sum of all that opening gave, and of the file.
pub(crate) fn opened_sum(rt: &HostRuntime, opened: &Opened<FileDisk>) -> Option<u64> {
    sum_with(rt, opened.auction(), plan_sum(rt.alloc(), &opened.plan))
}

/// The sum of an engine's journal.
fn window_sum(alloc: Global, window: &Window) -> Result<u64, AllocError> {
    let Window {
        frames,
        covered,
        next,
        clean_end,
        opened_at,
        gates,
    } = window;
    let names = format!(in alloc; "{frames:?}")?;
    let numbers = [*covered, *next, *clean_end, *opened_at];
    let sum = with_numbers(sum_of(names.as_bytes()), &numbers);
    Ok(with_flags(sum, gates))
}

/// The sum of an engine's checkpoint, and of its retirement of frames.
fn checkpoint_sum(alloc: Global, progress: &Progress) -> Result<u64, AllocError> {
    let Checkpoint {
        newest,
        other_open,
        steps,
        covers,
        body,
    } = &progress.checkpoint;
    let Retirement { going, upto } = &progress.retirement;
    let names = format!(in alloc; "{newest:?}")?;
    let numbers = [
        *other_open as u64,
        u64::from(*steps),
        *covers,
        sum_of(body),
        *going as u64,
        *upto,
    ];
    Ok(with_numbers(sum_of(names.as_bytes()), &numbers))
}

/// The sum of an engine, beside the auction that it has committed.
fn beside_sum(alloc: Global, engine: &Engine<FileDisk>) -> Result<u64, AllocError> {
    let Engine {
        progress,
        failed,
        ..
    } = engine;
    let Commit { busy, turns, .. } = &progress.commit;
    let numbers = [
        window_sum(alloc, &progress.window)?,
        checkpoint_sum(alloc, progress)?,
        *busy as u64,
        u64::from(*turns),
        sum_of_auction(alloc, &progress.commit.working)?,
        *failed as u64,
    ];
    Ok(with_numbers(sum_of(&[]), &numbers))
}

/// The sum of an engine at rest, and of the file.
pub(crate) fn engine_sum(rt: &HostRuntime, engine: &Engine<FileDisk>) -> Option<u64> {
    sum_with(rt, engine.committed(), beside_sum(rt.alloc(), engine))
}

/// Whether a sum is there and equals the given one.
pub(crate) fn is_sum(found: Option<u64>, given: Option<u64>) -> bool {
    found.is_some() && found == given
}

/// The result of a call that succeeded, by the sum of its results. Without a sum it is `stream`, by which no call here
/// is refused.
pub(crate) fn came_of(sum: Option<u64>) -> Came {
    match sum {
        Some(sum) => Came::Well(sum),
        None => Came::Refused(Refusal::Stream),
    }
}
