//! The journal behind a checkpoint.
ghost use Rattle.std.specs.Prelude.{◌≤◌, length, IfErr, IfOk};
ghost use Rattle.hpb_rules.specs.declared.limits.TheConstants.{MOST_COMMANDS};
ghost use Rattle.hpb_recover.specs.Causes.{HasCause, OnlyReads};
ghost use Rattle.hpb_recover.specs.Replaying.{ReadsJournal};

use crate::Cause;
use crate::replay::replay;
use crate::rest::{first_open, read_rest};
use hpb_auction::Auction;
use hpb_disk::Disk;
use hpb_journal::Frames;
use std::alloc::Global;

/// The contents of a journal behind a checkpoint.
#[derive(Drop)]
pub(crate) struct Journal {
    /// The index after the last batch.
    pub(crate) next: u64,
    /// The end of the clean frames.
    pub(crate) clean_end: u64,
    /// Whether the gate is open, for each frame from that of the checkpoint's index on.
    pub(crate) gates: Vec<bool>,
}

/// Takes the batches of a journal into the auction of a checkpoint, and reads the frames behind them. `None` if a frame
/// is damaged.
pub(crate) fn read_journal<D: Disk, F: Frames>(
    alloc: Global,
    disk: &mut D,
    frames: &F,
    covered: u64,
    auction: &mut Auction,
) -> Result<Option<Journal>, Cause>
    requires index { covered ≤ MOST_COMMANDS }
    requires room { (F.layout frames.now).size ≤ length (D.device disk.old).seen }
    ensures journal { IfOk result (ReadsJournal (F.layout frames.now) covered auction.old (D.device disk.old).seen auction.new) }
    ensures reads { OnlyReads result (F.layout frames.now).count (D.device disk.old) (D.device disk.new) }
    ensures cause { IfErr result (HasCause (D.device disk.old) (D.device disk.new)) }
{
    frames.laws();
    let mut gates = Vec::new(alloc);
    let Some(next) = replay(disk, frames, covered, auction, &mut gates)? else {
        return Ok(None);
    };
    if !read_rest(disk, frames, auction.definition(), covered, &mut gates)? {
        return Ok(None);
    }
    let clean = first_open(gates.as_slice(), (next - covered) as usize);
    Ok(Some(Journal {
        next,
        clean_end: covered + clean as u64,
        gates,
    }))
}
