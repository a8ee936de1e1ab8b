//! Opening a device.
ghost use Rattle.std.specs.Prelude.{◌≡◌, ◌+◌, List, [], ◌∷◌, IfErr, IfOk, IsErrAnd, MatchResult, OnOk};
ghost use Rattle.hpb_rules.specs.declared.command.Command.{Command};
ghost use Rattle.hpb_rules.specs.AuctionValue.{Shows};
ghost use Rattle.hpb_recover.specs.declared.flaw.Flaw.{Flaw};
ghost use Rattle.hpb_recover.specs.Flaws.{HasFlaw};
ghost use Rattle.hpb_recover.specs.Standing.{Stands};
ghost use Rattle.hpb_recover.specs.Readings.{Found, Reads};
ghost use Rattle.hpb_disk.specs.Asked.Asked.{syncs};
ghost use Rattle.hpb_disk.specs.Device.{IsSettled, MakesCall};
ghost use Rattle.hpb_recover.specs.Causes.{ended_by, AsksMemory, IsCauseAt, IsMachine, IsUnlessMachine, OnlyReads};
ghost use Rattle.hpb_recover.specs.Plans.{HasClean, IsPlan, IsPlanOf};
ghost use Rattle.hpb_recover.specs.Quiet.{IsQuiet, reads_in};

use crate::checkpoint::{Checkpoint, read_checkpoint};
use crate::head::read_head;
use crate::journal::read_journal;
use crate::{
    Cause, Flaw, OpenFault, Opened, Plan, flaw_is_one, read_is_flawless, read_is_shown,
    reading_is_one, stands_is_read,
};
use hpb_codec::layout_is_named;
use hpb_disk::{Disk, DiskFailed};
use hpb_journal::AnyFrames;
use std::alloc::Global;

/// Syncs, so that a crash leaves the bytes that are read next.
fn settle<D: Disk>(disk: &mut D) -> Result<(), DiskFailed>
    ensures settled { OnOk result (IsSettled (D.device disk.new)) }
    ensures quiet { IsQuiet 1 (D.device disk.old) (D.device disk.new) }
    ensures call { MakesCall result (syncs ∷ []) (D.device disk.old) (D.device disk.new) }
{
    disk.sync()
}

/// Reads all of a device.
fn read_plan<D: Disk>(alloc: Global, disk: &mut D) -> Result<Plan, Cause>
    ensures found { IfOk result (λ plan. (found : Found) × Reads found (D.device disk.old).seen × IsPlanOf plan found) }
    ensures plan { IfOk result (λ plan. IsPlan plan (D.device disk.old).seen) }
    ensures reads { OnlyReads result (reads_in (D.device disk.old).seen) (D.device disk.old) (D.device disk.new) }
    ensures memory { IfErr result (AsksMemory (D.device disk.old).seen) }
    ensures cause { IfErr result (IsCauseAt (D.device disk.old) (D.device disk.new)) }
{
    reading_is_one();
    layout_is_named();
    let head = read_head(alloc, disk)?;
    let frames = AnyFrames::new(head.journal);
    let Checkpoint {
        newest,
        mut auction,
    } = match read_checkpoint(alloc, disk, &head.definition) {
        Ok(checkpoint) => checkpoint,
        Err(cause) => return Err(cause),
    };
    match read_journal(alloc, disk, &frames, newest.index, &mut auction) {
        Err(cause) => Err(cause),
        Ok(None) => Err(Cause::Flawed(Flaw::Frame)),
        Ok(Some(journal)) => Ok(Plan {
            frames,
            slot: newest.slot,
            other_open: newest.other_open,
            covered: newest.index,
            next: journal.next,
            clean_end: journal.clean_end,
            gates: journal.gates,
            auction,
        }),
    }
}

/// Opens a device: reads the newest checkpoint, and the batches behind it. It syncs first, and writes nothing. If it
/// fails, it hands the device back with the cause. For a flaw that is 40 `unformatted`, 42 `layout`, 44 `checkpoint` or
/// 45 `frame`; for the machine it is 90 `memory` or 91 `device`.
pub fn open<D: Disk + Drop>(alloc: Global, disk: D) -> Result<Opened<D>, OpenFault<D>>
    // If the bytes that a read gives stand for a history, the auction shows it, unless the device or memory fails.
    ensures shows { (history : List Command) → Stands history (D.device disk).seen → IfOk result (λ opened. Shows opened.plan.auction history) }
    ensures stands { (history : List Command) → Stands history (D.device disk).seen → IfErr result (λ fault. IsMachine fault.cause) }
    // The opened plan is that of the complete reading, whether the bytes stand for a history or not.
    ensures read { IfOk result (λ opened. (found : Found) × Reads found (D.device disk).seen × IsPlanOf opened.plan found) }
    // A flaw is reported if and only if the bytes have it, unless the device or memory fails. A failed device has
    // counted the failure.
    ensures refused { IfErr result (λ fault. IsCauseAt (D.device disk) (D.device fault.disk) fault.cause) }
    ensures exact { (flaw : Flaw) → HasFlaw flaw (D.device disk).seen → IsErrAnd result (λ fault. IsUnlessMachine flaw fault.cause) }
    // An opened device was read at the first try: no call has failed.
    ensures works { IfOk result (λ opened. (D.device opened.disk).failures ≡ (D.device disk).failures) }
    // No memory is asked for before the length and the head's gate were checked.
    ensures memory { IfErr result (λ fault. AsksMemory (D.device disk).seen fault.cause) }
    ensures clean { IfOk result (λ opened. HasClean opened.plan (D.device disk).seen) }
    // Nothing is written. A crash, within the call too, leaves nothing new. There are at most as
    // many calls as one sync and a read of each part.
    ensures quiet { MatchResult result
        (λ opened. IsQuiet (1 + reads_in (D.device disk).seen) (D.device disk) (D.device opened.disk))
        (λ fault. IsQuiet (1 + reads_in (D.device disk).seen) (D.device disk) (D.device fault.disk)) }
    // Besides reads there is that sync alone. One call failed if the device is the cause, and none otherwise.
    ensures asked { MatchResult result
        (λ opened. (D.device opened.disk).asked ≡ syncs ∷ (D.device disk).asked)
        (λ fault. (D.device fault.disk).asked ≡ ended_by fault.cause (syncs ∷ (D.device disk).asked)) }
{
    stands_is_read();
    read_is_shown();
    read_is_flawless();
    flaw_is_one();
    let mut disk = disk;
    match settle(&mut disk) {
        Ok(()) => {}
        Err(_) => {
            return Err(OpenFault {
                disk,
                cause: Cause::Device,
            });
        }
    }
    match read_plan(alloc, &mut disk) {
        Ok(plan) => Ok(Opened { disk, plan }),
        Err(cause) => Err(OpenFault { disk, cause }),
    }
}
