//! Findings that no honest device has, though it opens: they show that its newest checkpoint was damaged.
ghost use Rattle.std.specs.Prelude.{◌≡◌, ℕ, List, [], MatchBool, ◌+◌, ◌≤◌, IfErr, IfOk};
ghost use Rattle.hpb_disk.specs.Device.{MakesReads};
ghost use Rattle.hpb_recover.specs.Causes.{HasCause, OnlyReads};
ghost use Rattle.hpb_journal.specs.Frames.{IsOwn, IsRead};
ghost use Rattle.hpb_recover.specs.Doubts.{IsFrameTold, IsSlotTold};
ghost use Rattle.hpb_recover.specs.Plans.{IsPlan, layout_in};
ghost use Rattle.hpb_recover.specs.Quiet.{IsQuiet};

use crate::checkpoint::nothing_saved;
use crate::{Cause, Plan};
use hpb_codec::STATE_SIZE;
use hpb_disk::{Disk, DiskFailed};
use hpb_journal::{Frame, Frames};
use hpb_slots::read_broken;
use std::alloc::Global;

/// A frame that is open with an index past the room of the checkpoint that was opened.
#[derive(Drop)]
pub struct Later {
    /// The index of its batch.
    pub index: u64,
    /// What a reader of that batch finds: the batch, or that it is damaged.
    pub frame: Frame,
}

/// Findings on a device that no honest device has. A checkpoint newer than the opened one was damaged after it counted,
/// so acknowledged commands may be missing.
#[derive(Drop)]
pub struct Doubts {
    /// If the other slot is open and its body spells no state: the count of accepted commands in its bytes, which may
    /// be wrong.
    pub slot: Option<u32>,
    /// The last of the frames that are open with a batch past the room of the opened checkpoint.
    pub frame: Option<Later>,
}

/// Looks for findings on an opened device that no honest device has. They are a slot that is open and spells no state,
/// and a frame that is open with an index past the room of the opened checkpoint. It only reads, each of the frames and
/// the other slot once.
pub fn find_doubts<D: Disk>(alloc: Global, disk: &mut D, plan: &Plan) -> Result<Doubts, Cause>
    requires { IsPlan plan.now (D.device disk.old).seen }
    ensures slot { IfOk result (λ doubts. IsSlotTold plan.now (D.device disk.old).seen doubts.slot) }
    ensures frame { IfOk result (λ doubts. IsFrameTold plan.now (D.device disk.old).seen doubts.frame) }
    // No write and no sync is asked for.
    ensures reads { OnlyReads result (2 + (layout_in plan.now).count) (D.device disk.old) (D.device disk.new) }
    ensures cause { IfErr result (HasCause (D.device disk.old) (D.device disk.new)) }
{
    let mut body = vec![in alloc; 0; STATE_SIZE]?;
    let mut saved = nothing_saved();
    let slot = read_broken(
        disk,
        plan.slot.other(),
        plan.auction.definition(),
        &mut body,
        &mut saved,
    )?;
    let frame = find_later(disk, plan)?;
    Ok(Doubts { slot, frame })
}

/// Whether a frame is open with the index that it was read with.
fn is_own(plan: &Plan, frame: &Frame) -> bool
    ensures { (index : ℕ) (image : List ℕ) → IsRead (layout_in plan.now) plan.now.auction.rules index image frame.now
        → MatchBool result (IsOwn (layout_in plan.now) index image) (IsOwn (layout_in plan.now) index image → ⊥) }
{
    plan.frames.laws();
    match frame {
        Frame::Closed | Frame::Other => false,
        Frame::Damaged => true,
        Frame::Batch(_) => true,
    }
}

/// The last frame that is open with an index past the room of the checkpoint that was opened.
#[tactic(auto, using(crate::proofs::Doubting::kept_on, crate::proofs::Doubting::latest))]
fn find_later<D: Disk>(disk: &mut D, plan: &Plan) -> Result<Option<Later>, DiskFailed>
    requires { IsPlan plan.now (D.device disk.old).seen }
    ensures frame { IfOk result (IsFrameTold plan.now (D.device disk.old).seen) }
    ensures quiet { IsQuiet (layout_in plan.now).count (D.device disk.old) (D.device disk.new) }
    ensures reads { MakesReads result (layout_in plan.now).count (D.device disk.old) (D.device disk.new) }
{
    let frames = &plan.frames;
    frames.laws();
    let count = u64::from(frames.count());
    let start = plan.covered + count;
    let mut latest = None;
    for index in start..start + count {
        let frame = frames.read_frame(disk, index, plan.auction.definition())?;
        if is_own(plan, &frame) {
            latest = Some(Later { index, frame });
        }
    }
    Ok(latest)
}
