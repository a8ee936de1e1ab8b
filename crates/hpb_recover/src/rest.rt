//! The frames behind the last batch.
ghost use Rattle.std.specs.Prelude.{◌≡◌, ◌-◌, ◌<◌, ◌≤◌, ℕ, Bool, true, false, length, slice_index_or, IfErr, IfOk};
ghost use Rattle.hpb_rules.specs.declared.limits.TheConstants.{MOST_COMMANDS};
ghost use Rattle.hpb_recover.specs.Causes.{HasCause, OnlyReads};
ghost use Rattle.hpb_recover.specs.Replaying.{AreGates, ReadsRest};

use crate::Cause;
use hpb_disk::Disk;
use hpb_journal::{Frame, Frames};
use hpb_tree::Definition;

/// Reads the frames behind those whose gates are known, and adds their gates. `false` if one of them is open with its
/// own index.
pub(crate) fn read_rest<D: Disk, F: Frames>(
    disk: &mut D,
    frames: &F,
    definition: &Definition,
    covered: u64,
    gates: &mut Vec<bool>,
) -> Result<bool, Cause>
    requires index { covered ≤ MOST_COMMANDS }
    requires most { length gates.old.items ≤ (F.layout frames.now).count }
    requires room { (F.layout frames.now).size ≤ length (D.device disk.old).seen }
    requires known { AreGates (F.layout frames.now) covered gates.old.items (D.device disk.old).seen }
    ensures rest { IfOk result (ReadsRest (F.layout frames.now) covered gates.old.items gates.new.items (D.device disk.old).seen) }
    ensures reads { OnlyReads result ((F.layout frames.now).count - length gates.old.items) (D.device disk.old) (D.device disk.new) }
    ensures cause { IfErr result (HasCause (D.device disk.old) (D.device disk.new)) }
{
    frames.laws();
    let start = covered + gates.len() as u64;
    let end = covered + u64::from(frames.count());
    for index in start..end {
        match frames.read_frame(disk, index, definition)? {
            Frame::Closed => gates.push(false)?,
            Frame::Other => gates.push(true)?,
            Frame::Damaged | Frame::Batch(_) => return Ok(false),
        }
    }
    Ok(true)
}

/// The place of the first open gate from a place on, or the number of gates.
pub(crate) fn first_open(gates: &[bool], from: usize) -> usize
    requires { from ≤ length gates.now }
    ensures from { from ≤ result }
    ensures to { result ≤ length gates.now }
    ensures shut { (k : ℕ) → from ≤ k → k < result → slice_index_or gates.now k false ≡ false }
    ensures open { result < length gates.now → slice_index_or gates.now result false ≡ true }
{
    for place in from..gates.len() {
        if gates[place] {
            return place;
        }
    }
    gates.len()
}
