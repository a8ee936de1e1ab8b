//! Reading the newest checkpoint.
ghost use Rattle.std.specs.Prelude.{◌≡◌, ◌↔◌, ◌+◌, ◌≤◌, [], List, ℕ, length, IfOk, IsTrue, MatchOption};
ghost use Rattle.hpb_rules.specs.Tree.{Rules};
ghost use Rattle.hpb_rules.specs.declared.saved.Saved.{Saved};
ghost use Rattle.hpb_codec.specs.declared.state.TheConstants.{STATE_SIZE};
ghost use Rattle.hpb_disk.specs.Device.{IsUnchanged, MakesCall, MakesReads};
ghost use Rattle.hpb_slots.specs.declared.limits.TheConstants.{SLOTS_END};
ghost use Rattle.hpb_slots.specs.declared.slot.Slot.TheVariants.{First, Second};
ghost use Rattle.hpb_slots.specs.Slots.{IsOpen};
ghost use Rattle.hpb_slots.specs.Newest.{IsWithout, IsRead};
ghost use Rattle.hpb_slots.specs.Reading.{IsFound, IsChosen, IsToldOf, state_of_slot};

use crate::found::Found;
use crate::writing::gate_offset;
use crate::{Newest, Slot, holds_one};
use hpb_codec::{PAGE_BYTES, count_said, decode_state};
use hpb_disk::{Disk, DiskFailed, gate_is_open};
use hpb_rules::Saved;
use hpb_tree::Definition;

/// Reads whether the gate of a slot is open.
pub fn slot_is_open<D: Disk>(disk: &mut D, slot: Slot) -> Result<bool, DiskFailed>
    requires room { SLOTS_END ≤ length (D.device disk.old).seen }
    ensures open { IfOk result (λ is_open. IsTrue is_open ↔ IsOpen slot (D.device disk.old).seen) }
    ensures unchanged { IsUnchanged (D.device disk.old) (D.device disk.new) }
    ensures call { MakesCall result [] (D.device disk.old) (D.device disk.new) }
{
    gate_is_open(disk, gate_offset(slot))
}

/// Reads one slot. Its state, if it has one, is put into `saved`.
fn read_slot<D: Disk>(
    disk: &mut D,
    slot: Slot,
    definition: &Definition,
    body: &mut [u8],
    saved: &mut Saved,
) -> Result<Found, DiskFailed>
    requires room { SLOTS_END ≤ length (D.device disk.old).seen }
    requires body { length body.old ≡ STATE_SIZE }
    ensures found { IfOk result (λ found. IsFound definition.now slot (D.device disk.old).seen saved.new found) }
    ensures unchanged { IsUnchanged (D.device disk.old) (D.device disk.new) }
    ensures reads { MakesReads result 2 (D.device disk.old) (D.device disk.new) }
{
    if !slot_is_open(disk, slot)? {
        return Ok(Found {
            is_open: false,
            index: None,
        });
    }
    disk.read_into(gate_offset(slot) + PAGE_BYTES, body)?;
    Ok(Found {
        is_open: true,
        index: decode_state(body, definition, saved),
    })
}

/// Whether a slot is open with a body that spells no state. No honest device leaves that: a slot's gate is opened once
/// its body is whole. If so, the answer has the count of accepted commands in the body's bytes, which may be wrong.
/// `body` and `saved` are room for a state.
pub fn read_broken<D: Disk>(
    disk: &mut D,
    slot: Slot,
    definition: &Definition,
    body: &mut [u8],
    saved: &mut Saved,
) -> Result<Option<u32>, DiskFailed>
    requires room { SLOTS_END ≤ length (D.device disk.old).seen }
    requires body { length body.old ≡ STATE_SIZE }
    ensures broken { IfOk result (IsToldOf definition.now slot (D.device disk.old).seen) }
    ensures unchanged { IsUnchanged (D.device disk.old) (D.device disk.new) }
    ensures reads { MakesReads result 2 (D.device disk.old) (D.device disk.new) }
{
    let is_open = slot_is_open(disk, slot)?;
    if !is_open {
        return Ok(None);
    }
    disk.read_into(gate_offset(slot) + PAGE_BYTES, body)?;
    match decode_state(body, definition, saved) {
        Some(_) => Ok(None),
        None => Ok(Some(count_said(body))),
    }
}

/// The slot with the greater index among those that hold a state. If both have the same index, the first.
fn choose(first: Found, second: Found) -> Option<Newest>
    ensures { (rules : Rules) (image : List ℕ) (one other : Saved) → IsFound rules First image one first → IsFound rules Second image other second
        → MatchOption result (IsWithout rules image) (IsChosen rules image one other) }
{
    holds_one();
    match (first.index, second.index) {
        (None, None) => None,
        (Some(index), None) => Some(Newest {
            slot: Slot::First,
            index,
            other_open: second.is_open,
        }),
        (None, Some(index)) => Some(Newest {
            slot: Slot::Second,
            index,
            other_open: first.is_open,
        }),
        (Some(one), Some(other)) => {
            if other <= one {
                Some(Newest {
                    slot: Slot::First,
                    index: one,
                    other_open: second.is_open,
                })
            } else {
                Some(Newest {
                    slot: Slot::Second,
                    index: other,
                    other_open: first.is_open,
                })
            }
        }
    }
}

// Takes over the second slot's state if it is the chosen one.
fn take(slot: Slot, saved: &mut Saved, later: &Saved)
    ensures { saved.new ≡ state_of_slot slot saved.old later.now }
{
    match slot {
        Slot::First => {}
        Slot::Second => *saved = *later,
    }
}

/// Reads both slots, each page once, and puts the newest state into `saved`. A slot holds a state if its gate is open
/// and its body spells a state under the definition. The newest covers more batches; if both cover equally many, it is
/// the first. `None` if no slot holds a state. Then, and if the device failed, the contents of `saved` are of no use.
/// `body` is room for a state's body.
pub fn read_newest<D: Disk>(
    disk: &mut D,
    definition: &Definition,
    body: &mut [u8],
    saved: &mut Saved,
) -> Result<Option<Newest>, DiskFailed>
    requires room { SLOTS_END ≤ length (D.device disk.old).seen }
    requires body { length body.old ≡ STATE_SIZE }
    ensures newest { IfOk result (λ newest. IsRead definition.now (D.device disk.old).seen saved.new newest) }
    ensures unchanged { IsUnchanged (D.device disk.old) (D.device disk.new) }
    // Two reads for each slot.
    ensures reads { MakesReads result 4 (D.device disk.old) (D.device disk.new) }
{
    let first = read_slot(disk, Slot::First, definition, body, saved)?;
    let mut later = *saved;
    let second = read_slot(disk, Slot::Second, definition, body, &mut later)?;
    match choose(first, second) {
        None => Ok(None),
        Some(newest) => {
            take(newest.slot, saved, &later);
            Ok(Some(newest))
        }
    }
}
