//! Formatting a device.
ghost use Rattle.std.specs.Prelude.{◌≡◌, ◌+◌, ◌≤◌, ◌↔◌, List, [], ◌∷◌, ℕ, length, IfOk, IfSome, IsNone, IsTrue, OnOk};
ghost use Rattle.hpb_codec.specs.declared.state.TheConstants.{STATE_SIZE};
ghost use Rattle.hpb_disk.specs.Asked.Asked.{syncs};
ghost use Rattle.hpb_disk.specs.Device.{IsSettled, IsUnchanged, LeavesOnly, MakesReads};
ghost use Rattle.hpb_recover.specs.Heads.{IsHeaded};
ghost use Rattle.hpb_codec.specs.declared.head.TheConstants.{HEAD_SIZE};
ghost use Rattle.hpb_recover.specs.declared.limits.TheConstants.{HEAD_AT, MAGIC_BYTES};
ghost use Rattle.hpb_format.specs.Beginnings.{IsFirstHead, IsFirstState};
ghost use Rattle.hpb_codec.specs.declared.layout.JournalShape.{JournalShape};
ghost use Rattle.hpb_journal.specs.Shapes.{shape_of};
ghost use Rattle.hpb_format.specs.Asking.{MakesCalls};
ghost use Rattle.hpb_format.specs.Outcomes.{answer_of, given, paged, FailsBy, FormatsAs, HasLength, Names};
ghost use Rattle.hpb_format.specs.declared.fault.FormatCause.TheVariants.{Length};

use crate::fault::{FormatCause, FormatFault};
use crate::new_device::NewDevice;
use crate::place::HEAD_GATE;
use crate::writing::write_new;
use hpb_codec::{JournalLayout, JournalShape, has_magic};
use hpb_disk::{Disk, DiskFailed, gate_is_open};
use hpb_journal::{AnyFrames, Frames};
use hpb_recover::{HEAD_AT, MAGIC_BYTES};
use hpb_slots::holds_one;
use hpb_tree::Definition;
use std::alloc::Global;

/// Whether the head's gate reads open, with the magic behind it.
fn is_headed<D: Disk>(disk: &mut D) -> Result<bool, DiskFailed>
    requires room { HEAD_AT + MAGIC_BYTES ≤ length (D.device disk.old).seen }
    ensures headed { IfOk result (λ is. IsTrue is ↔ IsHeaded (D.device disk.old).seen) }
    ensures unchanged { IsUnchanged (D.device disk.old) (D.device disk.new) }
    ensures reads { MakesReads result 2 (D.device disk.old) (D.device disk.new) }
{
    if !gate_is_open(disk, HEAD_GATE)? {
        return Ok(false);
    }
    let mut magic = [0; MAGIC_BYTES];
    disk.read_into(HEAD_AT, &mut magic)?;
    Ok(has_magic(&magic))
}

/// The frames of a journal of this shape, if it is allowed and a device of this length has room for exactly these.
fn frames_of(journal: JournalShape, len: usize) -> Option<AnyFrames>
    ensures found { IfSome result (λ found. (shape_of found ≡ journal) × ((image : List ℕ) → length image ≡ len → HasLength journal image)) }
    ensures none { IsNone result → (image : List ℕ) → length image ≡ len → HasLength journal image → ⊥ }
{
    if !journal.is_allowed() {
        return None;
    }
    let found = AnyFrames::new(journal);
    if len == found.device_len() {
        Some(found)
    } else {
        None
    }
}

/// Syncs, and reads whether the device is formatted.
fn settle_and_read<D: Disk>(disk: &mut D) -> Result<bool, DiskFailed>
    requires room { HEAD_AT + MAGIC_BYTES ≤ length (D.device disk.old).seen }
    ensures headed { IfOk result (λ is. IsTrue is ↔ IsHeaded (D.device disk.old).seen) }
    ensures seen { (D.device disk.new).seen ≡ (D.device disk.old).seen }
    ensures settled { OnOk result (IsSettled (D.device disk.new)) }
    ensures any_moment { LeavesOnly (D.device disk.old) (D.device disk.new) (D.device disk.old).may_leave }
    ensures calls { MakesCalls result (syncs ∷ []) (D.device disk.old) (D.device disk.new) }
{
    disk.sync()?;
    is_headed(disk)
}

/// Formats a device that has the length for these frames.
fn format_fitting<D: Disk>(
    disk: &mut D,
    frames: &AnyFrames,
    definition: &Definition,
    new: &NewDevice,
) -> Result<(), FormatCause>
    requires length { HasLength (shape_of frames.now) (D.device disk.old).seen }
    requires head { IsFirstHead definition.now (shape_of frames.now) new.now.head.items }
    requires head_size { length new.now.head.items ≡ HEAD_SIZE }
    requires state { IsFirstState definition.now new.now.state.items }
    requires state_size { length new.now.state.items ≡ STATE_SIZE }
    ensures { FormatsAs D.device definition.now (shape_of frames.now) disk.old disk.new result }
{
    frames.laws();
    holds_one();
    let Ok(headed) = settle_and_read(disk) else {
        return Err(FormatCause::Device);
    };
    if headed {
        return Err(FormatCause::Formatted);
    }
    match write_new(disk, frames, definition, new) {
        Ok(()) => Ok(()),
        Err(_) => Err(FormatCause::Device),
    }
}

/// Formats a device in place.
fn format_in_place<D: Disk>(
    alloc: Global,
    disk: &mut D,
    definition: &Definition,
    journal: JournalShape,
) -> Result<(), FormatCause>
    ensures { FormatsAs D.device definition.now journal disk.old disk.new result }
{
    let Some(frames) = frames_of(journal, disk.len()) else {
        return Err(FormatCause::Length);
    };
    let Ok(new) = NewDevice::new(alloc, definition, journal) else {
        return Err(FormatCause::Memory);
    };
    format_fitting(disk, &frames, definition, &new)
}

/// Formats a device with a journal of this shape.
fn format_shape<D: Disk + Drop>(
    alloc: Global,
    disk: D,
    definition: &Definition,
    journal: JournalShape,
) -> Result<D, FormatFault<D>>
    ensures { FormatsAs D.device definition.now journal disk (given result) (answer_of result) }
{
    let mut disk = disk;
    match format_in_place(alloc, &mut disk, definition, journal) {
        Ok(()) => Ok(disk),
        Err(cause) => Err(FormatFault { disk, cause }),
    }
}

/// Makes a device that stands for the auction of a definition before its first command. Its journal has `frames` frames
/// of a page each, 4 to 1,024. A device that wasn't formatted is handed back with the cause:
///
/// - 43 `length`: the number of frames is out of range, or the device doesn't have the length for them, 13 pages and
///   one for each frame;
/// - 90 `memory`: memory is refused; all of it is taken before the first call of the device;
/// - 41 `formatted`: the device is formatted already, which is known after a sync; nothing was written;
/// - 91 `device`: a call of the device failed.
///
/// It syncs, closes all gates that read open, syncs, writes head and first slot, syncs, opens the slot, syncs, opens
/// the head, and syncs. A crash at any moment of that leaves a device that isn't formatted, or the new one.
pub fn format<D: Disk + Drop>(
    alloc: Global,
    disk: D,
    definition: &Definition,
    frames: u32,
) -> Result<D, FormatFault<D>>
    ensures formats { FormatsAs D.device definition.now (paged frames) disk (given result) (answer_of result) }
{
    let layout = JournalLayout::Pages;
    format_shape(alloc, disk, definition, JournalShape { layout, frames })
}

/// Makes a device as `format` does, in the layout with this number. Layout 1 has a page for each frame, 4 to 1,024 of
/// them. Layout 2 has three cells for each frame, 16 to 1,024 of them, a multiple of 8. 43 `length` is also reported
/// for any other number of a layout.
pub fn format_layout<D: Disk + Drop>(
    alloc: Global,
    disk: D,
    definition: &Definition,
    frames: u32,
    layout: u8,
) -> Result<D, FormatFault<D>>
    // A number that names no layout is refused with 43, before any call of the device;
    ensures unnamed { ((journal : JournalShape) → Names layout frames journal → ⊥) → FailsBy (answer_of result) Length × (given result ≡ disk) }
    // with any other the device is formatted in that layout.
    ensures formats { (journal : JournalShape) → Names layout frames journal
        → FormatsAs D.device definition.now journal disk (given result) (answer_of result) }
{
    match JournalLayout::of_byte(layout) {
        Some(layout) => format_shape(alloc, disk, definition, JournalShape { layout, frames }),
        None => Err(FormatFault {
            disk,
            cause: FormatCause::Length,
        }),
    }
}
