//! The slots of a device: two places for a checkpoint, of which the newest whole one counts.
//!
//! A checkpoint is written into the slot that isn't the newest, in these steps: `close_slot`, a sync, `write_chunk`
//! four times, a sync, `open_slot`, and a sync.
#![tactic(auto)]

mod found;
mod laws;
mod limits;
mod newest;
mod reading;
mod slot;
mod writing;

pub use laws::{chunks_are_whole, holds_one, newest_is_one, open_or_closed, slots_stay};
pub use limits::{SLOTS_AT, SLOTS_END};
pub use newest::Newest;
pub use reading::{read_broken, read_newest, slot_is_open};
pub use slot::Slot;
pub use writing::{close_slot, open_slot, write_chunk};
