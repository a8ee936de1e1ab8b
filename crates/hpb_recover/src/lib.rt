//! The meaning of a device's image, and the opening of a device by it: the newest checkpoint, and the batches behind
//! it.
//!
//! `specs/Standing` says in histories what an image stands for. `specs/Readings` says the same in values alone.
//! `specs/Flaws` says why an image can't be read. The laws of images tie the three together.
#![tactic(auto)]

mod cause;
mod checkpoint;
mod doubts;
mod fault;
mod flaw;
mod head;
mod journal;
mod laws;
mod laws_of_images;
mod limits;
mod opened;
mod opening;
mod plan;
mod replay;
mod rest;

pub use cause::Cause;
pub use doubts::{Doubts, Later, find_doubts};
pub use fault::OpenFault;
pub use flaw::Flaw;
pub use laws::limits_are;
pub use laws_of_images::{
    flaw_is_one, read_is_flawless, read_is_shown, reading_is_one, stands_for_one, stands_is_read,
};
pub use limits::{HEAD_AT, LEAST_PAGES, MAGIC_BYTES};
pub use opened::Opened;
pub use opening::open;
pub use plan::Plan;
