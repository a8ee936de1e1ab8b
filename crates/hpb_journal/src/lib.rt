//! The journal of a device: batches of commands in frames, each behind a gate of its own.
//!
//! The layers above know only `Frames`, and name no page, no cell and no offset. `PageFrames` keeps each frame in a
//! page of its own, `CellFrames` in three cells of 512 bytes. `AnyFrames` is one of the two, as a head names it.
#![tactic(auto)]

mod any;
mod cells;
mod frame;
mod frames;
mod laws;
mod layouts;
mod limits;
mod page;
mod pages;
mod three_cells;

pub use any::AnyFrames;
pub use cells::{CellFrames, write_cells};
pub use frame::Frame;
pub use frames::Frames;
pub use laws::{
    closed_shows_nothing, kept_goes_on, kept_is_cut, kept_is_one, kept_is_own, kept_stays,
    near_are_apart, open_or_closed,
};
pub use layouts::shapes_are_journal;
pub use limits::JOURNAL_AT;
pub use pages::PageFrames;
