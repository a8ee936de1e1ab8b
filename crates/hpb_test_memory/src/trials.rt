//! A call that is tried while a request for memory is refused: its arguments, its begin and end, and its result.
//!
//! Devices are in a file: such a device takes no memory once it is there.

mod bids;
mod came;
mod devices;
mod drafts;
mod marks;
mod started;
mod sums;
mod tried;

pub(crate) use bids::{events, letters};
pub(crate) use came::Came;
pub(crate) use devices::{FILE, file_sum, formatted, new_file, shape_of, size_of};
pub(crate) use drafts::{MOST, definition, draft};
pub(crate) use marks::{begin, end};
pub(crate) use started::{
    auction_and_file_sum, came_of, engine, engine_sum, is_sum, opened, opened_sum,
};
pub(crate) use sums::{sum_of, sum_of_auction, sum_of_definition, with_flags, with_numbers};
pub(crate) use tried::{Tried, auction_came, definition_came, tell};
