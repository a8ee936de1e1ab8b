//! Tests that cross the crates of the auction and of the device: worked rows, calls that may need memory, and devices
//! that are made, changed and opened.
#![tactic(auto)]

#[cfg(test)]
mod commands;
#[cfg(test)]
mod definitions;
#[cfg(test)]
mod devices;
#[cfg(test)]
mod images;
#[cfg(test)]
mod memory;
#[cfg(test)]
mod rows_of_causes;
#[cfg(test)]
mod rows_of_desks;
#[cfg(test)]
mod rows_of_doubts;
#[cfg(test)]
mod rows_of_formatting;
#[cfg(test)]
mod rows_of_frames;
#[cfg(test)]
mod rows_of_journals;
#[cfg(test)]
mod rows_of_opening;
#[cfg(test)]
mod rows_of_reasons;
#[cfg(test)]
mod rows_of_saved;
#[cfg(test)]
mod rows_of_streams;
#[cfg(test)]
mod rows_of_sums;
#[cfg(test)]
mod talks;
