//! Tests of the engine over devices, with their parts: letters, devices and the calls of an engine.
#![tactic(auto)]

pub mod calls;
pub mod devices;
pub mod expecting;
pub mod letters;
#[cfg(test)]
mod rows_of_batches;
#[cfg(test)]
mod rows_of_old_devices;
#[cfg(test)]
mod rows_of_stops;
pub mod states;
