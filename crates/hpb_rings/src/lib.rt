//! The rings between the clients of a house and its committer: posting letters, gathering them, and taking their
//! answers.
//!
//! Each seat has a ring for 16 letters and a ring for one halt. A client posts letters, which the intake gathers with
//! those of the other seats. The answers come through the published auction. The client takes them in order, and each
//! must be for the oldest letter that waits. If the committer halts, every seat gets one halt. A client that is done
//! sends an end mark behind its letters. No call waits but `Client::wait`, and none but `seat_rings` takes memory.
#![tactic(auto)]

mod client;
mod intake;
mod report;
mod ring;
mod slip;
mod viewing;
mod waiting;

pub use client::Client;
pub use intake::Intake;
pub use report::Report;
pub use ring::{Ends, Ring, seat_rings};
pub use slip::Slip;
pub use waiting::Waiting;

#[cfg(test)]
mod tests;
