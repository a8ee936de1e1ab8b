//! Sessions whose auction is kept on a device, with their commits and checkpoints.
//!
//! `commit` and `checkpoint` take an engine from rest to rest, turn by turn and step by step. `commit_letters` commits
//! a batch of letters. `make_checkpoint` makes a whole checkpoint, also for a batch that finds the journal full.
//!
//! Five modules make the session. `session` has its streams and its pace. `replies` turns commands into letters and
//! answers into replies. `asking` has the engine commit the commands of a desk, and `counting` says when a checkpoint is
//! due. `DeviceDesk` is the desk that `run_device` serves.
#![tactic(auto)]

mod asking;
mod checkpoint;
mod commit;
mod counting;
mod desk;
mod laws;
mod replies;
mod running;
mod session;

pub use checkpoint::make_checkpoint;
pub use commit::{Ended, commit_letters};
pub use desk::DeviceDesk;
pub use laws::{device_input_is_text, device_session_is_text};
pub use running::{Ran, run_device, run_engine};
pub use session::{Pace, Session};
