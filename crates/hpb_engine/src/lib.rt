//! The engine: an auction on a device. It acknowledges commands once they are on the device, and never loses one.
//!
//! The one-call promise is stated for `drive_then_open`: after any stop of a run, the device shows all commands that
//! were acknowledged by then.
//!
//! A batch is committed in four turns, and a checkpoint is written in steps. Turns and steps may come in any order.
//! Each makes at most one call of the device, and takes no memory.
#![tactic(auto)]

mod begun;
mod calls;
mod checkpointing;
mod committing;
mod driving;
mod engine;
mod event;
mod laws;
mod offering;
mod progress;
mod promise;
mod retiring;
mod snapshot;
mod starting;
mod step;
mod stepping;

pub use begun::{Bar, Begun, Weight};
pub use driving::{Driven, Run, drive};
pub use engine::Engine;
pub use event::Event;
pub use laws::laws_below;
pub use progress::{Checkpoint, Commit, Progress, Retirement, Window};
pub use promise::{Survived, drive_opened, drive_then_open};
pub use step::{Fault, Part, Rest, Step, Turned};
