//! Sessions: lines in, answers out, over readers and writers.
#![tactic(auto)]

mod desk;
mod fault;
mod input;
mod laws;
mod line;
mod output;
mod script;
mod serving;
mod signal;
mod telling;
mod terminal;

pub use desk::{Desk, ScriptDesk};
pub use fault::SessionFault;
pub use input::read_some;
pub use laws::{input_is_text, session_is_text};
pub use output::send_bytes;
pub use script::{ScriptEnd, run_script, serve_auction};
pub use serving::serve;
pub use telling::{say, tell_people};
pub use terminal::serve_at_terminal;
