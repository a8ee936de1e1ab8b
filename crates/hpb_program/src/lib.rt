//! The program: does the job that its words ask for, writes its results, and gives its status.
#![tactic(auto)]

mod checking;
mod console;
mod descriptors;
mod formatting;
mod keeping;
mod laws;
mod led;
mod lookout;
mod meddling;
mod opening;
mod relay;
mod running;
mod serving;
mod stack;
mod streams;
mod waiting;

pub use checking::check_device;
pub use console::Console;
pub use hpb_messages::{JobFault, Noted, RunEnd};
pub use hpb_words::{Job, WordsFault, read_words, words_ask_for};
pub use keeping::run_kept;
pub use laws::limits_are;
pub use led::Led;
pub use running::{program, refuse_streams, refuse_words};
pub use serving::{FileEnd, Seats, ServeEnd, serve_kept};
pub use stack::hold_stack;
pub use streams::hold_streams;
pub use waiting::Waiting;
