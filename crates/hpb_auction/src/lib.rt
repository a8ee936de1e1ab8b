//! The auction: a state machine over commands. It answers from tables that never grow.
#![tactic(auto)]

mod accepting;
mod applying;
mod auction;
mod judging;
mod letters;
mod reply;
mod running;
mod saving;
mod sender;
mod verdict;
mod views;

pub use accepting::accepts_any;
pub use applying::Applied;
pub use auction::Auction;
pub use letters::{Judged, judge_letters};
pub use running::{Run, run_commands};
pub use views::{BidderView, NodeView};
