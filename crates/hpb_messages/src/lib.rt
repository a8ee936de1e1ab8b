//! All messages to people, but for help. There are messages about words that ask for nothing, about a job that ended
//! ill, with what to do then, and about events while sessions are served. Each refusal has its line.
//!
//! The faults of jobs stand here too, and the streams that remember how they failed.
#![tactic(auto)]

mod advice;
mod job_fault;
mod known;
mod noted;
mod notices;
mod refusal_lines;
mod run_end;
mod telling;
#[cfg(test)]
mod tests;

pub use advice::{
    EndAdvice, JobAdvice, LedAdvice, Meddling, MeddlingAdvice, ScriptAdvice, StreamsAdvice,
};
pub use job_fault::JobFault;
pub use known::{Known, SeenFile, SeenHead, known_of, pages_of};
pub use noted::{Failures, Noted};
pub use notices::{
    Change, ChangeNotice, Ending, FailedNotice, MissedNotices, PlaceNotice, PlaceState, SeatNotice,
};
pub use run_end::RunEnd;
pub use telling::{advise, hint, tell, tell_job, tell_memory};
