//! The words of the command line: the job that they ask for, help, and how people type a job, a file's name and the
//! options of a journal.
#![tactic(auto)]

mod escaped;
mod hints;
mod laws;
mod spelling;
mod status;
#[cfg(test)]
mod tests;
mod values;
mod words;

pub use escaped::{Escaped, Pasted};
pub use hints::hint_for;
pub use laws::{limits_are, words_ask_for};
pub use spelling::{CheckCommand, JobCommand, JournalOptions};
pub use status::{ILL, WELL, WRONG_WORDS};
pub use words::{Job, WordsFault, read_words};
