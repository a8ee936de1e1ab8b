//! The commands that clients have sent and that have no answer yet. They outlive a stop.

use hpb_rules::Command;
use std::alloc::{AllocError, Global};

/// How many commands of a client may have no answer.
const MOST: usize = 16;

/// A client's commands that have no answer yet.
#[derive(Drop)]
pub(crate) struct Sender {
    /// Oldest first.
    unanswered: Vec<Command>,
    /// How many of them are posted since the device was opened.
    posted: usize,
}

impl Sender {
    pub(crate) fn new(alloc: Global) -> Sender {
        Sender {
            unanswered: Vec::new(alloc),
            posted: 0,
        }
    }

    /// Whether the client may send a new command: all others are posted, and there is room.
    pub(crate) fn is_ready(&self) -> bool {
        self.posted >= self.unanswered.len() && self.unanswered.len() < MOST
    }

    /// How many have no answer yet, at most 16.
    pub(crate) fn ahead(&self) -> u32 {
        self.unanswered.len().min(MOST) as u32
    }

    /// Whether all are answered.
    pub(crate) fn is_done(&self) -> bool {
        self.unanswered.is_empty()
    }

    pub(crate) fn send(&mut self, command: Command) -> Result<(), AllocError> {
        self.unanswered.push(command)?;
        Ok(())
    }

    /// The command that is posted next.
    pub(crate) fn next(&self) -> Option<Command> {
        self.unanswered.get(self.posted).copied()
    }

    /// The next one is posted.
    pub(crate) fn post(&mut self) {
        self.posted = self.posted.saturating_add(1);
    }

    /// The oldest one is answered.
    pub(crate) fn answer(&mut self) {
        if !self.unanswered.is_empty() {
            self.unanswered.remove(0);
        }
        self.posted = self.posted.saturating_sub(1);
    }

    /// After a stop all must be posted again.
    pub(crate) fn repeat(&mut self) {
        self.posted = 0;
    }
}
