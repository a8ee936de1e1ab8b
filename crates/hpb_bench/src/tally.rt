//! How often each result came.

use hpb_recover::Flaw;
use std::fmt;

/// How many devices were opened, and how many were refused for each flaw.
#[derive(Drop)]
pub(crate) struct Tally {
    opened: u64,
    unformatted: u64,
    layout: u64,
    checkpoint: u64,
    frame: u64,
}

impl Tally {
    pub(crate) fn new() -> Tally {
        Tally {
            opened: 0,
            unformatted: 0,
            layout: 0,
            checkpoint: 0,
            frame: 0,
        }
    }

    /// Counts a device: its flaw, if it has one.
    pub(crate) fn count(&mut self, flaw: Option<Flaw>) {
        let counter = match flaw {
            None => &mut self.opened,
            Some(Flaw::Unformatted) => &mut self.unformatted,
            Some(Flaw::Layout) => &mut self.layout,
            Some(Flaw::Checkpoint) => &mut self.checkpoint,
            Some(Flaw::Frame) => &mut self.frame,
        };
        *counter = counter.wrapping_add(1);
    }

    /// Whether each result came.
    pub(crate) fn has_all(&self) -> bool {
        self.opened > 0
            && self.unformatted > 0
            && self.layout > 0
            && self.checkpoint > 0
            && self.frame > 0
    }
}

impl fmt::Display for Tally {
    fn fmt<W: fmt::Write>(&self, f: &mut fmt::Formatter<W>) -> fmt::Result {
        write!(
            f,
            "{} opened, {} unformatted, {} layout, {} checkpoint, {} frame",
            self.opened, self.unformatted, self.layout, self.checkpoint, self.frame
        )
    }
}
