use crate::command::Command;
use crate::reply::Reply;

/// A command from a seat.
#[derive(Clone, Copy, Debug, PartialEq, Eq)]
pub struct Letter {
    /// The place of a client, from 0 to 31.
    pub seat: u8,
    pub command: Command,
}

/// A letter with its reply.
#[derive(Clone, Copy, Debug, PartialEq, Eq)]
pub struct Answer {
    pub letter: Letter,
    /// The number of commands accepted before it, at most `MOST_COMMANDS`.
    pub at: u32,
    pub reply: Reply,
}
