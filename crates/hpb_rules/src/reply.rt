use crate::refusal::Refusal;

/// The answer to a command.
#[derive(Clone, Copy, Debug, PartialEq, Eq)]
pub enum Reply {
    /// Accepted: the number of commands accepted so far, this one included.
    Ok(u32),
    /// Refused. Nothing has changed.
    Refused(Refusal),
}
