//! The result of a call.

use hpb_rules::Refusal;
use std::fmt;

/// The result of a call. It is written as `ok` and the sum, or as the number and the word of the refusal.
#[derive(Clone, Copy, Debug, PartialEq, Eq)]
pub(crate) enum Came {
    /// It succeeded: a sum of all its results.
    Well(u64),
    /// It was refused.
    Refused(Refusal),
}

impl fmt::Display for Came {
    fn fmt<W: fmt::Write>(&self, f: &mut fmt::Formatter<W>) -> fmt::Result {
        match *self {
            Came::Well(sum) => write!(f, "ok {sum}"),
            Came::Refused(refusal) => {
                let number = refusal.number();
                let word = refusal.word();
                write!(f, "{number} {word}")
            }
        }
    }
}
