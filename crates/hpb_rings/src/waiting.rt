//! Letters that have no answer yet.
ghost use Rattle.std.specs.Prelude.{◌≡◌, ◌≤◌, ◌↔◌, IsTrue};
ghost use Rattle.hpb_rings.specs.Marks.{greatest};

use hpb_rules::{Answer, Blank, Letter, Reply};

/// A letter that waits for its answer.
#[derive(Clone, Copy)]
pub struct Waiting {
    /// The letter as it was posted.
    pub letter: Letter,
    /// The client's mark when the letter was posted, at most `MOST_COMMANDS`.
    pub mark: u32,
}

impl Default for Waiting {
    fn default() -> Waiting {
        Waiting {
            letter: Letter::blank(),
            mark: 0,
        }
    }
}

impl Waiting {
    /// Whether an answer is for the letter, and not older than the client's knowledge at its post.
    pub(crate) fn is_for(&self, answer: &Answer) -> bool
        ensures { IsTrue result ↔ ((self.now.letter ≡ answer.now.letter) × (self.now.mark ≤ answer.now.at)) }
    {
        self.letter == answer.letter && self.mark <= answer.at
    }
}

/// The greater of a mark and the numbers that an answer shows.
pub(crate) fn raised(mark: u32, answer: &Answer) -> u32
    ensures { result ≡ greatest mark answer.now }
{
    let mark = mark.max(answer.at);
    match answer.reply {
        Reply::Ok(number) => mark.max(number),
        Reply::Refused(_) => mark,
    }
}
