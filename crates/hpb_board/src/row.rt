//! The last answers of each seat.
ghost use Rattle.std.specs.Prelude.{◌≡◌, ◌+◌, ◌<◌, ◌^◌, ◌↔◌, length, IsTrue};
ghost use Rattle.hpb_board.specs.Publication.{tally};
ghost use Rattle.hpb_board.specs.Rows.{noted, note_at, told, GoesOn, GoOn, HaveRoom};

use hpb_rules::{Answer, Letter, MOST_WAITING};

/// The answers of one seat: how many there were, and the last 16 of them, since at most 16 letters may wait for
/// answers.
#[derive(Clone, Copy)]
pub struct Row {
    pub(crate) count: u64,
    // The answer with a number, from 1, is at the place of that number less 1, modulo 16.
    pub(crate) last: [Option<Answer>; MOST_WAITING],
}

/// A row without an answer.
pub(crate) const BLANK: Row = Row {
    count: 0,
    last: [None; MOST_WAITING],
};

impl Row {
    /// Counts an answer. It replaces the one that came 16 before it.
    fn note(&mut self, answer: Answer)
        ensures { self.new ≡ noted self.old answer }
    {
        self.last[(self.count % MOST_WAITING as u64) as usize] = Some(answer);
        self.count = self.count.saturating_add(1);
    }

    /// The answer with this number, from 1, if it is among the last 16.
    pub(crate) fn recent(&self, number: u64) -> Option<Answer>
        ensures { result ≡ told self.now number }
    {
        if number == 0 || number > self.count || self.count - number >= MOST_WAITING as u64 {
            return None;
        }
        self.last[((number - 1) % MOST_WAITING as u64) as usize]
    }

    /// Makes this row equal to a later one of its seat, by taking over the answers that are new there.
    fn catch_up(&mut self, later: &Row)
        requires { GoesOn self.old later.now }
        ensures { self.new ≡ later.now }
    {
        if later.count - self.count > MOST_WAITING as u64 {
            *self = *later;
            return;
        }
        for number in self.count..later.count {
            match later.recent(number + 1) {
                Some(answer) => self.note(answer),
                None => unreachable!(),
            }
        }
    }
}

/// Makes each row equal to the later one at its place.
pub(crate) fn catch_up_all(rows: &mut [Row], later: &[Row])
    requires long { length rows.old ≡ length later.now }
    requires later { GoOn rows.old later.now }
    ensures { rows.new ≡ later.now }
{
    for seat in 0..rows.len() {
        rows[seat].catch_up(&later[seat]);
    }
}

/// Counts an answer to a seat. An unknown seat has no row, and nothing is counted.
#[tactic(auto, using(crate::proofs::Rows::row_lemmas))]
pub(crate) fn note_in(rows: &mut [Row], seat: usize, answer: Answer)
    ensures { rows.new ≡ note_at rows.old seat answer }
{
    if seat < rows.len() {
        rows[seat].note(answer);
    }
}

/// How many letters of a seat there are.
fn count_of(seat: usize, letters: &[Letter]) -> u64
    ensures { result ≡ tally seat letters.now }
{
    let mut count = 0;
    for letter in letters {
        if letter.seat as usize == seat {
            count += 1;
        }
    }
    count
}

/// Whether each row's number of answers stays within its greatest value with these letters.
pub(crate) fn have_room(rows: &[Row], letters: &[Letter]) -> bool
    ensures { IsTrue result ↔ HaveRoom rows.now letters.now }
{
    for seat in 0..rows.len() {
        if count_of(seat, letters) > u64::MAX - rows[seat].count {
            return false;
        }
    }
    true
}
