//! The committer's side of all rings.
ghost use Rattle.std.specs.Prelude.{◌≡◌, ℕ, ◌<◌, ◌≤◌, ◌∷◌, ◌++◌, length, map, All, vec_len, true, IsTrue, ◌↔◌};
ghost use Rattle.rtrb.specs.Ring.{sent, received};
ghost use Rattle.hpb_rings.specs.Slips.{commands, ends};
ghost use Rattle.hpb_rings.specs.Gathering.{of_seat, Drained, gathered, at_seat, halts, told_of};
ghost use Rattle.hpb_rules.specs.declared.limits.TheConstants.{MOST_SEATS};

use crate::ring::Ring;
use hpb_rules::{Letter, Letters, MOST_LETTERS, MOST_WAITING};

/// The committer's side of the rings of all seats.
#[derive(Drop)]
pub struct Intake<M: Copy> {
    /// The ring of each seat, by its number.
    pub rings: Vec<Ring<M>>,
    /// The number of the seat at which the next gathering begins.
    first: usize,
    ghost few: { vec_len rings ≤ MOST_SEATS },
}

impl<M: Copy> Intake<M> {
    /// The intake over the rings of the seats 0, 1 and so on, at most 32.
    pub fn new(rings: Vec<Ring<M>>) -> Intake<M>
        requires { vec_len rings ≤ MOST_SEATS }
        ensures { result.rings ≡ rings }
    {
        Intake { rings, first: 0 }
    }

    /// Takes up to 64 letters out of the rings, each with the seat of its ring, in the order of their posts there.
    ///
    /// If the last call was full, this one begins at the seat at which that happened. Otherwise it begins one seat
    /// further than the last one began.
    pub fn gather(&mut self) -> Letters
        ensures each { (seat : ℕ) → at_seat (gathered self.new.rings.items) seat ≡ at_seat (gathered self.old.rings.items) seat ++ of_seat seat result }
        ensures seats { All (λ l. l.seat < vec_len self.old.rings) result }
        ensures same { (vec_len self.new.rings ≡ vec_len self.old.rings) × (halts self.new.rings.items ≡ halts self.old.rings.items) }
    {
        let mut letters = Letters::new();
        let count = self.rings.len();
        let begun = self.first;
        let mut next = begun.wrapping_add(1);
        for i in 0..count {
            let seat = (begun % count + i) % count;
            let had_room = letters.len() < MOST_LETTERS;
            drain(&mut self.rings[seat], seat as u8, &mut letters);
            if had_room && letters.len() == MOST_LETTERS {
                next = seat;
            }
        }
        self.first = next;
        letters
    }

    /// How many letters it sees waiting in the rings; more may come at any time. Nothing is taken.
    pub fn waiting(&mut self) -> usize
        ensures same { (gathered self.new.rings.items ≡ gathered self.old.rings.items) × (halts self.new.rings.items ≡ halts self.old.rings.items) × (vec_len self.new.rings ≡ vec_len self.old.rings) }
    {
        let mut count = 0usize;
        for i in 0..self.rings.len() {
            count = count.saturating_add(self.rings[i].waiting());
        }
        count
    }

    /// Sends a halt to each seat that has none yet, and rings each of their bells.
    pub fn halt(&mut self, halt: M)
        ensures told { halts self.new.rings.items ≡ map (told_of halt) self.old.rings.items }
        ensures once { All (λ r. length (sent r.halts) ≡ 1) self.new.rings.items }
        ensures same { gathered self.new.rings.items ≡ gathered self.old.rings.items }
    {
        for i in 0..self.rings.len() {
            self.rings[i].tell(halt);
        }
    }

    /// Rings the bell of a seat. Its client may then wake from a wait.
    pub fn wake(&self, seat: u8)
        requires { seat < vec_len self.now.rings }
    {
        self.rings[seat as usize].answered.unpark();
    }

    /// Whether every seat has sent its end mark.
    pub fn all_ended(&self) -> bool
        ensures { IsTrue result ↔ All (λ r. ends (received r.letters) ≡ true) self.now.rings.items }
    {
        self.rings.iter().all(|r| r.has_ended)
    }
}

/// Moves letters out of a ring, as long as there is room for them.
fn drain<M: Copy>(ring: &mut Ring<M>, seat: u8, letters: &mut Letters)
    ensures drained { Drained seat (commands (received ring.old.letters)) (commands (received ring.new.letters)) letters.old letters.new }
    ensures same { (ring.new.halts ≡ ring.old.halts) × (ring.new.is_told ≡ ring.old.is_told) }
{
    for _ in 0..MOST_WAITING {
        if letters.len() == MOST_LETTERS {
            return;
        }
        match ring.next() {
            Some(command) => {
                let _ = letters.push(Letter { seat, command });
            }
            None => return,
        }
    }
}
