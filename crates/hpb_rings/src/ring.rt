//! The rings of one seat, with both of their ends.
ghost use Rattle.std.specs.Prelude.{◌≡◌, ◌<◌, [], ◌∷◌, ◌++◌, length, true, false, if◌then◌else◌, MatchOption, IfOk};
ghost use Rattle.rtrb.specs.Ring.{sent, received, known_free, known_items, IsPair};
ghost use Rattle.hpb_rings.specs.Slips.{commands, ends};
ghost use Rattle.hpb_rules.specs.declared.limits.TheConstants.{MOST_WAITING};

use crate::slip::Slip;
use hpb_rules::{Command, MOST_WAITING};
use rtrb::{Consumer, Producer, RingBuffer};
use std::alloc::{AllocError, Global};
use std::sync::Arc;
use std::thread::Parker;

/// A client's ends of its rings, before its first letter.
#[derive(Drop)]
pub struct Ends<M: Copy> {
    pub letters: Producer<Slip>,
    pub halts: Consumer<M>,
    /// The bell of its seat.
    pub answered: Arc<Parker, Global>,
    ghost fresh: { sent letters ≡ [] },
}

/// The intake's ends of one seat's rings.
#[derive(Drop)]
pub struct Ring<M: Copy> {
    pub letters: Consumer<Slip>,
    pub halts: Producer<M>,
    /// Whether the end mark came.
    pub has_ended: bool,
    /// Whether the seat has been sent its halt.
    pub is_told: bool,
    /// The bell of the seat.
    pub answered: Arc<Parker, Global>,
    ghost ended: { has_ended ≡ ends (received letters) },
    ghost once: { length (sent halts) ≡ (if is_told then 1 else 0) },
    ghost free: { is_told ≡ false → 0 < known_free halts },
}

/// Makes the rings of one seat, with room for 16 letters and for one halt, and the seat's bell. Fails only if memory is
/// refused (90 `memory`).
pub fn seat_rings<M: Copy>(alloc: Global) -> Result<(Ends<M>, Ring<M>), AllocError>
    ensures letters { IfOk result (λ r. IsPair r.0.letters r.1.letters × (known_free r.0.letters ≡ MOST_WAITING) × (received r.1.letters ≡ [])) }
    ensures halts { IfOk result (λ r. IsPair r.1.halts r.0.halts × (sent r.1.halts ≡ []) × (received r.0.halts ≡ [])) }
    ensures start { IfOk result (λ r. (r.1.has_ended ≡ false) × (r.1.is_told ≡ false)) }
{
    let (posts, letters) = RingBuffer::new(alloc, MOST_WAITING)?;
    let (halts, tellings) = RingBuffer::new(alloc, 1)?;
    let Ok(answered) = Arc::new(alloc, Parker::new()) else {
        return Err(AllocError);
    };
    let ends = Ends {
        letters: posts,
        halts: tellings,
        answered: Arc::try_clone(&answered)?,
    };
    let ring = Ring {
        letters,
        halts,
        has_ended: false,
        is_told: false,
        answered,
    };
    Ok((ends, ring))
}

impl<M: Copy> Ring<M> {
    /// The next command. `None` at the end mark, or if none is seen.
    #[tactic(auto, using(crate::proofs::Gathering::slip_lemmas))]
    pub(crate) fn next(&mut self) -> Option<Command>
        ensures same { (self.new.halts ≡ self.old.halts) × (self.new.is_told ≡ self.old.is_told) }
        ensures next { MatchOption result (commands (received self.new.letters) ≡ commands (received self.old.letters)) (λ c. commands (received self.new.letters) ≡ commands (received self.old.letters) ++ c ∷ []) }
    {
        match self.letters.pop() {
            Ok(Slip::Letter(letter)) => Some(letter.command),
            Ok(Slip::End) => {
                self.has_ended = true;
                None
            }
            Err(_) => None,
        }
    }

    /// How many letters it sees waiting, the end mark included.
    pub(crate) fn waiting(&mut self) -> usize
        ensures same { (received self.new.letters ≡ received self.old.letters) × (self.new.halts ≡ self.old.halts) × (self.new.has_ended ≡ self.old.has_ended) × (self.new.is_told ≡ self.old.is_told) }
    {
        self.letters.slots()
    }

    /// Sends a halt, if none was sent yet, and rings the bell of the seat.
    pub(crate) fn tell(&mut self, halt: M)
        ensures same { (self.new.letters ≡ self.old.letters) × (self.new.has_ended ≡ self.old.has_ended) }
        ensures told { (self.new.is_told ≡ true) × (sent self.new.halts ≡ (if self.old.is_told then sent self.old.halts else sent self.old.halts ++ halt ∷ [])) }
    {
        if !self.is_told {
            self.halts.push_reserved(halt);
            self.is_told = true;
        }
        self.ring_told();
    }

    /// Rings the bell of a seat that has been sent its halt.
    fn ring_told(&self)
        requires { self.now.is_told ≡ true }
    {
        self.answered.unpark();
    }
}
