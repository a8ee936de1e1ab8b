//! The report of a client that has finished.
ghost use Rattle.std.specs.Prelude.{◌≡◌, ◌≤◌, [], ◌∷◌, ◌++◌, length, take, true, false};
ghost use mathlib.Core.List.{IsPrefix};
ghost use Rattle.rtrb.specs.Ring.{sent};
ghost use Rattle.hpb_board.specs.Publication.{answers_of};
ghost use Rattle.hpb_rings.specs.Slips.{ends};
ghost use Rattle.hpb_rings.specs.Taking.{slips, newly};
ghost use Rattle.hpb_rules.specs.Judging.{letters_of};
ghost use Rattle.hpb_rings.specs.declared.slip.Slip.TheVariants.{End};

use crate::slip::Slip;
use crate::viewing::view_again;
use hpb_board::Viewer;
use rtrb::Producer;
use std::alloc::Global;
use std::sync::Arc;
use std::thread::Parker;

/// The report of a client that has finished: the letters that it sent, the list that it saw, and how many of its
/// answers newly accepted a command.
///
/// It sent the letters of the answers that it took, in order, and then the end mark. After a halt, letters that it took
/// no answer for may stand between them.
#[derive(Drop)]
pub struct Report {
    /// The seat of its letters, from 0.
    pub seat: u8,
    /// Its viewer, as it last saw the list.
    pub viewer: Viewer,
    /// The client's end of its letter ring.
    pub letters: Producer<Slip>,
    /// How many answers it took.
    pub taken: u64,
    /// How many of these newly accepted a command.
    pub accepted: u64,
    /// Whether a halt came.
    pub is_halted: bool,
    ghost there: { taken ≤ length (answers_of seat viewer) },
    ghost in_order: { take taken (sent letters) ≡ slips (letters_of (take taken (answers_of seat viewer))) },
    ghost whole: { is_halted ≡ false → sent letters ≡ slips (letters_of (take taken (answers_of seat viewer))) ++ End ∷ [] },
    ghost counted: { accepted ≡ newly (take taken (answers_of seat viewer)) },
}

impl Report {
    /// Rings the committer's bell, after the end mark was sent.
    pub(crate) fn ring(&self, bell: &Arc<Parker, Global>)
        requires { ends (sent self.now.letters) ≡ true }
    {
        bell.unpark();
    }

    /// Views once more. `false` if the publisher has ended. The facts about the answers taken stay.
    pub fn view_again(&mut self) -> bool
        ensures same { (self.new.seat ≡ self.old.seat) × (self.new.letters ≡ self.old.letters) × (self.new.taken ≡ self.old.taken) × (self.new.accepted ≡ self.old.accepted) × (self.new.is_halted ≡ self.old.is_halted) }
        ensures viewer { (self.new.viewer.book ≡ self.old.viewer.book) × (self.new.viewer.opened ≡ self.old.viewer.opened) × (self.new.viewer.seats ≡ self.old.viewer.seats) }
        ensures later { IsPrefix self.old.viewer.list self.new.viewer.list }
    {
        view_again(&mut self.viewer)
    }
}
