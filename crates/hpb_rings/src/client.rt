//! The client of a seat: it posts letters and takes their answers.
ghost use Rattle.std.specs.Prelude.{◌≡◌, ℕ, ◌+◌, ◌<◌, ◌≤◌, ◌^◌, ◌⊎◌, [], ◌∷◌, ◌++◌, List, length, take, drop, max, Some, true, false, IfOk, IfErr, OnErr, IsTrue, IsOk, IsErr, MatchOption, MatchResult};
ghost use mathlib.Core.List.{IsPrefix};
ghost use Rattle.rtrb.specs.Ring.{SameProducer, sent, received, known_free};
ghost use Rattle.hpb_board.specs.Publication.{recent, answers_of, auction_of};
ghost use Rattle.hpb_rings.specs.Marks.{greatest};
ghost use Rattle.hpb_rings.specs.Taking.{posted, slips, newly, IsForOldest};
ghost use Rattle.hpb_rules.specs.Judging.{letters_of};
ghost use Rattle.hpb_rings.specs.declared.slip.Slip.TheVariants.{End};
ghost use Rattle.hpb_rules.specs.declared.limits.TheConstants.{MOST_WAITING};

use crate::report::Report;
use crate::ring::Ends;
use crate::slip::Slip;
use crate::viewing::view_again;
use crate::waiting::{Waiting, raised};
use arrayvec::ArrayVec;
use hpb_auction::Auction;
use hpb_board::Viewer;
use hpb_rules::{Answer, Letter, MOST_WAITING, Reply};
use rtrb::{Consumer, Producer};
use std::alloc::Global;
use std::sync::{Arc, Wait};
use std::thread::Parker;

/// A client of a house. It posts letters of its seat, and takes their answers in order.
///
/// It has sent the letters of the answers that it took, followed by the letters that wait.
#[derive(Drop)]
pub struct Client<M: Copy> {
    pub seat: u8,
    pub letters: Producer<Slip>,
    pub halts: Consumer<M>,
    pub viewer: Viewer,
    /// The letters that have no answer yet, oldest first.
    pub waiting: ArrayVec<Waiting, MOST_WAITING>,
    /// How many answers it took.
    pub taken: u64,
    /// How many of these newly accepted a command.
    pub accepted: u64,
    /// The greatest number of accepted commands that it knows of: from the opening, a view, or an answer that it took.
    pub mark: u32,
    /// Whether a halt came.
    pub is_halted: bool,
    /// Wakes the committer.
    bell: Arc<Parker, Global>,
    /// Wakes this client.
    answered: Arc<Parker, Global>,
    ghost seated: { seat < viewer.seats },
    ghost sent_is: { sent letters ≡ slips (letters_of (take taken (answers_of seat viewer)) ++ posted waiting.items) },
    ghost there: { taken ≤ length (answers_of seat viewer) },
    ghost counted: { accepted ≡ newly (take taken (answers_of seat viewer)) },
    ghost told: { is_halted ≡ true → 0 < length (received halts) },
    ghost marked: { (auction_of viewer).count ≤ mark },
}

/// 1 for an answer that newly accepts a command, else 0.
fn news_in(answer: &Answer) -> u64
    ensures value { result ≡ newly (answer.now ∷ []) }
    ensures most { result ≤ 1 }
{
    match answer.reply {
        Reply::Ok(number) if number as u64 == answer.at as u64 + 1 => 1,
        _ => 0,
    }
}

impl<M: Copy> Client<M> {
    /// A client of a seat, with its ends of the seat's rings, its viewer and the committer's bell.
    pub fn new(seat: u8, ends: Ends<M>, viewer: Viewer, bell: Arc<Parker, Global>) -> Client<M>
        requires { seat < viewer.seats }
        ensures start { (result.seat ≡ seat) × (result.viewer ≡ viewer) × (result.letters ≡ ends.letters) × (result.halts ≡ ends.halts) }
        ensures none { (result.taken ≡ 0) × (result.accepted ≡ 0) × (result.waiting.items ≡ []) × (result.is_halted ≡ false) }
        ensures mark { result.mark ≡ (auction_of viewer).count }
    {
        let Ends {
            letters,
            halts,
            answered,
        } = ends;
        let mark = viewer.auction().count();
        Client {
            seat,
            letters,
            halts,
            viewer,
            waiting: ArrayVec::new(),
            taken: 0,
            accepted: 0,
            mark,
            is_halted: false,
            bell,
            answered,
        }
    }

    /// Posts a letter of its seat, and rings the committer's bell. Hands the letter back if 16 letters are outstanding,
    /// or if it knows of no free place in the ring.
    pub fn post(&mut self, letter: Letter) -> Result<(), Letter>
        requires { letter.seat ≡ self.old.seat }
        ensures waiting { MatchResult result (λ _. self.new.waiting.items ≡ self.old.waiting.items ++ record { letter = letter; mark = self.old.mark } ∷ []) (λ back. (back ≡ letter) × (self.new.waiting.items ≡ self.old.waiting.items)) }
        ensures same { (self.new.seat ≡ self.old.seat) × (self.new.halts ≡ self.old.halts) × (self.new.viewer ≡ self.old.viewer) × (self.new.taken ≡ self.old.taken) × (self.new.accepted ≡ self.old.accepted) × (self.new.mark ≡ self.old.mark) × (self.new.is_halted ≡ self.old.is_halted) }
        ensures ring { SameProducer self.old.letters self.new.letters }
        ensures sixteen { length self.old.waiting.items ≡ MOST_WAITING → IsErr result }
        ensures succeeds { length self.old.waiting.items < MOST_WAITING → 0 < known_free self.old.letters → IsOk result }
        ensures free { IsOk result → known_free self.old.letters ≤ known_free self.new.letters + 1 }
        ensures full { IsErr result → (length self.old.waiting.items ≡ MOST_WAITING) ⊎ (known_free self.new.letters ≡ 0) }
    {
        if self.waiting.is_full() {
            return Err(letter);
        }
        let before = self.waiting.len();
        let slip = Slip::of(&letter);
        let waiting = Waiting {
            letter,
            mark: self.mark,
        };
        if self.letters.push(slip).is_err() {
            return Err(letter);
        }
        self.waiting.push(waiting);
        self.ring_behind(before);
        Ok(())
    }

    /// Rings the committer's bell if a letter was posted: one more waits than before.
    fn ring_behind(&self, before: usize)
        requires { length self.now.waiting.items ≡ before + 1 }
    {
        self.bell.unpark();
    }

    /// The next answer to take, in the list that it last viewed.
    fn next_answer(&self) -> Option<Answer>
        ensures next { result ≡ recent (answers_of self.now.seat self.now.viewer) (self.now.taken + 1) }
        ensures few { length (answers_of self.now.seat self.now.viewer) < 2 ^ 64 }
    {
        self.viewer.answer(self.seat, self.taken.wrapping_add(1))
    }

    /// Takes the next answer, from the last view. `None` if there is none yet, or if it isn't among the last 16 of the
    /// seat.
    ///
    /// An answer is refused (95 `order`) if it isn't for the oldest letter that waits. It is refused too if fewer
    /// commands were accepted when it was given than the client knew of at that letter's post. Then `Err` has the
    /// answer, and nothing changes.
    pub fn take(&mut self) -> Result<Option<Answer>, Answer>
        ensures same { (self.new.seat ≡ self.old.seat) × (self.new.letters ≡ self.old.letters) × (self.new.halts ≡ self.old.halts) × (self.new.viewer ≡ self.old.viewer) × (self.new.is_halted ≡ self.old.is_halted) }
        ensures answer { MatchResult result (λ o. o ≡ recent (answers_of self.old.seat self.old.viewer) (self.old.taken + 1)) (λ a. (recent (answers_of self.old.seat self.old.viewer) (self.old.taken + 1) ≡ Some a) × (IsForOldest self.old.waiting.items a → ⊥)) }
        ensures taken { IfOk result (λ o. MatchOption o ((self.new.taken ≡ self.old.taken) × (self.new.waiting ≡ self.old.waiting)) (λ a. IsForOldest self.old.waiting.items a × (self.new.taken ≡ self.old.taken + 1) × (self.new.waiting.items ≡ drop 1 self.old.waiting.items))) }
        ensures mark { IfOk result (λ o. MatchOption o (self.new.mark ≡ self.old.mark) (λ a. self.new.mark ≡ greatest self.old.mark a)) }
        ensures refused { OnErr result ((self.new.taken ≡ self.old.taken) × (self.new.waiting ≡ self.old.waiting) × (self.new.accepted ≡ self.old.accepted) × (self.new.mark ≡ self.old.mark)) }
    {
        let Some(answer) = self.next_answer() else {
            return Ok(None);
        };
        if self.waiting.is_empty() {
            return Err(answer);
        }
        if !self.waiting[0].is_for(&answer) {
            return Err(answer);
        }
        self.mark = raised(self.mark, &answer);
        self.accepted += news_in(&answer);
        self.waiting.remove(0);
        self.taken += 1;
        Ok(Some(answer))
    }

    /// Views: brings `viewer` up to the published list. `false` if the publisher has ended.
    pub fn refresh(&mut self) -> bool
        ensures same { (self.new.seat ≡ self.old.seat) × (self.new.letters ≡ self.old.letters) × (self.new.halts ≡ self.old.halts) × (self.new.waiting ≡ self.old.waiting) × (self.new.taken ≡ self.old.taken) × (self.new.accepted ≡ self.old.accepted) × (self.new.is_halted ≡ self.old.is_halted) }
        ensures viewer { (self.new.viewer.book ≡ self.old.viewer.book) × (self.new.viewer.opened ≡ self.old.viewer.opened) × (self.new.viewer.seats ≡ self.old.viewer.seats) }
        ensures later { IsPrefix self.old.viewer.list self.new.viewer.list }
        ensures mark { self.new.mark ≡ max self.old.mark (auction_of self.new.viewer).count }
    {
        let is_there = view_again(&mut self.viewer);
        self.mark = self.mark.max(self.viewer.auction().count());
        is_there
    }

    /// Views, and returns the seat's next answer to take, if there is one among the last 16.
    pub fn poll(&mut self) -> Option<Answer>
        ensures same { (self.new.seat ≡ self.old.seat) × (self.new.letters ≡ self.old.letters) × (self.new.halts ≡ self.old.halts) × (self.new.waiting ≡ self.old.waiting) × (self.new.taken ≡ self.old.taken) × (self.new.accepted ≡ self.old.accepted) × (self.new.is_halted ≡ self.old.is_halted) }
        ensures viewer { (self.new.viewer.book ≡ self.old.viewer.book) × (self.new.viewer.opened ≡ self.old.viewer.opened) × (self.new.viewer.seats ≡ self.old.viewer.seats) }
        ensures later { IsPrefix self.old.viewer.list self.new.viewer.list }
        ensures mark { self.new.mark ≡ max self.old.mark (auction_of self.new.viewer).count }
        ensures told { result ≡ recent (answers_of self.new.seat self.new.viewer) (self.new.taken + 1) }
    {
        self.refresh();
        self.next_answer()
    }

    /// How many letters have no answer yet, at most 16.
    pub fn outstanding(&self) -> usize
        ensures { result ≡ length self.now.waiting.items }
    {
        self.waiting.len()
    }

    /// Whether a halt came.
    pub fn halted(&mut self) -> bool
        ensures same { (self.new.seat ≡ self.old.seat) × (self.new.letters ≡ self.old.letters) × (self.new.viewer ≡ self.old.viewer) × (self.new.waiting ≡ self.old.waiting) × (self.new.taken ≡ self.old.taken) × (self.new.accepted ≡ self.old.accepted) × (self.new.mark ≡ self.old.mark) }
        ensures told { IsTrue result → 0 < length (received self.new.halts) }
        ensures kept { result ≡ self.new.is_halted }
        ensures stays { self.old.is_halted ≡ true → result ≡ true }
        ensures none { result ≡ false → received self.new.halts ≡ received self.old.halts }
    {
        if self.halts.pop().is_ok() {
            self.is_halted = true;
        }
        self.is_halted
    }

    /// Waits until the bell of its seat rings; returns at once if it rang since the last wait. The bell rings when
    /// letters of the seat are answered, at a halt, and, after a halt, when letters of the seat were taken out of its
    /// ring. A caller polls, takes and checks `halted` before it waits. A wait may also end without a reason.
    pub fn wait<R: Wait>(&mut self, rt: &R)
        ensures same { (self.new.seat ≡ self.old.seat) × (self.new.letters ≡ self.old.letters) × (self.new.halts ≡ self.old.halts) × (self.new.viewer ≡ self.old.viewer) × (self.new.waiting ≡ self.old.waiting) × (self.new.taken ≡ self.old.taken) × (self.new.accepted ≡ self.old.accepted) × (self.new.mark ≡ self.old.mark) × (self.new.is_halted ≡ self.old.is_halted) }
    {
        self.answered.park(rt);
    }

    /// Sends the end mark, and rings the committer's bell. Hands the client back if it knows of no free place in the
    /// ring.
    #[tactic(auto, using(crate::proofs::Gathering::slip_lemmas))]
    pub fn finish(mut self) -> Result<Report, Client<M>>
        requires { (self.waiting.items ≡ []) ⊎ (self.is_halted ≡ true) }
        ensures report { IfOk result (λ r. (r.seat ≡ self.seat) × (r.viewer ≡ self.viewer) × (r.taken ≡ self.taken) × (r.accepted ≡ self.accepted) × (r.is_halted ≡ self.is_halted) × (sent r.letters ≡ sent self.letters ++ End ∷ [])) }
        ensures back { IfErr result (λ c. (c.seat ≡ self.seat) × (c.viewer ≡ self.viewer) × (c.halts ≡ self.halts) × (c.waiting ≡ self.waiting) × (c.taken ≡ self.taken) × (c.accepted ≡ self.accepted) × (c.mark ≡ self.mark) × (c.is_halted ≡ self.is_halted)) }
        ensures ring { MatchResult result (λ r. SameProducer self.letters r.letters) (λ c. SameProducer self.letters c.letters) }
        ensures succeeds { 0 < known_free self.letters → IsOk result }
        ensures full { IfErr result (λ c. known_free c.letters ≡ 0) }
    {
        if self.letters.is_full() {
            return Err(self);
        }
        let Client {
            seat,
            mut letters,
            viewer,
            taken,
            accepted,
            is_halted,
            bell,
            ..
        } = self;
        letters.push_reserved(Slip::End);
        let report = Report {
            seat,
            viewer,
            letters,
            taken,
            accepted,
            is_halted,
        };
        report.ring(&bell);
        Ok(report)
    }
}

impl<M: Copy> Client<M> {
    ghost use Rattle.std.specs.Prelude.{◌≡◌, max, ⊤, IfSome};
    ghost use Rattle.std.specs.Borrow.{sem};
    ghost use mathlib.Core.List.{IsPrefix};
    ghost use mathlib.Core.Option.{none};
    ghost use denote.Follow.{follows_so};
    ghost use Rattle.hpb_board.specs.Publication.{auction_of};
    ghost use Rattle.hpb_rings.specs.contracts.client.Client.{the_row};

    /// Views, and returns the published auction. `None` if the publisher has ended.
    pub fn view(&mut self) -> Option<&Auction>
        ensures* after { sem 𝓛 (follows_so (the_row M.row) (the_row M.row) self.entry.ghost_name none (λ _ _. ⊤) (λ n. (n.seat ≡ self.old.seat) × (n.letters ≡ self.old.letters) × (n.halts ≡ self.old.halts) × (n.waiting ≡ self.old.waiting) × (n.taken ≡ self.old.taken) × (n.accepted ≡ self.old.accepted) × (n.is_halted ≡ self.old.is_halted) × (n.viewer.book ≡ self.old.viewer.book) × (n.viewer.opened ≡ self.old.viewer.opened) × (n.viewer.seats ≡ self.old.viewer.seats) × IsPrefix self.old.viewer.list n.viewer.list × (n.mark ≡ max self.old.mark (auction_of n.viewer).count) × IfSome result (λ a. a.now ≡ auction_of n.viewer))) }
    {
        if self.refresh() {
            Some(self.viewer.auction())
        } else {
            None
        }
    }
}
