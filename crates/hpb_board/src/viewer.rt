//! The end that reads.
ghost use Rattle.std.specs.Prelude.{◌≡◌, ◌<◌};
ghost use mathlib.Core.List.{IsPrefix};
ghost use Rattle.left_right.specs.Sides.{view};
ghost use Rattle.hpb_board.specs.Contents.{content};
ghost use Rattle.hpb_board.specs.Views.{AreOfOne, IsOf, Fits, opened_of};

use crate::board::Board;
use crate::rule::{Law, Sees, View};
use crate::trail::Trail;
use core::mem::replace_with;
use hpb_auction::Auction;
use hpb_rules::Answer;
use left_right::reader::Reader;
use std::marker::Model;

pub(crate) type BoardReader = Reader<Board, View, Law>;

/// The end that reads the publications of a publisher. It never waits.
///
/// In contracts it is the book of the trail that it follows, the auction at the opening, the seats, and the batches
/// that it has entered.
#[derive(Drop)]
pub struct Viewer {
    ends: Ends,
}

// The reader and its own copy.
#[derive(Drop)]
struct Ends {
    reader: BoardReader,
    own: Board,
}

impl Model for Viewer {
    ghost use Rattle.hpb_board.specs.Publication.{Viewing};

    ghost Value = { Viewing };

    ghost use Rattle.left_right.specs.Sides.{view as knows};
    ghost use Rattle.hpb_board.specs.Views.{IsOf, Fits, opened_of};

    ghost view = { λ p. record { book = p.ends.own.trail.book; opened = (opened_of (knows p.ends.reader.place)).auction; seats = (opened_of (knows p.ends.reader.place)).seats; list = p.ends.own.trail.log } };

    ghost invariant = { λ p. IsOf p.ends.own.trail.book (opened_of (knows p.ends.reader.place)) (knows p.ends.reader.place) × Fits p.ends.own (knows p.ends.reader.place) };
}

/// Enters the published list, and takes over its new parts. Takes over nothing if the publisher has ended.
#[tactic(auto, using(crate::proofs::Keeping::viewing))]
fn look(ends: Ends) -> (Ends, bool)
    requires knows { IsOf ends.own.trail.book (opened_of (view ends.reader.place)) (view ends.reader.place) }
    requires fits { Fits ends.own (view ends.reader.place) }
    ensures same { view result.0.reader.place ≡ view ends.reader.place }
    ensures book { result.0.own.trail.book ≡ ends.own.trail.book }
    ensures fits { Fits result.0.own (view ends.reader.place) }
    ensures later { IsPrefix ends.own.trail.log result.0.own.trail.log }
{
    let Ends { reader, mut own } = ends;
    match reader.enter_as::<Sees>() {
        Ok(reading) => {
            take_over(&mut own, reading.get());
            let reader = reading.leave();
            (Ends { reader, own }, true)
        }
        Err(reader) => (Ends { reader, own }, false),
    }
}

/// The same as `look`, in place.
fn look_again(ends: &mut Ends) -> bool
    requires knows { IsOf ends.old.own.trail.book (opened_of (view ends.old.reader.place)) (view ends.old.reader.place) }
    requires fits { Fits ends.old.own (view ends.old.reader.place) }
    ensures same { view ends.new.reader.place ≡ view ends.old.reader.place }
    ensures book { ends.new.own.trail.book ≡ ends.old.own.trail.book }
    ensures fits { Fits ends.new.own (view ends.old.reader.place) }
    ensures later { IsPrefix ends.old.own.trail.log ends.new.own.trail.log }
{
    replace_with(ends, (), |ends, _| look(ends))
}

/// Catches up with a board of the same publisher, if that has more batches. With the same number of batches both are
/// equal already.
fn take_over(own: &mut Board, board: &Board)
    requires one { AreOfOne own.old board.now }
    ensures copied { own.old.number < board.now.number → content own.new ≡ content board.now }
    ensures kept { (own.old.number < board.now.number → ⊥) → own.new ≡ own.old }
    ensures later { IsPrefix own.old.trail.log own.new.trail.log }
{
    let mut both = own.trail.again();
    both.learn(&board.trail);
    if own.number < board.number {
        own.catch_up(board);
    }
}

impl Viewer {
    ghost use Rattle.std.specs.Prelude.{◌≡◌, ◌<◌, ◌^◌, ◌↔◌, length, IsTrue, ⊤, IfSome};
    ghost use Rattle.std.specs.Borrow.{sem};
    ghost use mathlib.Core.List.{IsPrefix};
    ghost use mathlib.Core.Option.{none};
    ghost use denote.Follow.{follows_so};
    ghost use Rattle.left_right.specs.Sides.{view};
    ghost use Rattle.hpb_board.specs.Publication.{recent, auction_of, answers_of};
    ghost use Rattle.hpb_board.specs.Views.{IsOf, Fits, opened_of};
    ghost use Rattle.hpb_board.specs.contracts.viewer.Viewer.{the_row};

    /// Does `enter`, and returns the auction. `None` if the publisher has ended.
    pub fn view(&mut self) -> Option<&Auction>
        ensures* after { sem 𝓛 (follows_so the_row the_row self.entry.ghost_name none (λ _ _. ⊤) (λ n. (n.book ≡ self.old.book) × (n.opened ≡ self.old.opened) × (n.seats ≡ self.old.seats) × IsPrefix self.old.list n.list × IfSome result (λ a. a.now ≡ auction_of n))) }
    {
        if self.enter() {
            Some(self.auction())
        } else {
            None
        }
    }

    pub(crate) fn new(reader: BoardReader, own: Board) -> Viewer
        requires knows { IsOf own.trail.book (opened_of (view reader.place)) (view reader.place) }
        requires fits { Fits own (view reader.place) }
        ensures { (result.book ≡ own.trail.book) × (result.opened ≡ (opened_of (view reader.place)).auction) × (result.seats ≡ (opened_of (view reader.place)).seats) × (result.list ≡ own.trail.log) }
    {
        Viewer {
            ends: Ends { reader, own },
        }
    }

    /// Brings this viewer's board up to the published one. `false` if the publisher has ended; then the board stays as
    /// it was.
    pub fn enter(&mut self) -> bool
        ensures same { (self.new.book ≡ self.old.book) × (self.new.opened ≡ self.old.opened) × (self.new.seats ≡ self.old.seats) }
        ensures later { IsPrefix self.old.list self.new.list }
    {
        look_again(&mut self.ends)
    }

    /// The auction that it has entered.
    pub fn auction(&self) -> &Auction
        ensures { result.now ≡ auction_of self.now }
    {
        &self.ends.own.auction
    }

    /// The answer with this number to a seat, from 1, if it is among the last 16 that the viewer has entered.
    pub fn answer(&self, seat: u8, number: u64) -> Option<Answer>
        requires seat { seat < self.now.seats }
        ensures recent { result ≡ recent (answers_of seat self.now) number }
        ensures few { length (answers_of seat self.now) < 2 ^ 64 }
    {
        self.ends.own.rows[seat as usize].recent(number)
    }

    /// Whether both have entered the same list.
    pub fn agrees(&self, other: &Viewer) -> bool
        requires { self.now.book ≡ other.now.book }
        ensures { IsTrue result ↔ (self.now.list ≡ other.now.list) }
    {
        let mut both = self.ends.own.trail.again();
        both.learn(&other.ends.own.trail);
        self.ends.own.number == other.ends.own.number
    }

    /// A token of the list that it has entered.
    pub fn trail(&self) -> Trail
        ensures { (result.book ≡ self.now.book) × (result.log ≡ self.now.list) }
    {
        self.ends.own.trail.again()
    }

    /// A trail learns the list that this viewer has entered.
    pub fn teach(&self, all: &mut Trail)
        requires { all.old.book ≡ self.now.book }
        ensures book { all.new.book ≡ all.old.book }
        ensures both { IsPrefix all.old.log all.new.log × IsPrefix self.now.list all.new.log }
    {
        all.learn(&self.ends.own.trail);
    }
}
