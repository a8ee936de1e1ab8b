//! The board that is published.
ghost use Rattle.std.specs.Prelude.{◌≡◌, length};
ghost use Rattle.hpb_board.specs.Publication.{IsRoomy};
ghost use Rattle.hpb_board.specs.Rows.{taken_in, shown_by};

use crate::row::{BLANK, Row, catch_up_all, note_in};
use crate::trail::Trail;
use hpb_auction::Auction;
use hpb_rules::{Answer, Letter, Letters};
use left_right::Absorb;
use std::alloc::{AllocError, Global};
use std::marker::Model;

/// The auction and the answers, as data for contracts. No value of this type is ever made.
#[derive(Drop)]
pub struct Shown {
    pub auction: Auction,
    pub rows: [Row; 0],
}

/// The auction at the opening, as data for contracts. No value of this type is ever made.
#[derive(Drop)]
pub struct Opening {
    pub auction: Auction,
    pub seats: u64,
}

/// The content that two copies of a board have in common. No value of this type is ever made.
#[derive(Drop)]
pub struct Content {
    pub trail: Trail,
    pub shown: Shown,
}

/// An auction with a row of answers for each seat.
#[derive(Drop)]
pub struct Board {
    pub trail: Trail,
    /// How many batches were published.
    pub number: u64,
    pub auction: Auction,
    pub rows: Vec<Row>,
    pub ghost counted: { number ≡ length trail.log },
    pub ghost roomy: { IsRoomy trail.log },
}

/// A batch to be published, with the trail after it.
#[derive(Drop)]
pub struct Prepared {
    pub letters: Letters,
    pub trail: Trail,
    pub number: u64,
    pub ghost counted: { number ≡ length trail.log },
    pub ghost roomy: { IsRoomy trail.log },
}

impl Board {
    ghost use Rattle.std.specs.Prelude.{◌≡◌, [], length, replicate, IfOk};
    ghost use mathlib.Core.List.{IsPrefix};
    ghost use Rattle.hpb_board.specs.Rows.{blank};
    ghost use Rattle.hpb_board.specs.Contents.{content};
    ghost use Rattle.hpb_board.specs.Views.{AreOfOne};

    /// A board of the auction as it was opened, without answers.
    pub(crate) fn new(
        alloc: Global,
        trail: Trail,
        auction: Auction,
        seats: usize,
    ) -> Result<Board, AllocError>
        requires { trail.log ≡ [] }
        ensures { IfOk result (λ b. (b.trail ≡ trail) × ((content b).shown ≡ record { auction = auction; rows = replicate seats blank })) }
    {
        let rows = Vec::from_elem(alloc, BLANK, seats)?;
        Ok(Board {
            trail,
            number: 0,
            auction,
            rows,
        })
    }

    /// A copy. Fails only if memory is refused.
    pub(crate) fn copy(&self, alloc: Global) -> Result<Board, AllocError>
        ensures { IfOk result (λ b. content b ≡ content self.now) }
    {
        let auction = self.auction.copy(alloc)?;
        let rows = Vec::from_slice(alloc, self.rows.as_slice())?;
        Ok(Board {
            trail: self.trail.again(),
            number: self.number,
            auction,
            rows,
        })
    }

    /// Makes this board equal to a later one of the same auction. Takes over only the parts that are new there, and
    /// takes no memory.
    pub(crate) fn catch_up(&mut self, later: &Board)
        requires one { AreOfOne self.old later.now }
        requires later { IsPrefix self.old.trail.log later.now.trail.log }
        ensures { content self.new ≡ content later.now }
    {
        let Board {
            trail,
            number,
            auction,
            rows,
        } = self;
        *trail = later.trail.again();
        *number = later.number;
        catch_up_auction(auction, &later.auction);
        catch_up_all(rows.as_mut_slice(), later.rows.as_slice());
    }
}

/// Makes an auction equal to a later value of it. If both have equally many accepted commands, they are equal already.
fn catch_up_auction(auction: &mut Auction, later: &Auction)
    requires rules { auction.old.rules ≡ later.now.rules }
    requires same { auction.old.count ≡ later.now.count → auction.old ≡ later.now }
    ensures { auction.new ≡ later.now }
{
    if auction.count() != later.count() {
        auction.copy_from(later);
    }
}

/// Judges a letter, and puts its answer in its seat's row.
fn take_in(auction: &mut Auction, rows: &mut [Row], letter: Letter)
    ensures { record { auction = auction.new; rows = rows.new } ≡ taken_in (record { auction = auction.old; rows = rows.old }) letter }
{
    let at = auction.count();
    let reply = auction.apply(&letter.command);
    let answer = Answer { letter, at, reply };
    note_in(rows, letter.seat as usize, answer);
}

/// Judges letters one after another, and puts their answers in their seats' rows.
fn take_all(auction: &mut Auction, rows: &mut [Row], letters: &Letters)
    ensures { record { auction = auction.new; rows = rows.new } ≡ shown_by (record { auction = auction.old; rows = rows.old }) letters.now }
{
    for letter in letters.as_slice() {
        take_in(auction, rows, *letter);
    }
}

impl Absorb<Prepared> for Board {
    ghost use Rattle.hpb_board.specs.Contents.{content, applied};

    type State = Content;

    ghost state = { content };

    ghost applied = { applied };

    ghost never_fails = { Unit {0} };

    fn absorb_first(&mut self, batch: &Prepared, _other: &Board) -> Result<(), AllocError> {
        let Board {
            trail,
            number,
            auction,
            rows,
        } = self;
        *trail = batch.trail.again();
        *number = batch.number;
        take_all(auction, rows.as_mut_slice(), &batch.letters);
        Ok(())
    }
}
