//! The tale of a seed, line by line.

use hpb_auction::Auction;
use hpb_codec::JournalShape;
use hpb_rules::{Accepted, Answer, BidderId, Command, Letter, NodeId, Offer, Reply, Saved};
use hpb_test_engine::states::saved_of;
use std::alloc::{AllocError, Global};
use std::fmt;

/// Lines of words and numbers.
#[derive(Drop)]
pub(crate) struct Tale {
    pub(crate) text: String,
}

/// A command in words.
#[derive(Clone, Copy)]
struct Told(Command);

impl fmt::Display for Told {
    fn fmt<W: fmt::Write>(&self, f: &mut fmt::Formatter<W>) -> fmt::Result {
        match self.0 {
            Command::Bid {
                bidder,
                ticket,
                node,
                amount,
            } => {
                let (bidder, node) = (bidder.place(), node.place());
                write!(f, "bid {bidder} {ticket} {node} {amount}")
            }
            Command::Close { ticket } => write!(f, "close {ticket}"),
            Command::Stage { ticket } => write!(f, "stage {ticket}"),
            Command::Waive { bidder, ticket } => write!(f, "waive {} {ticket}", bidder.place()),
        }
    }
}

impl Tale {
    pub(crate) fn new(alloc: Global) -> Tale {
        Tale {
            text: String::new(alloc),
        }
    }

    /// The line of the seed, its layout, and how many waivers each bidder has.
    pub(crate) fn begin(
        &mut self,
        seed: u64,
        shape: JournalShape,
        waivers: u64,
    ) -> Result<(), AllocError> {
        let (layout, frames) = (shape.layout.byte(), shape.frames);
        writeln!(self.text, "seed {seed} {layout} {frames} {waivers}")
    }

    /// Adds a line as it is.
    pub(crate) fn line(&mut self, words: &str) -> Result<(), AllocError> {
        writeln!(self.text, "{words}")
    }

    pub(crate) fn letter(&mut self, what: &str, letter: &Letter) -> Result<(), AllocError> {
        writeln!(self.text, "{what} {} {}", letter.seat, Told(letter.command))
    }

    pub(crate) fn answer(&mut self, what: &str, answer: &Answer) -> Result<(), AllocError> {
        let (seat, at) = (answer.letter.seat, answer.at);
        let command = Told(answer.letter.command);
        match answer.reply {
            Reply::Ok(number) => writeln!(self.text, "{what} {seat} {command} {at} ok {number}"),
            Reply::Refused(refusal) => {
                let number = refusal.number();
                writeln!(self.text, "{what} {seat} {command} {at} err {number}")
            }
        }
    }

    pub(crate) fn answers(&mut self, what: &str, answers: &[Answer]) -> Result<(), AllocError> {
        for answer in answers {
            self.answer(what, answer)?;
        }
        Ok(())
    }

    /// How many commands a client sees.
    pub(crate) fn view(&mut self, seat: u8, count: u32) -> Result<(), AllocError> {
        writeln!(self.text, "view {seat} {count}")
    }

    /// All of an auction.
    pub(crate) fn auction(&mut self, auction: &Auction) -> Result<(), AllocError> {
        let saved = saved_of(auction);
        self.state(auction, &saved)?;
        for place in 0..auction.definition().node_count() {
            self.node(auction, place)?;
        }
        for place in 0..auction.definition().bidder_count() {
            self.bidder(auction, &saved, place)?;
        }
        Ok(())
    }

    fn state(&mut self, auction: &Auction, saved: &Saved) -> Result<(), AllocError> {
        let (round, stage, over) = (saved.round, saved.stage, saved.over);
        let (count, revenue) = (saved.count, auction.revenue());
        let number = number_of(saved.auctioneer);
        writeln!(
            self.text,
            "state {round} {stage} {over} {count} {revenue} {number}"
        )
    }

    fn node(&mut self, auction: &Auction, place: usize) -> Result<(), AllocError> {
        if place >= auction.definition().node_count() {
            return Ok(());
        }
        let view = auction.node_view(NodeId::new(place));
        write!(
            self.text,
            "node {place} {} {} {}",
            view.price, view.minimum, view.wins
        )?;
        self.offer(view.high)?;
        self.offer(view.incoming)?;
        writeln!(self.text)
    }

    fn offer(&mut self, offer: Option<Offer>) -> Result<(), AllocError> {
        match offer {
            Some(offer) => write!(self.text, " {} {}", offer.amount, offer.bidder.place()),
            None => write!(self.text, " 0 0"),
        }
    }

    fn bidder(&mut self, auction: &Auction, saved: &Saved, place: usize) -> Result<(), AllocError> {
        if place >= auction.definition().bidder_count() || place >= saved.bidders.len() {
            return Ok(());
        }
        let view = auction.bidder_view(BidderId::new(place));
        let kept = saved.bidders[place];
        let number = number_of(kept.last);
        write!(
            self.text,
            "bidder {place} {} {}",
            view.eligibility, view.activity
        )?;
        write!(self.text, " {} {number} {}", view.ticket, view.waivers)?;
        writeln!(self.text, " {} {}", kept.has_waived, kept.bid_on)
    }
}

/// The number of a sender's last command, or 0 if it has none.
fn number_of(last: Option<Accepted>) -> u32 {
    match last {
        Some(accepted) => accepted.number,
        None => 0,
    }
}
