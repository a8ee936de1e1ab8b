//! A plain model of the engine: lists of commands, and the numbers of its frames.

use anyhow::Result;
use hpb_auction::{Auction, run_commands};
use hpb_disk::MemoryDisk;
use hpb_engine::{Part, Rest, Weight};
use hpb_recover::{Opened, Plan};
use hpb_rules::{Answer, Answers, Command, Letters};
use hpb_test_engine::calls::Turn;
use hpb_test_engine::devices::{boxed, six_nodes};
use hpb_test_engine::states::same;
use std::alloc::{AllocError, Global};

/// The work that is next for a checkpoint.
#[derive(Clone, Copy, Debug, PartialEq, Eq)]
enum Phase {
    Rest,
    /// This many of the nine steps were made, of a state that covers this many batches.
    Writing { steps: u8, covers: u64 },
    /// This many frames are left to retire.
    Retiring { left: u64 },
}

/// New commands on their way, the answers that leave with them, and how many turns were made.
#[derive(Drop)]
struct Flight {
    commands: Vec<Command>,
    answers: Answers,
    turns: u8,
}

/// The batches that stand after a stop.
#[derive(Clone, Copy, Debug, PartialEq, Eq)]
pub(crate) enum Standing {
    Acknowledged,
    WithFlight,
}

#[derive(Drop)]
pub(crate) struct Model {
    acknowledged: Vec<Command>,
    flight: Option<Flight>,
    phase: Phase,
    /// How many frames there are.
    frames: u64,
    /// How many batches are acknowledged, how many the newest state covers, and the end of the clean frames.
    next: u64,
    covered: u64,
    clean_end: u64,
}

impl Model {
    /// A new device with this many frames.
    pub(crate) fn new(alloc: Global, frames: u32) -> Model {
        let frames = u64::from(frames);
        Model {
            acknowledged: Vec::new(alloc),
            flight: None,
            phase: Phase::Rest,
            frames,
            next: 0,
            covered: 0,
            clean_end: frames,
        }
    }

    /// The auction after the acknowledged commands.
    pub(crate) fn auction(&self, alloc: Global) -> Result<Box<Auction>> {
        let definition = boxed(alloc, six_nodes(alloc)?)?;
        let run = run_commands(alloc, &definition, &self.acknowledged)?;
        Ok(boxed(alloc, run.auction)?)
    }

    /// The auction after those in flight too.
    fn landed(&self, alloc: Global) -> Result<Box<Auction>> {
        let mut auction = self.auction(alloc)?;
        if let Some(flight) = &self.flight {
            for command in &flight.commands {
                auction.apply(command);
            }
        }
        Ok(auction)
    }

    fn end(&self) -> u64 {
        self.covered.saturating_add(self.frames)
    }

    /// An offer: its result, and the answers that leave with it.
    pub(crate) fn offer(&mut self, alloc: Global, letters: &Letters) -> Result<(Weight, Answers)> {
        if self.flight.is_some() {
            return Ok((Weight::Busy, Answers::new()));
        }
        let flight = judged(alloc, self.auction(alloc)?, letters)?;
        if flight.commands.is_empty() {
            return Ok((Weight::Old, flight.answers));
        }
        if self.next == self.clean_end {
            return Ok((Weight::Full, Answers::new()));
        }
        self.flight = Some(flight);
        Ok((Weight::New, Answers::new()))
    }

    /// A turn of a commit, and the answers that leave with it.
    pub(crate) fn commit(&mut self) -> Result<(Turn, Answers)> {
        let Some(flight) = self.flight.take() else {
            return Ok((Turn::Idle, Answers::new()));
        };
        let mut flight = flight;
        flight.turns = flight.turns.saturating_add(1);
        if flight.turns < 4 {
            self.flight = Some(flight);
            return Ok((Turn::Went, Answers::new()));
        }
        self.acknowledge(&flight.commands)?;
        Ok((Turn::Done, flight.answers))
    }

    fn acknowledge(&mut self, commands: &[Command]) -> Result<()> {
        self.acknowledged.extend_from_slice(commands)?;
        self.next = self.next.saturating_add(1);
        Ok(())
    }

    /// A step of a checkpoint.
    pub(crate) fn checkpoint(&mut self) -> Rest {
        match self.phase {
            Phase::Rest if self.covered < self.next => self.write_on(0, self.next),
            Phase::Rest if self.clean_end < self.end() => self.retire_on(self.unclean()),
            Phase::Rest => Rest::Idle,
            Phase::Writing { steps, covers } => self.write_on(steps, covers),
            Phase::Retiring { left } => self.retire_on(left),
        }
    }

    /// How many frames are to be retired.
    fn unclean(&self) -> u64 {
        self.end().saturating_sub(self.clean_end)
    }

    /// Makes the next of nine steps, after `steps`.
    fn write_on(&mut self, steps: u8, covers: u64) -> Rest {
        self.phase = Phase::Writing {
            steps: steps.saturating_add(1),
            covers,
        };
        match steps {
            2..=5 => Rest::Went(Part::Chunk(steps - 2)),
            0..=7 => Rest::Went(Part::Other),
            _ => {
                self.covered = covers;
                self.phase = Phase::Retiring {
                    left: self.unclean(),
                };
                Rest::Went(Part::Other)
            }
        }
    }

    /// Retires a frame, or finishes after the last.
    fn retire_on(&mut self, left: u64) -> Rest {
        if left > 0 {
            self.phase = Phase::Retiring { left: left - 1 };
            return Rest::Went(Part::Retired);
        }
        self.phase = Phase::Rest;
        self.clean_end = self.end();
        Rest::Whole
    }

    /// The batches that stand on a device that was opened after a stop. `None` if they aren't allowed.
    pub(crate) fn standing(
        &self,
        alloc: Global,
        opened: &Opened<MemoryDisk>,
    ) -> Result<Option<Standing>> {
        if !self.may_be_planned(&opened.plan) {
            return Ok(None);
        }
        let next = opened.plan.next;
        let acknowledged = self.auction(alloc)?;
        if next == self.next && same(opened.auction(), &acknowledged) {
            return Ok(Some(Standing::Acknowledged));
        }
        let landed = self.landed(alloc)?;
        // The gate of the batch in flight was written.
        let may_land = match &self.flight {
            Some(flight) => flight.turns == 3,
            None => false,
        };
        if may_land && next == self.next.saturating_add(1) && same(opened.auction(), &landed) {
            return Ok(Some(Standing::WithFlight));
        }
        Ok(None)
    }

    /// Whether the newest state and the clean frames may be these. The newest state is the old one, or the one whose
    /// gate is written.
    fn may_be_planned(&self, plan: &Plan) -> bool {
        let written = Phase::Writing {
            steps: 8,
            covers: plan.covered,
        };
        (plan.covered == self.covered || self.phase == written)
            && plan.next <= plan.clean_end
            && self.clean_end <= plan.clean_end
            && plan.clean_end <= plan.covered.saturating_add(self.frames)
    }

    /// The model after a stop, as the device was opened.
    pub(crate) fn restart(
        &mut self,
        standing: Standing,
        opened: &Opened<MemoryDisk>,
    ) -> Result<()> {
        if let Some(flight) = self.flight.take() {
            if standing == Standing::WithFlight {
                self.acknowledge(&flight.commands)?;
            }
        }
        self.phase = Phase::Rest;
        self.covered = opened.plan.covered;
        self.clean_end = opened.plan.clean_end;
        Ok(())
    }
}

/// Letters that are judged one after another, beginning with an auction.
fn judged(alloc: Global, auction: Box<Auction>, letters: &Letters) -> Result<Flight, AllocError> {
    let mut auction = auction;
    let (mut answers, mut commands) = (Answers::new(), Vec::new(alloc));
    for letter in letters.as_slice() {
        let at = auction.count();
        let reply = auction.apply(&letter.command);
        if auction.count() > at {
            commands.push(letter.command)?;
        }
        let _ = answers.push(Answer {
            letter: *letter,
            at,
            reply,
        });
    }
    Ok(Flight {
        commands,
        answers,
        turns: 0,
    })
}
