//! A house from an opening to a stop.
ghost use Rattle.std.specs.Prelude.{◌↔◌, ◌<◌, IsTrue};
ghost use Rattle.hpb_board.specs.Publication.{AreSeated};

use crate::house::commands::{BIDDERS, next_command};
use crate::house::senders::Sender;
use crate::house::tale::Tale;
use crate::random::{Random, Stop};
use anyhow::{Result, bail};
use hpb_disk::{MemoryDisk, OnceDisk};
use hpb_engine::{Fault, Rest, Step};
use hpb_house::{Halt, House, Keeper, Offered, Reason, Started};
use hpb_recover::{Cause, Opened};
use hpb_rings::{Client, Intake};
use hpb_rules::{Letter, Letters};
use hpb_test_engine::devices::{boxed, opened, opened_or_cause};
use std::alloc::Global;
use std::sync::Wait;

/// How many clients a house has: four for the bidders, one for the auctioneer, and two more for the first two bidders.
pub(crate) const SEATS: u8 = 7;

/// A device in memory with one call that fails.
type Device = OnceDisk<MemoryDisk>;

/// The parts that outlive a stop.
#[derive(Drop)]
pub(crate) struct World {
    pub(crate) alloc: Global,
    pub(crate) random: Random,
    pub(crate) tale: Tale,
    /// By the seats of their clients.
    pub(crate) senders: Vec<Sender>,
    /// The device after a stop, until it is opened.
    pub(crate) disk: Option<MemoryDisk>,
}

/// A house without a lock, with its clients.
#[derive(Drop)]
pub(crate) struct Life<W: Wait + Drop> {
    keeper: Keeper<Device, W>,
    intake: Intake<Halt>,
    clients: Vec<Client<Halt>>,
    // Letters that were handed back, and are offered again.
    held: Option<Letters>,
    is_committing: bool,
}

impl<W: Wait + Drop> Life<W> {
    /// Opens the device, with one call that fails, that of this number (none at 0), and starts a house over it.
    pub(crate) fn begin(rt: W, world: &mut World, fault: u64) -> Result<Box<Life<W>>> {
        let opened = opened_in(world, fault)?;
        world.tale.auction(opened.auction())?;
        for sender in world.senders.iter_mut() {
            sender.repeat();
        }
        match House::start(rt, world.alloc, Box::into_inner(opened), SEATS) {
            Ok(
                Started {
                    keeper,
                    intake,
                    clients,
                    ..
                },
            ) => {
                let life = Life {
                    keeper,
                    intake,
                    clients,
                    held: None,
                    is_committing: false,
                };
                Ok(boxed(world.alloc, life)?)
            }
            Err(fault) => {
                drop(fault);
                bail!("the house was not started")
            }
        }
    }

    /// One step of a client, or of a worker. One in `pace` steps of the workers is of a checkpoint.
    pub(crate) fn step(&mut self, world: &mut World, pace: u32) -> Result<()>
        requires { 0 < pace }
    {
        let seat = world.random.below(u32::from(SEATS)) as usize;
        match world.random.below(12) {
            0..=2 => {
                self.think(world, seat)?;
                self.post(world, seat)
            }
            3 | 4 => self.take(world, seat),
            _ => self.work(world, pace),
        }
    }

    /// One step of a worker. A step that can't be made now is seldom tried.
    fn work(&mut self, world: &mut World, pace: u32) -> Result<()>
        requires { 0 < pace }
    {
        if world.random.is_one_in(pace) || (self.held.is_some() && world.random.is_one_in(2)) {
            self.checkpoint(&mut world.tale)
        } else if self.is_committing != world.random.is_one_in(8) {
            self.commit(&mut world.tale)
        } else {
            self.offer(&mut world.tale)
        }
    }

    /// Posts all commands without an answer, and does each worker's work for a batch.
    pub(crate) fn settle(&mut self, world: &mut World) -> Result<()> {
        for seat in 0..usize::from(SEATS) {
            self.post(world, seat)?;
        }
        self.offer(&mut world.tale)?;
        for _ in 0..4 {
            self.commit(&mut world.tale)?;
        }
        self.checkpoint(&mut world.tale)?;
        self.checkpoint(&mut world.tale)?;
        for seat in 0..usize::from(SEATS) {
            self.take(world, seat)?;
        }
        Ok(())
    }

    /// All clients post, and some turns of a commit are made.
    pub(crate) fn hurry(&mut self, world: &mut World) -> Result<()> {
        for seat in 0..usize::from(SEATS) {
            self.think(world, seat)?;
            self.post(world, seat)?;
        }
        self.offer(&mut world.tale)?;
        for _ in 0..world.random.below(5) {
            self.commit(&mut world.tale)?;
        }
        Ok(())
    }

    /// A client has a new command, once all others are posted.
    fn think(&mut self, world: &mut World, seat: usize) -> Result<()> {
        if seat >= world.senders.len() || !world.senders[seat].is_ready() {
            return Ok(());
        }
        let ahead = world.senders[seat].ahead();
        let auction = self.keeper.committed();
        let place = seat % (BIDDERS + 1);
        if let Some(command) = next_command(&mut world.random, auction, place, ahead) {
            world.senders[seat].send(command)?;
        }
        Ok(())
    }

    /// A client posts the next of its commands that has no answer.
    fn post(&mut self, world: &mut World, seat: usize) -> Result<()> {
        if seat >= world.senders.len() || seat >= self.clients.len() {
            return Ok(());
        }
        let Some(command) = world.senders[seat].next() else {
            return Ok(());
        };
        let client = &mut self.clients[seat];
        let letter = Letter {
            seat: client.seat,
            command,
        };
        if client.post(letter).is_ok() {
            world.senders[seat].post();
            world.tale.letter("post", &letter)?;
        }
        Ok(())
    }

    /// A client takes an answer.
    fn take(&mut self, world: &mut World, seat: usize) -> Result<()> {
        if seat >= world.senders.len() || seat >= self.clients.len() {
            return Ok(());
        }
        let client = &mut self.clients[seat];
        let _ = client.poll();
        world
            .tale
            .view(client.seat, client.viewer.auction().count())?;
        match client.take() {
            Ok(Some(answer)) => {
                world.senders[seat].answer();
                world.tale.answer("take", &answer)?;
            }
            Ok(None) => {}
            Err(answer) => world.tale.answer("order", &answer)?,
        }
        Ok(())
    }

    /// The committer offers the letters that it holds, or else those that wait.
    fn offer(&mut self, tale: &mut Tale) -> Result<()> {
        let letters = match self.held.take() {
            Some(letters) => letters,
            None => self.gather(tale)?,
        };
        if letters.len() == 0 {
            return Ok(());
        }
        if !are_seated(self.keeper.seats(), letters.as_slice()) {
            bail!("a seat that nobody has");
        }
        match self.keeper.offer(letters) {
            Offered::InFlight => {
                self.is_committing = true;
                tale.line("offer flight")?;
            }
            Offered::Answered(answers) => {
                tale.line("offer old")?;
                tale.answers("leave", answers.as_slice())?;
            }
            Offered::Back(letters, reason) => {
                self.held = Some(letters);
                tale.line(told_back(reason))?;
            }
        }
        Ok(())
    }

    fn gather(&mut self, tale: &mut Tale) -> Result<Letters> {
        let letters = self.intake.gather();
        for letter in letters.as_slice() {
            tale.letter("gather", letter)?;
        }
        Ok(letters)
    }

    fn commit(&mut self, tale: &mut Tale) -> Result<()> {
        match self.keeper.commit() {
            Ok(Step::Idle) => tale.line("commit idle")?,
            Ok(Step::Went) => tale.line("commit went")?,
            Ok(Step::Done(answers)) => {
                self.is_committing = false;
                tale.line("commit done")?;
                tale.answers("leave", answers.as_slice())?;
            }
            Err(fault) => {
                tale.line(match fault {
                    Fault::Device => "commit device",
                    Fault::Failed => "commit failed",
                })?;
                self.halt()?;
            }
        }
        Ok(())
    }

    fn checkpoint(&mut self, tale: &mut Tale) -> Result<()> {
        match self.keeper.checkpoint() {
            Ok(Rest::Idle) => tale.line("checkpoint idle")?,
            Ok(Rest::Went(_)) => tale.line("checkpoint went")?,
            Ok(Rest::Whole) => tale.line("checkpoint whole")?,
            Err(fault) => {
                tale.line(match fault {
                    Fault::Device => "checkpoint device",
                    Fault::Failed => "checkpoint failed",
                })?;
                self.halt()?;
            }
        }
        Ok(())
    }

    /// After a fault each client gets the halt.
    fn halt(&mut self) -> Result<()> {
        let Some(halt) = self.keeper.halt() else {
            bail!("a fault that nobody is told");
        };
        self.intake.halt(halt);
        for client in self.clients.iter_mut() {
            if !client.halted() {
                bail!("a client that isn't told");
            }
        }
        Ok(())
    }

    /// The device then has the bytes that a stop leaves of it.
    pub(crate) fn stop(self, world: &mut World) -> Result<()> {
        let Life { keeper, .. } = self;
        let stop = world.random.stop();
        world.tale.line(match stop {
            Stop::Kept => "stop kept",
            Stop::Lost => "stop lost",
            Stop::Torn => "stop torn",
        })?;
        let disk = keeper.finish().disk.into_inner();
        let fates = world.random.fates(world.alloc, stop)?;
        world.disk = Some(disk.after_stop(world.alloc, &fates)?);
        Ok(())
    }
}

/// Opens the device, with one call that fails, that of this number. If that is one of the opening, the device is opened
/// once more.
fn opened_in(world: &mut World, fault: u64) -> Result<Box<Opened<Device>>> {
    let Some(disk) = world.disk.take() else {
        bail!("there is no device");
    };
    match opened(world.alloc, OnceDisk::new(disk, fault)) {
        Ok(opened) => Ok(boxed(world.alloc, opened)?),
        Err(fault) => {
            if fault.cause != Cause::Device {
                bail!("a device that isn't opened: {}", fault.cause);
            }
            world.tale.line("open device")?;
            opened_or_cause(world.alloc, OnceDisk::new(fault.disk.into_inner(), 0))
        }
    }
}

/// Whether each letter's seat is below this number of seats.
fn are_seated(seats: u8, letters: &[Letter]) -> bool
    ensures { IsTrue result ↔ AreSeated seats letters.now }
{
    letters.iter().all(|letter| letter.seat < seats)
}

fn told_back(reason: Reason) -> &'static str {
    match reason {
        Reason::Busy => "offer busy",
        Reason::Full => "offer full",
        Reason::Failed => "offer failed",
        Reason::Spent => "offer spent",
        Reason::Memory => "offer memory",
    }
}
