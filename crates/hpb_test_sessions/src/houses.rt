//! A house that commits more batches than 65,536: its keeper, without threads.
ghost use Rattle.std.specs.Prelude.{◌↔◌, IsTrue};
ghost use Rattle.hpb_board.specs.Publication.{AreSeated};

use crate::auctions::{Size, next_letter};
use crate::rows::{cells, formatted};
use anyhow::{Result, bail};
use hpb_disk::{Disk, MemoryDisk};
use hpb_engine::{Rest, Step};
use hpb_house::{House, Keeper, Offered, Reason, Started};
use hpb_rules::{Command, Letter, Letters};
use hpb_test_engine::devices::{boxed, count_on, opened_or_cause};
use std::alloc::Global;
use std::sync::Wait;
use std::test::Fail;

/// How many batches there are, of a command each.
const BATCHES: u32 = 65_537;

/// Rounds of 1,025 commands.
const SIZE: Size = Size {
    nodes: 16,
    packages: 0,
    bidders: 64,
};

/// How many steps a checkpoint may have.
const STEPS: u32 = 2_000;

/// Whether each letter's seat is below this number of seats.
fn are_seated(seats: u8, letters: &[Letter]) -> bool
    ensures { IsTrue result ↔ AreSeated seats letters.now }
{
    letters.iter().all(|letter| letter.seat < seats)
}

fn commits<D: Disk + Drop, W: Wait + Drop>(keeper: &mut Keeper<D, W>) -> Result<()> {
    for _ in 0..4 {
        match keeper.commit() {
            Ok(Step::Done(_)) => return Ok(()),
            Ok(Step::Went) => {}
            Ok(Step::Idle) | Err(_) => bail!("a step of a commit"),
        }
    }
    bail!("a commit of more than four steps")
}

fn makes_room<D: Disk + Drop, W: Wait + Drop>(keeper: &mut Keeper<D, W>) -> Result<()> {
    for _ in 0..STEPS {
        match keeper.checkpoint() {
            Ok(Rest::Whole) => return Ok(()),
            Ok(Rest::Went(_)) => {}
            Ok(Rest::Idle) | Err(_) => bail!("a step of a checkpoint"),
        }
    }
    bail!("a checkpoint of more than {STEPS} steps")
}

/// Offers a batch of this letter. `false` if the journal is full.
fn offers<D: Disk + Drop, W: Wait + Drop>(
    keeper: &mut Keeper<D, W>,
    letter: &Letter,
) -> Result<bool> {
    let mut letters = Letters::new();
    let _ = letters.push(*letter);
    if !are_seated(keeper.seats(), letters.as_slice()) {
        bail!("a seat that nobody has");
    }
    match keeper.offer(letters) {
        Offered::InFlight => Ok(true),
        Offered::Answered(_) => bail!("a command that isn't new"),
        Offered::Back(_, Reason::Full) => Ok(false),
        Offered::Back(_, reason) => bail!("letters are handed back: {reason:?}"),
    }
}

/// Commits a batch of this letter. If the journal is full, it makes a checkpoint first.
fn keeps<D: Disk + Drop, W: Wait + Drop>(keeper: &mut Keeper<D, W>, letter: &Letter) -> Result<()> {
    if !offers(keeper, letter)? {
        makes_room(keeper)?;
        if !offers(keeper, letter)? {
            bail!("a journal that stays full");
        }
    }
    commits(keeper)
}

/// The keeper of a house over a new device.
fn new_keeper<R: Wait>(rt: &R, alloc: Global) -> Result<Box<Keeper<MemoryDisk, &R>>> {
    let opened = opened_or_cause(alloc, formatted(alloc, SIZE, cells(1_024))?)?;
    match House::start(rt, alloc, Box::into_inner(opened), 1) {
        Ok(Started { keeper, .. }) => Ok(boxed(alloc, keeper)?),
        Err(fault) => {
            drop(fault);
            bail!("the house was not started")
        }
    }
}

/// Each batch has the next command, which is accepted.
fn keeps_batches<D: Disk + Drop, W: Wait + Drop>(keeper: &mut Keeper<D, W>) -> Result<()> {
    let mut place = 0u64;
    for number in 1..=BATCHES {
        let command = next_letter(keeper.committed(), SIZE, place).command;
        place = match command {
            Command::Close { .. } => 0,
            _ => place.saturating_add(1),
        };
        keeps(keeper, &Letter { seat: 0, command })?;
        if keeper.published().count() != number {
            bail!(
                "{} commands after {number} batches",
                keeper.published().count()
            );
        }
    }
    Ok(())
}

/// All commands are found when the device is opened again.
fn keeps_all<R: Wait>(rt: &R, alloc: Global) -> Result<()> {
    let mut keeper = new_keeper(rt, alloc)?;
    keeps_batches(&mut keeper)?;
    let count = count_on(alloc, Box::into_inner(keeper).finish().disk)?;
    if count != BATCHES {
        bail!("{count} commands are opened");
    }
    Ok(())
}

#[test]
fn house_of_many_batches(rt: HostRuntime) -> Result<(), Fail> {
    keeps_all(&rt, rt.alloc())?;
    Ok(())
}
