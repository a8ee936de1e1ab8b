//! A house without its threads, through a seed: from a new device to the last answer.
ghost use Rattle.std.specs.Prelude.{◌<◌};

mod commands;
mod life;
mod senders;
mod tale;

use crate::random::Random;
use anyhow::{Result, bail};
use hpb_test_engine::devices::{CELLS, PAGES, new_device_with};
use life::{Life, SEATS, World};
use senders::Sender;
use std::alloc::{AllocError, Global};
use std::sync::Wait;
use tale::Tale;

/// How many batches are tried, at most, until all commands are answered.
const BATCHES: u32 = 200;

/// Goes through a seed: a new device, some lives of a house over it, each ended by a stop, and a last life in which all
/// commands are answered. After an error the tale up to it is there too.
pub(crate) fn simulate<R: Wait>(rt: &R, world: &mut World, seed: u64) -> Result<()> {
    make_device(world, seed)?;
    let lives = world.random.below(6).saturating_add(2);
    for _ in 0..lives {
        live(rt, world)?;
    }
    settle(rt, world)?;
    // The auction on the device at the end goes into the tale.
    let _ = Life::begin(rt, world, 0)?;
    world.tale.line("end")?;
    Ok(())
}

/// The beginning of a seed.
pub(crate) fn new_world(alloc: Global, seed: u64) -> Result<World, AllocError> {
    let mut senders = Vec::new(alloc);
    for _ in 0..SEATS {
        senders.push(Sender::new(alloc))?;
    }
    Ok(World {
        alloc,
        random: Random::new(seed),
        tale: Tale::new(alloc),
        senders,
        disk: None,
    })
}

/// A new device, of pages or of cells.
fn make_device(world: &mut World, seed: u64) -> Result<()> {
    let shape = if world.random.is_one_in(2) {
        PAGES
    } else {
        CELLS
    };
    let waivers = u64::from(world.random.below(4));
    world.tale.begin(seed, shape, waivers)?;
    world.disk = Some(new_device_with(world.alloc, shape, waivers)?);
    Ok(())
}

/// One life of a house, from an opening to a stop.
fn live<R: Wait>(rt: &R, world: &mut World) -> Result<()> {
    let fault = world.random.fault();
    let mut life = Life::begin(rt, world, fault)?;
    make_steps(&mut life, world)?;
    Box::into_inner(life).stop(world)
}

/// Makes some steps. A batch may be on its way behind them.
fn make_steps<W: Wait + Drop>(life: &mut Life<W>, world: &mut World) -> Result<()> {
    let steps = world.random.below(400);
    let pace = pace(&mut world.random);
    for _ in 0..steps {
        life.step(world, pace)?;
    }
    if world.random.is_one_in(2) {
        life.hurry(world)?;
    }
    Ok(())
}

/// One in this many steps of workers is of a checkpoint: they are seldom, or as many as those of commits, or more.
fn pace(random: &mut Random) -> u32
    ensures { 0 < result }
{
    match random.below(3) {
        0 => 16,
        1 => 4,
        _ => 2,
    }
}

/// A life in which no call fails, until all commands are answered.
fn settle<R: Wait>(rt: &R, world: &mut World) -> Result<()> {
    let mut life = Life::begin(rt, world, 0)?;
    answer_all(&mut life, world)?;
    Box::into_inner(life).stop(world)
}

fn answer_all<W: Wait + Drop>(life: &mut Life<W>, world: &mut World) -> Result<()> {
    for _ in 0..BATCHES {
        if world.senders.iter().all(|sender| sender.is_done()) {
            return Ok(());
        }
        life.settle(world)?;
    }
    bail!("not all was answered")
}
