//! Random events, the same for a seed each time.
//!
//! A walk takes an engine through them beside a plain model, with a stop after each call of the device. A house is
//! taken through them without its threads: clients, rings, board, engine and a device that fails and stops, one step
//! after another.
//!
//! The tale has all that was sent, and the results. `bench/simulate` checks it against the rules.
#![tactic(auto)]

mod bidding;
mod house;
mod random;
mod walk;

use crate::house::{new_world, simulate};
use crate::walk::walk_from;
use anyhow::{Error, Result, bail};
use hpb_codec::JournalShape;
use hpb_test_engine::over_layouts;
use std::alloc::Global;
use std::process::ExitCode;
use std::sync::Wait;

/// How many stops a walk makes over devices of a layout.
const STOPS: u64 = 10_000;

/// Through how many seeds a house is taken, if no words say so.
const SEEDS: u64 = 100;

/// The request of the words.
#[derive(Clone, Copy)]
struct Asked {
    first: u64,
    count: u64,
    /// Whether there are no words: then walks come first, and of the seeds only their number is printed.
    is_all: bool,
}

fn main(rt: HostRuntime) -> ExitCode {
    let asked = match read_words(&rt) {
        Ok(asked) => asked,
        Err(error) => return failed(&rt, &error),
    };
    match run(&rt, rt.alloc(), asked) {
        Ok(()) => ExitCode::SUCCESS,
        Err(error) => failed(&rt, &error),
    }
}

fn failed(rt: &HostRuntime, error: &Error) -> ExitCode {
    let _ = eprintln!(rt; "{error}");
    ExitCode::FAILURE
}

/// The first seed, and how many there are.
fn read_words(rt: &HostRuntime) -> Result<Asked> {
    let words: Vec<String> = std::env::args(rt)?.collect(rt.alloc())?;
    match (words.get(1), words.get(2)) {
        (None, _) => Ok(Asked {
            first: 1,
            count: SEEDS,
            is_all: true,
        }),
        (Some(_), None) => bail!("the first seed, and how many"),
        (Some(first), Some(count)) => Ok(Asked {
            first: first.parse::<u64>()?,
            count: count.parse::<u64>()?,
            is_all: false,
        }),
    }
}

/// Makes the walks, if all is asked for, and goes through the seeds.
fn run<R: Wait + Print>(rt: &R, alloc: Global, asked: Asked) -> Result<()> {
    if asked.is_all {
        over_layouts!(shape => walk_over(rt, alloc, shape)?);
    }
    for place in 0..asked.count {
        let seed = asked.first.wrapping_add(place);
        let mut world = new_world(alloc, seed)?;
        let ended = simulate(rt, &mut world, seed);
        if !asked.is_all {
            print!(rt; "{}", world.tale.text.as_str())?;
        }
        ended?;
    }
    if asked.is_all {
        println!(rt; "{} seeds", asked.count)?;
    }
    Ok(())
}

/// Walks over devices with such a journal, and prints how many stops were made. Each kind of event must have come
/// often.
fn walk_over<P: Print>(rt: &P, alloc: Global, shape: JournalShape) -> Result<()> {
    let tally = walk_from(alloc, shape, STOPS, 1)?;
    if !tally.is_full() {
        bail!("too seldom: {tally}");
    }
    println!(rt; "{} stops", tally.stops)?;
    Ok(())
}
