//! The calls that are timed, and those whose results must hold however often they are made.
//!
//! `bench/codec` times calls that take no memory, of bodies, auctions and lists; `tests/memory/test_no_memory.py` checks that
//! they take none. `bench/open` times openings, of devices that no program wrote, or of the largest device.
#![tactic(auto)]

mod auctions;
mod bodies;
mod bytes;
mod dice;
mod full;
mod good;
mod hostile;
mod opening;
mod rounds;
mod tally;
mod trial;

use crate::full::{open_rounds, read_rounds};
use crate::rounds::{
    copies, decode_batches, decode_states, encode_batches, encode_heads, encode_states, lists,
    restores, saves,
};
use crate::trial::try_devices;
use anyhow::{Result, bail};
use hpb_codec::StateFormat;
use std::alloc::Global;
use std::process::ExitCode;

fn main(rt: HostRuntime) -> ExitCode {
    match run(&rt) {
        Ok(()) => ExitCode::SUCCESS,
        Err(error) => {
            let _ = eprintln!(rt; "{error}");
            ExitCode::FAILURE
        }
    }
}

/// Does the job that the words name.
fn run(rt: &HostRuntime) -> Result<()> {
    let alloc = rt.alloc();
    let words: Vec<String> = std::env::args(rt)?.collect(alloc)?;
    let (Some(what), Some(count)) = (words.get(1), words.get(2)) else {
        bail!("what, and how often");
    };
    let count = count.parse::<u64>()?;
    let seed = match words.get(3) {
        Some(seed) => seed.parse::<u64>()?,
        None => 1,
    };
    match what.as_str() {
        "devices" => print_trial(rt, count, seed),
        "check" => check_trial(rt, count, seed),
        "open" => Ok(println!(rt; "{}", open_rounds(alloc, count)?)?),
        "read" => Ok(println!(rt; "{}", read_rounds(alloc, count)?)?),
        call => Ok(println!(rt; "{}", sum_of(alloc, call, count)?)?),
    }
}

/// The sum of this many rounds of a call that takes no memory.
fn sum_of(alloc: Global, call: &str, rounds: u64) -> Result<u64> {
    match call {
        "encode-batch" => encode_batches(alloc, rounds),
        "decode-batch" => decode_batches(alloc, rounds),
        "encode-state" => encode_states(alloc, StateFormat::Two, rounds),
        "encode-state-1" => encode_states(alloc, StateFormat::One, rounds),
        "decode-state" => decode_states(alloc, rounds),
        "encode-head" => encode_heads(alloc, rounds),
        "save" => saves(alloc, rounds),
        "restore" => restores(alloc, rounds),
        "copy-from" => copies(alloc, rounds),
        "lists" => Ok(lists(rounds)),
        _ => bail!("no such call"),
    }
}

/// Opens this many hostile devices, and prints how many had each result.
fn print_trial(rt: &HostRuntime, count: u64, seed: u64) -> Result<()> {
    let trial = try_devices(rt.alloc(), count, seed)?;
    println!(rt; "random: {}", trial.random)?;
    println!(rt; "flipped: {}", trial.flipped)?;
    println!(rt; "spliced: {}", trial.spliced)?;
    Ok(())
}

/// Opens this many hostile devices. Some devices of each making must have each result.
fn check_trial(rt: &HostRuntime, count: u64, seed: u64) -> Result<()> {
    if !try_devices(rt.alloc(), count, seed)?.has_all() {
        bail!("an answer was never given");
    }
    println!(rt; "{count} devices")?;
    Ok(())
}
