//! Makes a call that takes memory, and again if memory was refused. Without a word it runs a script as `hpb` does. With
//! one word it answers the lines of a small auction, with a status for each fault.
//!
//! `tests/memory` refuses each request for memory in turn, and so sees that none is
//! reported as another fault.
#![tactic(auto)]

mod auctions;
mod calls;
mod definitions;
mod engines;
mod files;
mod formats;
mod houses;
mod memories;
mod openings;
mod scripts;
mod sessions;
mod starts;
mod texts;
mod trials;

use crate::calls::tried;
use crate::scripts::{lines_answered, script_answered};
use anyhow::Result;
use hpb_server::SessionFault;
use std::process::ExitCode;
use std::sync::Wait;

const WELL: u8 = 0;

const NO_MEMORY: u8 = 1;

const READER_FAILED: u8 = 2;

const WRITER_FAILED: u8 = 3;

/// The call's argument couldn't be made, or there is no such call.
const NOT_TRIED: u8 = 4;

fn main(rt: HostRuntime) -> ExitCode {
    ExitCode::from(match words(&rt) {
        Err(fault) => status(Err(fault)),
        Ok(words) => asked(&rt, &rt, words.as_slice()),
    })
}

/// The words with which the program was started.
fn words(rt: &HostRuntime) -> Result<Vec<String>, SessionFault> {
    match std::env::args(rt) {
        Ok(words) => match words.collect(rt.alloc()) {
            Ok(words) => Ok(words),
            Err(_) => Err(SessionFault::Memory),
        },
        Err(_) => Err(SessionFault::Memory),
    }
}

/// Does the job of the words, and gives the status. Without a word it runs a script, and with one it answers lines.
/// With more it makes the call of this name, with a definition of this many nodes, over a device of this layout (1 if
/// none is named).
fn asked<W: Wait>(rt: &HostRuntime, waits: &W, words: &[String]) -> u8 {
    match (words.get(1), words.get(2)) {
        (None, _) => status(script_answered(rt)),
        (Some(_), None) => status(lines_answered(rt)),
        (Some(call), Some(nodes)) => {
            let layout = words.get(3).map_or("1", String::as_str);
            made(tried(rt, waits, call.as_str(), nodes.as_str(), layout))
        }
    }
}

/// The status of a call that was made, whatever its result is.
fn made(tried: Result<()>) -> u8 {
    match tried {
        Ok(()) => WELL,
        Err(_) => NOT_TRIED,
    }
}

/// The status that reports a fault.
fn status(answered: Result<(), SessionFault>) -> u8 {
    match answered {
        Ok(()) => WELL,
        Err(SessionFault::Memory) => NO_MEMORY,
        Err(SessionFault::Reader) => READER_FAILED,
        Err(SessionFault::Writer) => WRITER_FAILED,
    }
}
