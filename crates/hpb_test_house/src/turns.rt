//! Turns of a client: it polls and takes, or else waits for a short time.
ghost use Rattle.hpb_house.specs.Clients.{SameClient};

use hpb_house::Halt;
use hpb_rings::Client;
use hpb_rules::{Answer, Command, Letter};
use std::sync::Wait;
use std::thread::Parker;
use std::time::Duration;

/// How many turns there are, at most, until something must have come.
pub(crate) const TURNS: u32 = 1_000_000;

/// How long a turn waits, in microseconds.
const PAUSE: u64 = 10;

/// Waits for a short time.
pub(crate) fn pause<R: Wait>(rt: &R) {
    // Nobody rings this bell: a wait for it lasts its full time.
    Parker::new().park_timeout(rt, Duration::from_micros(PAUSE));
}

/// Posts a command from the client's seat. `false` if it is handed back.
pub(crate) fn post(client: &mut Client<Halt>, command: Command) -> bool
    ensures same { SameClient client.old client.new }
{
    let seat = client.seat;
    client.post(Letter { seat, command }).is_ok()
}

/// Takes the next answer. `None` if there is none after this many turns, or if it is refused.
pub(crate) fn take_within<R: Wait>(rt: &R, client: &mut Client<Halt>, turns: u32) -> Option<Answer>
    ensures same { SameClient client.old client.new }
{
    for _ in 0..turns {
        let _ = client.poll();
        match client.take() {
            Ok(Some(answer)) => return Some(answer),
            Ok(None) => pause(rt),
            Err(_) => return None,
        }
    }
    None
}

/// Posts a command and takes its answer. `None` if there is none within the most turns.
pub(crate) fn ask<R: Wait>(rt: &R, client: &mut Client<Halt>, command: Command) -> Option<Answer>
    ensures same { SameClient client.old client.new }
{
    if post(client, command) {
        take_within(rt, client, TURNS)
    } else {
        None
    }
}
