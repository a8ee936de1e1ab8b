//! Commands that are accepted one after the other, in the auction of six nodes and four bidders.

ghost use Rattle.hpb_house.specs.Clients.{SameClient};

use crate::turns::ask;
use hpb_house::Halt;
use hpb_rings::Client;
use hpb_rules::{Command, Reply};
use hpb_test_engine::letters::Bidder::{W, X, Y, Z};
use hpb_test_engine::letters::Node::{A, All, B, C};
use hpb_test_engine::letters::{bid, close, stage};
use std::sync::Wait;

/// The command of this place behind three rounds, from 0: in each further round z bids on the greatest package, and the
/// round is closed.
fn in_later_round(place: u32) -> Command {
    let rounds = place / 2;
    if place % 2 == 0 {
        let amount = u64::from(rounds).saturating_mul(100).saturating_add(700);
        bid(Z, rounds.saturating_add(3), All, amount).command
    } else {
        close(rounds.saturating_add(5)).command
    }
}

/// The command of this place, from 0. Those from 0 to 17 are accepted in turn.
pub(crate) fn accepted_command(place: u32) -> Command {
    match place {
        0 => bid(X, 1, A, 100).command,
        1 => bid(Y, 1, B, 150).command,
        2 => bid(Z, 1, All, 500).command,
        3 => bid(W, 1, C, 100).command,
        4 => close(1).command,
        5 => bid(W, 2, C, 250).command,
        6 => close(2).command,
        7 => bid(Z, 2, All, 600).command,
        8 => stage(3).command,
        9 => close(4).command,
        _ => in_later_round(place.saturating_sub(10)),
    }
}

/// Whether the command of a place is newly accepted, as the next after as many others.
fn is_accepted<R: Wait>(rt: &R, client: &mut Client<Halt>, place: u32) -> bool
    ensures same { SameClient client.old client.new }
{
    match ask(rt, client, accepted_command(place)) {
        Some(answer) => { answer.at == place && answer.reply == Reply::Ok(place.saturating_add(1)) }
        None => false,
    }
}

/// Asks the commands of these places, each once the one before is answered. Gives how many were newly accepted.
pub(crate) fn ask_places<R: Wait>(rt: &R, client: &mut Client<Halt>, from: u32, to: u32) -> u64
    ensures same { SameClient client.old client.new }
{
    let mut accepted = 0u64;
    for place in from..to {
        if is_accepted(rt, client, place) {
            accepted = accepted.saturating_add(1);
        }
    }
    accepted
}
