//! Many clients: the answers that they took match the committed commands.
ghost use Rattle.hpb_house.specs.Clients.{SameClient};

use crate::devices::{WIDE, six_nodes_opened, wide_opened};
use crate::harness::{Outcome, Session, run_in_memory};
use crate::turns::{ask, post};
use hpb_codec::JournalLayout;
use hpb_house::{Halt, OpenGate};
use hpb_rings::Client;
use hpb_rules::{BidderId, Command, NodeId};
use hpb_test_engine::devices::count_on;
use hpb_test_engine::letters::Bidder::{W, X, Y, Z};
use hpb_test_engine::letters::Node::{A, B, C, D};
use hpb_test_engine::letters::bid;
use hpb_test_engine::over_layouts;
use std::alloc::Global;
use std::process::Abort;
use std::sync::Wait;
use std::sync::atomic::{AtomicU64, Ordering};
use std::test::*;
use std::thread::Threads;

/// Two clients, each of which bids on licences of its own.
#[derive(Drop)]
struct TwoClients;

impl Session for TwoClients {
    fn run<R: Wait>(&self, rt: &R, client: Client<Halt>) -> Client<Halt> {
        let mut client = client;
        let (one, two) = if client.seat == 0 {
            (bid(X, 1, A, 100), bid(W, 1, C, 100))
        } else {
            (bid(Y, 1, B, 150), bid(Z, 1, D, 100))
        };
        let _ = ask(rt, &mut client, one.command);
        let _ = ask(rt, &mut client, two.command);
        client
    }
}

#[test]
fn two_clients_counted(rt: HostRuntime) -> Result<(), Fail> {
    let alloc = rt.alloc();
    over_layouts!(shape => {
        let opened = six_nodes_opened(alloc, shape)?;
        let run = run_in_memory(&rt, alloc, opened, 2, &OpenGate, &TwoClients)?;
        let wanted = Outcome {
            is_closed: true,
            committed: 4,
            taken: 4,
            accepted: 4,
        };
        assert_eq!(rt; run.outcome, wanted);
        assert_eq!(rt; count_on(alloc, run.disk)?, 4);
    });
    Ok(())
}

/// How many letters each client sends.
const LETTERS: u32 = 1_000;

/// A bid of a seat's bidder: on each licence once, and then the last of these again and again.
fn wide_bid(seat: u8, place: u32) -> Command {
    let licence = place.min(31);
    Command::Bid {
        bidder: BidderId::new(usize::from(seat % WIDE)),
        ticket: licence + 1,
        node: NodeId::new(licence as usize),
        amount: 100,
    }
}

/// Takes all answers that have come. `None` if one is refused.
fn take_all(client: &mut Client<Halt>) -> Option<u32>
    ensures same { SameClient client.old client.new }
{
    let mut taken = 0u32;
    for _ in 0..16 {
        let _ = client.poll();
        match client.take() {
            Ok(Some(_)) => taken = taken.saturating_add(1),
            Ok(None) => return Some(taken),
            Err(_) => return None,
        }
    }
    Some(taken)
}

/// Posts letters from this one on, until one is handed back. Gives the number of the next.
fn post_from(client: &mut Client<Halt>, from: u32) -> u32
    ensures same { SameClient client.old client.new }
{
    let seat = client.seat;
    for place in from..LETTERS {
        if !post(client, wide_bid(seat, place)) {
            return place;
        }
    }
    LETTERS.max(from)
}

/// Sends all letters, with as many outstanding as the ring takes, and takes their answers. Gives how many were taken.
fn send_all<R: Wait>(rt: &R, client: &mut Client<Halt>) -> u64
    ensures same { SameClient client.old client.new }
{
    let mut next = 0;
    let mut taken = 0u64;
    for _ in rt.forever() {
        next = post_from(client, next);
        match take_all(client) {
            Some(0) if client.outstanding() == 0 && next >= LETTERS => return taken,
            Some(0) => client.wait(rt),
            Some(more) => taken = taken.saturating_add(u64::from(more)),
            None => return taken,
        }
    }
    unreachable!()
}

/// Many clients, each of which sends many letters.
#[derive(Drop)]
struct ManyClients {
    /// How many clients took an answer to each letter.
    whole: AtomicU64,
}

impl Session for ManyClients {
    fn run<R: Wait>(&self, rt: &R, client: Client<Halt>) -> Client<Halt> {
        let mut client = client;
        if send_all(rt, &mut client) == u64::from(LETTERS) {
            self.whole.fetch_add(1, Ordering::SeqCst);
        }
        client
    }
}

/// Many clients of a house over a device of this layout.
fn count_many<R: Threads + Wait + Sync + Abort>(
    rt: &R,
    alloc: Global,
    layout: JournalLayout,
) -> Result<(), Fail> {
    let session = ManyClients {
        whole: AtomicU64::new(0),
    };
    let opened = wide_opened(alloc, layout)?;
    let run = run_in_memory(rt, alloc, opened, WIDE, &OpenGate, &session)?;
    assert_eq!(rt; session.whole.load(Ordering::SeqCst), 32);
    let wanted = Outcome {
        is_closed: true,
        committed: 1_024,
        taken: 32_000,
        accepted: 1_024,
    };
    assert_eq!(rt; run.outcome, wanted);
    assert_eq!(rt; count_on(alloc, run.disk)?, 1_024);
    Ok(())
}

#[test]
fn thirty_two_clients_over_pages(rt: HostRuntime) -> Result<(), Fail> {
    count_many(&rt, rt.alloc(), JournalLayout::Pages)
}

#[test]
fn thirty_two_clients_over_cells(rt: HostRuntime) -> Result<(), Fail> {
    count_many(&rt, rt.alloc(), JournalLayout::Cells)
}
