//! The answers that a client gets, and its views.
ghost use Rattle.hpb_house.specs.Clients.{SameClient};

use crate::devices::six_nodes_opened;
use crate::harness::{Outcome, Session, run_in_memory};
use crate::script::accepted_command;
use crate::turns::{TURNS, ask, pause, post, take_within};
use hpb_house::{Halt, OpenGate};
use hpb_rings::Client;
use hpb_rules::{Command, Refusal, Reply};
use hpb_test_engine::devices::count_on;
use hpb_test_engine::letters::Bidder::{W, X, Y, Z};
use hpb_test_engine::letters::Node::{A, All, B, C};
use hpb_test_engine::letters::{bid, close};
use hpb_test_engine::over_layouts;
use std::sync::Wait;
use std::sync::atomic::{AtomicBool, AtomicU32, Ordering};
use std::test::*;

/// A command, with how many are accepted before it and its reply.
#[derive(Clone, Copy)]
struct Row {
    command: Command,
    at: u32,
    reply: Reply,
}

/// How many rows there are.
const ROWS: u32 = 9;

/// The row of a place.
fn wanted_at(place: u32) -> Row {
    let (letter, at, reply) = match place {
        0 => (bid(X, 1, A, 100), 0, Reply::Ok(1)),
        1 => (bid(Y, 1, B, 150), 1, Reply::Ok(2)),
        2 => (bid(Z, 1, All, 500), 2, Reply::Ok(3)),
        3 => (bid(W, 1, C, 100), 3, Reply::Ok(4)),
        4 => (close(1), 4, Reply::Ok(5)),
        5 => (bid(X, 1, A, 100), 5, Reply::Ok(1)),
        6 => (bid(X, 1, A, 110), 5, Reply::Refused(Refusal::Ticket)),
        7 => (bid(Y, 3, B, 210), 5, Reply::Refused(Refusal::Gap)),
        _ => (bid(Y, 0, B, 210), 5, Reply::Refused(Refusal::Old)),
    };
    Row {
        command: letter.command,
        at,
        reply,
    }
}

/// Whether a command's answer is that of its row.
fn is_answered<R: Wait>(rt: &R, client: &mut Client<Halt>, row: &Row) -> bool
    ensures same { SameClient client.old client.new }
{
    match ask(rt, client, row.command) {
        Some(answer) => {
            answer.letter.command == row.command && answer.at == row.at && answer.reply == row.reply
        }
        None => false,
    }
}

/// Asks the rows in turn, and counts those whose answer is right.
#[derive(Drop)]
struct Tickets {
    right: AtomicU32,
}

impl Session for Tickets {
    fn run<R: Wait>(&self, rt: &R, client: Client<Halt>) -> Client<Halt> {
        let mut client = client;
        for place in 0..ROWS {
            if is_answered(rt, &mut client, &wanted_at(place)) {
                self.right.fetch_add(1, Ordering::SeqCst);
            }
        }
        client
    }
}

#[test]
fn tickets_through_a_client(rt: HostRuntime) -> Result<(), Fail> {
    let alloc = rt.alloc();
    over_layouts!(shape => {
        let session = Tickets {
            right: AtomicU32::new(0),
        };
        let opened = six_nodes_opened(alloc, shape)?;
        let run = run_in_memory(&rt, alloc, opened, 1, &OpenGate, &session)?;
        assert_eq!(rt; session.right.load(Ordering::SeqCst), ROWS);
        let wanted = Outcome {
            is_closed: true,
            committed: 5,
            taken: 9,
            accepted: 5,
        };
        assert_eq!(rt; run.outcome, wanted);
        assert_eq!(rt; count_on(alloc, run.disk)?, 5);
    });
    Ok(())
}

/// How many commands are accepted in the client's next view.
fn count_seen(client: &mut Client<Halt>) -> Option<u32>
    ensures same { SameClient client.old client.new }
{
    match client.view() {
        Some(auction) => Some(auction.count()),
        None => None,
    }
}

/// Bids, takes the answer and views.
#[derive(Drop)]
struct OwnBid {
    is_seen: AtomicBool,
}

impl Session for OwnBid {
    fn run<R: Wait>(&self, rt: &R, client: Client<Halt>) -> Client<Halt> {
        let mut client = client;
        let row = wanted_at(0);
        let is_answered = is_answered(rt, &mut client, &row);
        let is_seen = count_seen(&mut client) == Some(1);
        self.is_seen.store(is_answered && is_seen, Ordering::SeqCst);
        client
    }
}

#[test]
fn own_bid_in_next_view(rt: HostRuntime) -> Result<(), Fail> {
    let alloc = rt.alloc();
    over_layouts!(shape => {
        let session = OwnBid {
            is_seen: AtomicBool::new(false),
        };
        let opened = six_nodes_opened(alloc, shape)?;
        let run = run_in_memory(&rt, alloc, opened, 1, &OpenGate, &session)?;
        assert!(rt; session.is_seen.load(Ordering::SeqCst));
        assert_eq!(rt; run.outcome.committed, 1);
    });
    Ok(())
}

/// Posts without a poll, at most twenty times, until a letter is handed back. Gives how many were taken.
fn posts_without_poll(client: &mut Client<Halt>) -> u32
    ensures same { SameClient client.old client.new }
{
    for posted in 0..20 {
        if !post(client, wanted_at(0).command) {
            return posted;
        }
    }
    20
}

/// Whether a post succeeds within the most turns.
fn is_posted<R: Wait>(rt: &R, client: &mut Client<Halt>) -> bool
    ensures same { SameClient client.old client.new }
{
    for _ in 0..TURNS {
        if post(client, wanted_at(0).command) {
            return true;
        }
        pause(rt);
    }
    false
}

/// Fills its ring, takes one answer and posts again.
#[derive(Drop)]
struct FullRing {
    posted: AtomicU32,
    goes_on: AtomicBool,
}

impl Session for FullRing {
    fn run<R: Wait>(&self, rt: &R, client: Client<Halt>) -> Client<Halt> {
        let mut client = client;
        let posted = posts_without_poll(&mut client);
        self.posted.store(posted, Ordering::SeqCst);
        let is_taken = take_within(rt, &mut client, TURNS).is_some();
        let is_posted = is_posted(rt, &mut client);
        self.goes_on.store(is_taken && is_posted, Ordering::SeqCst);
        client
    }
}

#[test]
fn full_ring(rt: HostRuntime) -> Result<(), Fail> {
    let alloc = rt.alloc();
    over_layouts!(shape => {
        let session = FullRing {
            posted: AtomicU32::new(0),
            goes_on: AtomicBool::new(false),
        };
        let opened = six_nodes_opened(alloc, shape)?;
        let run = run_in_memory(&rt, alloc, opened, 1, &OpenGate, &session)?;
        assert_eq!(rt; session.posted.load(Ordering::SeqCst), 16);
        assert!(rt; session.goes_on.load(Ordering::SeqCst));
        let wanted = Outcome {
            is_closed: true,
            committed: 1,
            taken: 17,
            accepted: 1,
        };
        assert_eq!(rt; run.outcome, wanted);
    });
    Ok(())
}

/// For how many short waits a client lingers behind a post: longer than the committer looks before it sleeps.
const LINGER: u32 = 1_000;

/// Within how many turns an answer must come for which a bell has to ring.
const FEW_TURNS: u32 = 100_000;

/// Waits until the committer sleeps.
fn linger<R: Wait>(rt: &R) {
    for _ in 0..LINGER {
        pause(rt);
    }
}

/// Waits until the other client is done, for the most turns.
fn await_other<R: Wait>(rt: &R, is_done: &AtomicBool) {
    for _ in 0..TURNS {
        if is_done.load(Ordering::SeqCst) {
            return;
        }
        pause(rt);
    }
}

/// The client of the first seat posts two commands, each once the committer sleeps, and takes their answers only then.
/// The second is posted while the first one's answer isn't taken. Then the other client asks, which wakes a committer
/// that still sleeps. So a house in which a post wakes nobody ends all the same.
#[derive(Drop)]
struct TwoPosts {
    taken: AtomicU32,
    is_done: AtomicBool,
}

impl TwoPosts {
    /// Counts the client's next answer, if it comes.
    fn count_next<R: Wait>(&self, rt: &R, client: &mut Client<Halt>)
        ensures same { SameClient client.old client.new }
    {
        if take_within(rt, client, FEW_TURNS).is_some() {
            self.taken.fetch_add(1, Ordering::SeqCst);
        }
    }

    /// Posts twice, and counts the answers that come.
    fn post_twice<R: Wait>(&self, rt: &R, client: &mut Client<Halt>)
        ensures same { SameClient client.old client.new }
    {
        let _ = post(client, accepted_command(0));
        linger(rt);
        let _ = post(client, accepted_command(1));
        linger(rt);
        self.count_next(rt, client);
        self.count_next(rt, client);
        self.is_done.store(true, Ordering::SeqCst);
    }
}

impl Session for TwoPosts {
    fn run<R: Wait>(&self, rt: &R, client: Client<Halt>) -> Client<Halt> {
        let mut client = client;
        if client.seat == 0 {
            self.post_twice(rt, &mut client);
        } else {
            await_other(rt, &self.is_done);
            let _ = ask(rt, &mut client, accepted_command(2));
        }
        client
    }
}

#[test]
fn each_post_wakes_the_committer(rt: HostRuntime) -> Result<(), Fail> {
    let alloc = rt.alloc();
    over_layouts!(shape => {
        let session = TwoPosts {
            taken: AtomicU32::new(0),
            is_done: AtomicBool::new(false),
        };
        let opened = six_nodes_opened(alloc, shape)?;
        let run = run_in_memory(&rt, alloc, opened, 2, &OpenGate, &session)?;
        assert_eq!(rt; session.taken.load(Ordering::SeqCst), 2);
        assert_eq!(rt; count_on(alloc, run.disk)?, 3);
    });
    Ok(())
}
