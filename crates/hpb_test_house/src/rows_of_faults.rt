//! Clients of a house whose device fails.
ghost use Rattle.hpb_house.specs.Clients.{SameClient};

use crate::devices::faulty_opened;
use crate::harness::{Outcome, Session, run_with_fault};
use crate::script::accepted_command;
use crate::turns::{TURNS, ask, pause, post};
use hpb_house::{Halt, OpenGate};
use hpb_rings::Client;
use hpb_test_engine::over_layouts;
use std::sync::Wait;
use std::sync::atomic::{AtomicU32, Ordering};
use std::test::*;

/// Whether the client is halted within the most turns.
fn is_halted<R: Wait>(rt: &R, client: &mut Client<Halt>) -> bool
    ensures same { SameClient client.old client.new }
{
    for _ in 0..TURNS {
        if client.halted() {
            return true;
        }
        pause(rt);
    }
    false
}

/// How many letters a ring has room for.
const LETTERS: u32 = 16;

/// Fills the ring of a client.
fn fill(client: &mut Client<Halt>)
    ensures same { SameClient client.old client.new }
{
    for place in 0..LETTERS {
        let _ = post(client, accepted_command(place));
    }
}

/// The client of the first seat bids, and any other only waits. Each is halted, and gets no answer. Then it posts as
/// much as its ring takes, so that it can't finish before its ring is emptied.
#[derive(Drop)]
struct Halted {
    right: AtomicU32,
}

impl Session for Halted {
    fn run<R: Wait>(&self, rt: &R, client: Client<Halt>) -> Client<Halt> {
        let mut client = client;
        let is_posted = client.seat > 0 || post(&mut client, accepted_command(0));
        let is_halted = is_halted(rt, &mut client);
        let is_answered = client.poll().is_some();
        if is_posted && is_halted && !is_answered {
            self.right.fetch_add(1, Ordering::SeqCst);
        }
        fill(&mut client);
        client
    }
}

/// Bids, takes the answer, and then stays until it is halted.
#[derive(Drop)]
struct Staying {
    right: AtomicU32,
}

impl Session for Staying {
    fn run<R: Wait>(&self, rt: &R, client: Client<Halt>) -> Client<Halt> {
        let mut client = client;
        let is_answered = ask(rt, &mut client, accepted_command(0)).is_some();
        if is_answered && is_halted(rt, &mut client) {
            self.right.fetch_add(1, Ordering::SeqCst);
        }
        client
    }
}

#[test]
fn halted_client(rt: HostRuntime) -> Result<(), Fail> {
    let alloc = rt.alloc();
    over_layouts!(shape => {
        let wanted = Outcome {
            is_closed: true,
            committed: 0,
            taken: 0,
            accepted: 0,
        };
        let session = Halted {
            right: AtomicU32::new(0),
        };
        // Each of the four calls of the first commit fails in turn.
        for call in 1..5 {
            let opened = faulty_opened(alloc, shape, call)?;
            let run = run_with_fault(&rt, alloc, opened, 2, &OpenGate, &session)?;
            assert_eq!(rt; run.outcome, wanted, "{call}");
        }
        assert_eq!(rt; session.right.load(Ordering::SeqCst), 8);
    });
    Ok(())
}

#[test]
fn fault_in_a_checkpoint(rt: HostRuntime) -> Result<(), Fail> {
    let alloc = rt.alloc();
    over_layouts!(shape => {
        let wanted = Outcome {
            is_closed: true,
            committed: 1,
            taken: 1,
            accepted: 1,
        };
        let session = Staying {
            right: AtomicU32::new(0),
        };
        // Calls behind the four of the first commit fail in turn.
        for call in 5..8 {
            let opened = faulty_opened(alloc, shape, call)?;
            let run = run_with_fault(&rt, alloc, opened, 1, &OpenGate, &session)?;
            assert_eq!(rt; run.outcome, wanted, "{call}");
        }
        assert_eq!(rt; session.right.load(Ordering::SeqCst), 3);
    });
    Ok(())
}
