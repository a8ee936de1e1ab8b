//! Commits beside a checkpoint that is held.
ghost use Rattle.hpb_house.specs.Clients.{SameClient};

use crate::devices::six_nodes_opened;
use crate::harness::{Outcome, Session, run_in_memory};
use crate::hold::{Crossing, Hold, Pages};
use crate::script::{accepted_command, ask_places};
use crate::turns::{TURNS, pause, post, take_within};
use hpb_house::{Halt, Point};
use hpb_rings::Client;
use hpb_rules::Reply;
use hpb_test_engine::devices::count_on;
use hpb_test_engine::over_layouts;
use std::sync::Wait;
use std::sync::atomic::{AtomicBool, AtomicU32, AtomicU64, Ordering};
use std::test::*;

/// For how many short waits the client looks for an answer that must not come.
const LOOKS: u32 = 10_000;

/// Whether a letter that was posted is accepted with this number within this many turns.
fn is_accepted<R: Wait>(rt: &R, client: &mut Client<Halt>, number: u32, turns: u32) -> bool
    ensures same { SameClient client.old client.new }
{
    match take_within(rt, client, turns) {
        Some(answer) => answer.reply == Reply::Ok(number),
        None => false,
    }
}

/// Fills the journal while the checkpointer is held, and posts one more command.
#[derive(Drop)]
struct FullJournal {
    frames: u32,
    hold: Hold,
    first: AtomicU64,
    waits: AtomicBool,
    goes_on: AtomicBool,
}

impl Session for FullJournal {
    fn run<R: Wait>(&self, rt: &R, client: Client<Halt>) -> Client<Halt> {
        let mut client = client;
        let first = ask_places(rt, &mut client, 0, self.frames);
        self.first.store(first, Ordering::SeqCst);
        let is_posted = post(&mut client, accepted_command(self.frames));
        let comes = take_within(rt, &mut client, LOOKS).is_some();
        let waits = is_posted && !comes && self.hold.was_entered();
        self.waits.store(waits, Ordering::SeqCst);
        self.hold.open();
        let goes_on = is_accepted(rt, &mut client, self.frames.saturating_add(1), TURNS);
        self.goes_on.store(goes_on, Ordering::SeqCst);
        client
    }
}

#[test]
fn full_journal_waits(rt: HostRuntime) -> Result<(), Fail> {
    let alloc = rt.alloc();
    over_layouts!(shape => {
        let session = FullJournal {
            frames: shape.frames,
            hold: Hold::at_point(Point::Page(0)),
            first: AtomicU64::new(0),
            waits: AtomicBool::new(false),
            goes_on: AtomicBool::new(false),
        };
        let opened = six_nodes_opened(alloc, shape)?;
        let run = run_in_memory(&rt, alloc, opened, 1, &session.hold, &session)?;
        assert_eq!(rt;
            session.first.load(Ordering::SeqCst),
            u64::from(shape.frames)
        );
        assert!(rt; session.waits.load(Ordering::SeqCst));
        assert!(rt; session.goes_on.load(Ordering::SeqCst));
        let all = shape.frames.saturating_add(1);
        assert_eq!(rt; run.outcome.committed, u64::from(all));
        assert_eq!(rt; count_on(alloc, run.disk)?, all);
    });
    Ok(())
}

/// Waits until the gate's point is reported. `false` if it isn't within the most turns.
fn is_entered<R: Wait>(rt: &R, hold: &Hold) -> bool {
    for _ in 0..TURNS {
        if hold.was_entered() {
            return true;
        }
        pause(rt);
    }
    false
}

/// Goes on with commits while the checkpointer is held, and after it.
#[derive(Drop)]
struct Beside {
    hold: Hold,
    is_entered: AtomicBool,
    beside: AtomicU64,
    after: AtomicU64,
}

impl Session for Beside {
    fn run<R: Wait>(&self, rt: &R, client: Client<Halt>) -> Client<Halt> {
        let mut client = client;
        let _ = ask_places(rt, &mut client, 0, 1);
        self.is_entered
            .store(is_entered(rt, &self.hold), Ordering::SeqCst);
        let beside = ask_places(rt, &mut client, 1, 3);
        self.beside.store(beside, Ordering::SeqCst);
        self.hold.open();
        let after = ask_places(rt, &mut client, 3, 10);
        self.after.store(after, Ordering::SeqCst);
        client
    }
}

#[test]
fn commits_beside_a_checkpoint(rt: HostRuntime) -> Result<(), Fail> {
    let alloc = rt.alloc();
    over_layouts!(shape => {
        let session = Beside {
            hold: Hold::at_point(Point::Page(1)),
            is_entered: AtomicBool::new(false),
            beside: AtomicU64::new(0),
            after: AtomicU64::new(0),
        };
        let opened = six_nodes_opened(alloc, shape)?;
        let run = run_in_memory(&rt, alloc, opened, 1, &session.hold, &session)?;
        assert!(rt; session.is_entered.load(Ordering::SeqCst));
        assert_eq!(rt; session.beside.load(Ordering::SeqCst), 2);
        assert_eq!(rt; session.after.load(Ordering::SeqCst), 7);
        let wanted = Outcome {
            is_closed: true,
            committed: 10,
            taken: 10,
            accepted: 10,
        };
        assert_eq!(rt; run.outcome, wanted);
        assert_eq!(rt; count_on(alloc, run.disk)?, 10);
    });
    Ok(())
}

/// Waits until this many pages are reported. `false` if they aren't within the most turns, or if more are.
fn are_told<R: Wait>(rt: &R, pages: &Pages, count: u32) -> bool {
    for _ in 0..TURNS {
        if pages.told() >= count {
            return pages.told() == count;
        }
        pause(rt);
    }
    false
}

/// Lets the checkpointer go on from page to page, and commits in between: none before the second page, one before the
/// third, and one before the fourth.
#[derive(Drop)]
struct InTurns {
    pages: Pages,
    right: AtomicU32,
    accepted: AtomicU64,
}

impl InTurns {
    /// Lets it go on to the next page, with which this many are reported in all.
    fn goes_on<R: Wait>(&self, rt: &R, count: u32) {
        self.pages.let_on(count.saturating_sub(1));
        if are_told(rt, &self.pages, count) {
            self.right.fetch_add(1, Ordering::SeqCst);
        }
    }

    /// Asks the commands of these places.
    fn commits<R: Wait>(&self, rt: &R, client: &mut Client<Halt>, from: u32, to: u32)
        ensures same { SameClient client.old client.new }
    {
        let accepted = ask_places(rt, client, from, to);
        self.accepted.fetch_add(accepted, Ordering::SeqCst);
    }
}

impl Session for InTurns {
    fn run<R: Wait>(&self, rt: &R, client: Client<Halt>) -> Client<Halt> {
        let mut client = client;
        self.commits(rt, &mut client, 0, 1);
        self.goes_on(rt, 1);
        self.goes_on(rt, 2);
        self.commits(rt, &mut client, 1, 2);
        self.goes_on(rt, 3);
        self.commits(rt, &mut client, 2, 3);
        self.goes_on(rt, 4);
        self.pages.let_on(4);
        self.commits(rt, &mut client, 3, 10);
        client
    }
}

#[test]
fn checkpoints_between_turns(rt: HostRuntime) -> Result<(), Fail> {
    let alloc = rt.alloc();
    over_layouts!(shape => {
        let session = InTurns {
            pages: Pages::new(),
            right: AtomicU32::new(0),
            accepted: AtomicU64::new(0),
        };
        let opened = six_nodes_opened(alloc, shape)?;
        let run = run_in_memory(&rt, alloc, opened, 1, &session.pages, &session)?;
        assert_eq!(rt; session.right.load(Ordering::SeqCst), 4);
        assert_eq!(rt; session.accepted.load(Ordering::SeqCst), 10);
        assert!(rt; run.outcome.is_closed);
        assert_eq!(rt; count_on(alloc, run.disk)?, 10);
    });
    Ok(())
}

/// Commits twice, the second time across a page of a checkpoint, and twice more.
#[derive(Drop)]
struct Across {
    crossing: Crossing,
    accepted: AtomicU64,
}

impl Session for Across {
    fn run<R: Wait>(&self, rt: &R, client: Client<Halt>) -> Client<Halt> {
        let mut client = client;
        let accepted = ask_places(rt, &mut client, 0, 2);
        self.crossing.open();
        let rest = ask_places(rt, &mut client, 2, 4);
        self.accepted
            .store(accepted.saturating_add(rest), Ordering::SeqCst);
        client
    }
}

#[test]
fn page_between_two_turns_of_a_commit(rt: HostRuntime) -> Result<(), Fail> {
    let alloc = rt.alloc();
    over_layouts!(shape => {
        let session = Across {
            crossing: Crossing::new(),
            accepted: AtomicU64::new(0),
        };
        let opened = six_nodes_opened(alloc, shape)?;
        let run = run_in_memory(&rt, alloc, opened, 1, &session.crossing, &session)?;
        assert!(rt; session.crossing.has_crossed());
        assert_eq!(rt; session.accepted.load(Ordering::SeqCst), 4);
        assert_eq!(rt; run.outcome.committed, 4);
        assert_eq!(rt; count_on(alloc, run.disk)?, 4);
    });
    Ok(())
}
