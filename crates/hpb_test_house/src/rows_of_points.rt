//! The points that the workers of a house report.

use crate::devices::{faulty_opened, six_nodes_opened};
use crate::harness::{Session, run_in_memory, run_with_fault};
use crate::late::run_late;
use crate::script::accepted_command;
use crate::turns::{TURNS, pause, post};
use hpb_codec::JournalShape;
use hpb_house::{Gate, Halt, Point};
use hpb_rings::Client;
use hpb_test_engine::over_layouts;
use std::alloc::Global;
use std::process::Abort;
use std::sync::Wait;
use std::sync::atomic::{AtomicU32, Ordering};
use std::test::*;
use std::thread::Threads;

/// How often each point was reported, without `Gathered`.
#[derive(Clone, Copy, Debug, PartialEq, Eq)]
struct Told {
    between_turns: u32,
    committed: u32,
    pages: u32,
    retired: u32,
    failed: u32,
}

/// Counts how often each point is reported. Pages count only if they come in order.
#[derive(Drop)]
struct Tally {
    gathered: AtomicU32,
    between_turns: AtomicU32,
    committed: AtomicU32,
    pages: AtomicU32,
    retired: AtomicU32,
    failed: AtomicU32,
}

impl Tally {
    /// A gate to which nothing was reported.
    fn new() -> Tally {
        Tally {
            gathered: AtomicU32::new(0),
            between_turns: AtomicU32::new(0),
            committed: AtomicU32::new(0),
            pages: AtomicU32::new(0),
            retired: AtomicU32::new(0),
            failed: AtomicU32::new(0),
        }
    }

    /// How often each point was reported.
    fn told(&self) -> Told {
        Told {
            between_turns: self.between_turns.load(Ordering::SeqCst),
            committed: self.committed.load(Ordering::SeqCst),
            pages: self.pages.load(Ordering::SeqCst),
            retired: self.retired.load(Ordering::SeqCst),
            failed: self.failed.load(Ordering::SeqCst),
        }
    }
}

impl Gate for Tally {
    fn at<R: Wait>(&self, _rt: &R, point: Point) {
        let count = match point {
            Point::Gathered => &self.gathered,
            Point::BetweenTurns => &self.between_turns,
            Point::Committed => &self.committed,
            Point::Page(page) if u32::from(page) != self.pages.load(Ordering::SeqCst) => return,
            Point::Page(_) => &self.pages,
            Point::Retired => &self.retired,
            Point::Failed => &self.failed,
        };
        count.fetch_add(1, Ordering::SeqCst);
    }
}

/// Bids, and waits until a frame is retired or a worker has failed.
#[derive(Drop)]
struct Telling {
    tally: Tally,
}

impl Session for Telling {
    fn run<R: Wait>(&self, rt: &R, client: Client<Halt>) -> Client<Halt> {
        let mut client = client;
        let _ = post(&mut client, accepted_command(0));
        for _ in 0..TURNS {
            let told = self.tally.told();
            if told.retired > 0 || told.failed > 0 {
                return client;
            }
            pause(rt);
        }
        client
    }
}

/// A commit of four turns, and a checkpoint that retires its frame.
fn tell_commit<R: Threads + Wait + Sync + Abort>(
    rt: &R,
    alloc: Global,
    shape: JournalShape,
) -> Result<(), Fail> {
    let session = Telling {
        tally: Tally::new(),
    };
    let opened = six_nodes_opened(alloc, shape)?;
    let run = run_in_memory(rt, alloc, opened, 1, &session.tally, &session)?;
    let wanted = Told {
        between_turns: 3,
        committed: 1,
        pages: 4,
        retired: 1,
        failed: 0,
    };
    assert_eq!(rt; session.tally.told(), wanted);
    assert!(rt; session.tally.gathered.load(Ordering::SeqCst) > 1);
    assert!(rt; run.outcome.is_closed);
    Ok(())
}

/// A commit whose second call fails.
fn tell_fault<R: Threads + Wait + Sync + Abort>(
    rt: &R,
    alloc: Global,
    shape: JournalShape,
) -> Result<(), Fail> {
    let session = Telling {
        tally: Tally::new(),
    };
    let opened = faulty_opened(alloc, shape, 2)?;
    let run = run_with_fault(rt, alloc, opened, 1, &session.tally, &session)?;
    let wanted = Told {
        between_turns: 1,
        committed: 0,
        pages: 0,
        retired: 0,
        failed: 1,
    };
    assert_eq!(rt; session.tally.told(), wanted);
    assert!(rt; session.tally.gathered.load(Ordering::SeqCst) > 1);
    assert!(rt; run.outcome.is_closed);
    Ok(())
}

#[test]
fn every_point_is_told(rt: HostRuntime) -> Result<(), Fail> {
    let alloc = rt.alloc();
    over_layouts!(shape => {
        tell_commit(&rt, alloc, shape)?;
        tell_fault(&rt, alloc, shape)?;
    });
    Ok(())
}

/// Bids.
#[derive(Drop)]
struct Bidding;

impl Session for Bidding {
    fn run<R: Wait>(&self, _rt: &R, client: Client<Halt>) -> Client<Halt> {
        let mut client = client;
        let _ = post(&mut client, accepted_command(0));
        client
    }
}

/// The points that are reported of the only commit, if its call of this number fails. Also whether the checkpointer
/// ends with a halt.
fn told_late<R: Threads + Wait + Sync>(
    rt: &R,
    alloc: Global,
    shape: JournalShape,
    call: u64,
) -> Result<(Told, bool), Fail> {
    let opened = faulty_opened(alloc, shape, call)?;
    let tally = Tally::new();
    let is_halted = run_late(rt, alloc, opened, &tally, &Bidding)?;
    Ok((tally.told(), is_halted))
}

#[test]
fn fault_of_a_commit_is_told_once_all_has_ended(rt: HostRuntime) -> Result<(), Fail> {
    let alloc = rt.alloc();
    over_layouts!(shape => {
        // Each of its four calls fails in turn, and then none.
        for call in 1..6 {
            let fails = call < 5;
            let (told, is_halted) = told_late(&rt, alloc, shape, call)?;
            let wanted = Told {
                between_turns: 0,
                committed: 0,
                pages: 0,
                retired: 0,
                failed: u32::from(fails),
            };
            assert_eq!(rt; told, wanted, "{call}");
            assert_eq!(rt; is_halted, fails, "{call}");
        }
    });
    Ok(())
}
