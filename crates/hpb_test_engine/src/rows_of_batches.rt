//! The answers to a batch, and when they leave.

use crate::calls::{Turn, count, steps_retiring, steps_to_whole};
use crate::devices::new_engine;
use crate::expecting::{
    answers_at_once, commits, commits_one, hands_back, steps, takes, turns, turns_last,
};
use crate::letters::Bidder::{X, Y};
use crate::letters::Node::{A, B};
use crate::letters::{accepted, bid, in_round, list_of, one, refused, two};
use crate::over_layouts;
use hpb_codec::JournalShape;
use hpb_disk::{Disk, MemoryDisk};
use hpb_engine::{Engine, Rest, Weight};
use hpb_rules::{Answer, Letter, Refusal, Reply};
use std::process::Abort;
use std::test::Fail;

/// The first bid of x.
fn first() -> Letter {
    bid(X, 1, A, 100)
}

/// Its second bid on the same node in the same round.
fn again() -> Letter {
    bid(X, 2, A, 120)
}

/// Whether three turns are made, with no command committed.
fn goes_three_turns<D: Disk + Drop>(engine: &mut Engine<D>) -> bool {
    for _ in 0..3 {
        if !turns(engine, Ok(Turn::Went)) || count(engine) != 0 {
            return false;
        }
    }
    true
}

fn answer_together(rt: &impl Abort, engine: &mut Engine<MemoryDisk>) {
    assert!(rt; takes(engine, two(first(), again())));
    assert!(rt; goes_three_turns(engine));
    let wanted = [accepted(first(), 0), refused(again(), 1, Refusal::Again)];
    assert!(rt; turns_last(engine, &wanted));
    assert_eq!(rt; count(engine), 1);
    assert!(rt; turns(engine, Ok(Turn::Idle)));
}

#[test]
fn batch_answers_together(rt: HostRuntime) -> Result<(), Fail> {
    over_layouts!(shape => answer_together(&rt, &mut *new_engine(rt.alloc(), shape)?));
    Ok(())
}

/// A bid of y.
fn second() -> Letter {
    bid(Y, 1, B, 150)
}

/// The answer to the first bid when it comes once more, after `at` commands.
fn repeated_at(at: u32) -> Answer {
    Answer {
        letter: first(),
        at,
        reply: Reply::Ok(1),
    }
}

/// A repeat, and an empty list of letters, are answered at once and without a call of the device.
fn repeat(rt: &impl Abort, engine: &mut Engine<MemoryDisk>) {
    let wanted = [accepted(first(), 0), accepted(second(), 1)];
    assert!(rt; commits(engine, two(first(), second()), &wanted));
    let calls = engine.disk.calls();
    assert!(rt; answers_at_once(engine, one(first()), &[repeated_at(2)]));
    assert!(rt; answers_at_once(engine, list_of(&[]), &[]));
    assert!(rt; turns(engine, Ok(Turn::Idle)));
    assert_eq!(rt; engine.disk.calls(), calls);
    assert_eq!(rt; count(engine), 2);
}

#[test]
fn repeat_makes_no_device_call(rt: HostRuntime) -> Result<(), Fail> {
    over_layouts!(shape => repeat(&rt, &mut *new_engine(rt.alloc(), shape)?));
    Ok(())
}

/// Whether each frame takes a batch of one command, and all are accepted.
fn fills_frames<D: Disk + Drop>(engine: &mut Engine<D>, shape: JournalShape) -> bool {
    for at in 0..shape.frames {
        if !commits_one(engine, accepted(in_round(at), at)) {
            return false;
        }
    }
    true
}

/// With a batch in each frame the next one finds the journal full, until a checkpoint has retired them all.
fn fill_journal(rt: &impl Abort, engine: &mut Engine<MemoryDisk>, shape: JournalShape) {
    assert!(rt; fills_frames(engine, shape));
    let letters = [in_round(shape.frames), bid(Y, 1, B, 0)];
    assert!(rt; hands_back(engine, &letters, Weight::Full));
    assert!(rt; turns(engine, Ok(Turn::Idle)));
    assert_eq!(rt; steps_to_whole(engine, 100), steps_retiring(shape.frames));
    assert!(rt; steps(engine, Ok(Rest::Idle)));
    assert!(rt; takes(engine, list_of(&letters)));
    assert!(rt; hands_back(engine, &letters, Weight::Busy));
}

#[test]
fn journal_full(rt: HostRuntime) -> Result<(), Fail> {
    over_layouts!(shape => fill_journal(&rt, &mut *new_engine(rt.alloc(), shape)?, shape));
    Ok(())
}
