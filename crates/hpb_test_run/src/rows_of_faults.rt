//! Calls of the device that fail.

use crate::mixed_run::{Moment, events, moments};
use crate::runs::run;
use hpb_codec::JournalShape;
use hpb_disk::{Disk, Fate, FuseDisk, MemoryDisk, OnceDisk};
use hpb_engine::{Driven, Engine, Event, Fault, Weight};
use hpb_recover::{Cause, OpenFault};
use hpb_rules::{Answer, Letter, Reply};
use hpb_test_engine::calls::{Turn, count};
use hpb_test_engine::devices::{
    CELLS, FATES, PAGES, count_on, faulty_engine, new_device, new_engine, opened,
};
use hpb_test_engine::expecting::{commits_one, hands_back, steps, takes, turns};
use hpb_test_engine::letters::Bidder::{X, Y};
use hpb_test_engine::letters::Node::{A, B};
use hpb_test_engine::letters::{accepted, bid, one};
use hpb_test_engine::over_layouts;
use std::alloc::Global;
use std::process::Abort;
use std::test::Fail;

/// How many commands a device opens with after a stop, if all pending writes have one fate.
fn count_after(alloc: Global, disk: &MemoryDisk, fate: Fate) -> Result<u32, Fail> {
    let stopped = disk.after_stop(alloc, &[fate; 16])?;
    Ok(count_on(alloc, stopped)?)
}

/// The greatest number among answers.
fn greatest_number(answers: &[Answer]) -> u32 {
    let mut greatest = 0;
    for answer in answers {
        if let Reply::Ok(number) = answer.reply {
            greatest = number.max(greatest);
        }
    }
    greatest
}

/// Whether an engine answers each of these events by 93.
fn refuses_all<D: Disk + Drop>(engine: &mut Engine<D>, events: &[Event]) -> bool {
    for event in events {
        let is_refused = match event {
            Event::Offer(letters) => hands_back(engine, letters.as_slice(), Weight::Failed),
            Event::Commit => turns(engine, Err(Fault::Failed)),
            Event::Checkpoint => steps(engine, Err(Fault::Failed)),
        };
        if !is_refused {
            return false;
        }
    }
    true
}

/// Whether a run ended by 91 at this moment, with the moment's answers and committed commands.
fn is_ended_at<D: Disk + Drop>(driven: &Driven<D>, moment: Moment) -> bool {
    driven.fault == Some(Fault::Device)
        && driven.answers.len() == moment.answers()
        && greatest_number(&driven.answers) == moment.committed()
        && count(&driven.engine) == moment.committed()
}

/// Whether an engine that failed at this moment answers each of these events by 93, and still shows the committed
/// commands.
fn stays_ended<D: Disk + Drop>(engine: &mut Engine<D>, events: &[Event], moment: Moment) -> bool {
    refuses_all(engine, events) && count(engine) == moment.committed()
}

/// Whether a run ended by 91 at this moment, and then answers all of these events by 93.
fn is_ended_once<D: Disk + Drop>(driven: &mut Driven<D>, events: &[Event], moment: Moment) -> bool {
    is_ended_at(driven, moment) && stays_ended(&mut driven.engine, events, moment)
}

/// The device of a run, which must have ended so.
fn finished<D: Disk + Drop>(
    driven: Box<Driven<D>>,
    events: &[Event],
    moment: Moment,
) -> Result<D, Fail> {
    let mut driven = driven;
    if is_ended_once(&mut driven, events, moment) {
        Ok(Box::into_inner(driven).engine.finish())
    } else {
        Err(Fail::new("the run did not end as it should"))
    }
}

/// The device that wasn't opened, since a call of its opening failed.
fn unopened<D: Disk + Drop>(fault: OpenFault<D>, moment: Moment) -> Result<D, Fail> {
    if fault.cause == Cause::Device && moment == Moment::START {
        Ok(fault.disk)
    } else {
        Err(Fail::from(fault.cause))
    }
}

/// Drives the events over a device with a call that fails at this moment, and hands the device back. 91 comes once, and
/// all later events get 93. If a call of opening fails, there is no engine.
fn run_into_fault<D: Disk + Drop>(
    alloc: Global,
    disk: D,
    events: &[Event],
    moment: Moment,
) -> Result<D, Fail> {
    match opened(alloc, disk) {
        Ok(opened) => finished(run(alloc, opened, events)?, events, moment),
        Err(fault) => unopened(fault, moment),
    }
}

/// Whether the batch in flight has landed after one of some stops, each with another fate of all pending writes. All
/// that is found after them must be allowed.
fn has_landed(alloc: Global, disk: &MemoryDisk, moment: Moment) -> Result<bool, Fail> {
    let mut has_landed = false;
    for fate in FATES {
        let found = count_after(alloc, disk, fate)?;
        if !moment.may_leave(found) {
            return Err(Fail::new("a stop left what may not stand"));
        }
        has_landed = has_landed || found != moment.committed();
    }
    Ok(has_landed)
}

/// Whether the batch in flight has landed after a stop, if all calls of this device fail from this moment on.
fn lands_after_fuse(
    alloc: Global,
    disk: FuseDisk<MemoryDisk>,
    events: &[Event],
    moment: Moment,
) -> Result<bool, Fail> {
    let disk = run_into_fault(alloc, disk, events, moment)?;
    has_landed(alloc, &disk.into_inner(), moment)
}

/// The run over a device whose calls all fail from one on, for each call of it.
fn try_every_fuse(rt: &impl Abort, alloc: Global, shape: JournalShape) -> Result<(), Fail> {
    let events = events(alloc)?;
    let moments = moments(alloc, &mut *new_engine(alloc, shape)?, &events)?;
    let mut landed = 0_usize;
    for (place, moment) in moments.iter().enumerate() {
        let call = (place as u64).saturating_add(1);
        let disk = FuseDisk::new(new_device(alloc, shape)?, call);
        if lands_after_fuse(alloc, disk, &events, *moment)? {
            landed = landed.saturating_add(1);
        }
    }
    assert!(rt; moments.len() > 80, "{}", moments.len());
    // These are the write of each gate and the sync after it, and steps of checkpoints between them.
    assert!(rt; landed > 20, "{landed}");
    Ok(())
}

#[test]
fn fuse_at_every_call_over_pages(rt: HostRuntime) -> Result<(), Fail> {
    try_every_fuse(&rt, rt.alloc(), PAGES)
}

#[test]
fn fuse_at_every_call_over_cells(rt: HostRuntime) -> Result<(), Fail> {
    try_every_fuse(&rt, rt.alloc(), CELLS)
}

/// Whether the batch in flight has landed after a stop, if only the call of this device at this moment fails. Without a
/// stop, too, the commands found must be allowed.
fn lands_after_fault(
    alloc: Global,
    disk: OnceDisk<MemoryDisk>,
    events: &[Event],
    moment: Moment,
) -> Result<bool, Fail> {
    let disk = run_into_fault(alloc, disk, events, moment)?;
    let disk = disk.into_inner();
    let has_landed = has_landed(alloc, &disk, moment)?;
    if !moment.may_leave(count_on(alloc, disk)?) {
        return Err(Fail::new("what may not stand was opened"));
    }
    Ok(has_landed)
}

/// The run over a device with one call that fails, for each call of it.
fn try_every_fault(rt: &impl Abort, alloc: Global, shape: JournalShape) -> Result<(), Fail> {
    let events = events(alloc)?;
    let moments = moments(alloc, &mut *new_engine(alloc, shape)?, &events)?;
    let mut landed = 0_usize;
    for (place, moment) in moments.iter().enumerate() {
        let call = (place as u64).saturating_add(1);
        let disk = OnceDisk::new(new_device(alloc, shape)?, call);
        if lands_after_fault(alloc, disk, &events, *moment)? {
            landed = landed.saturating_add(1);
        }
    }
    assert!(rt; moments.len() > 80, "{}", moments.len());
    // These are the write of each gate and the sync after it, and steps of checkpoints between them.
    assert!(rt; landed > 20, "{landed}");
    Ok(())
}

#[test]
fn one_fault_at_every_call_over_pages(rt: HostRuntime) -> Result<(), Fail> {
    try_every_fault(&rt, rt.alloc(), PAGES)
}

#[test]
fn one_fault_at_every_call_over_cells(rt: HostRuntime) -> Result<(), Fail> {
    try_every_fault(&rt, rt.alloc(), CELLS)
}

/// The letters of two batches.
fn first() -> Letter {
    bid(X, 1, A, 100)
}

fn second() -> Letter {
    bid(Y, 1, B, 150)
}

/// Whether an engine answers turns, steps and offers by 93.
fn has_failed<D: Disk + Drop>(engine: &mut Engine<D>) -> bool {
    turns(engine, Err(Fault::Failed))
        && steps(engine, Err(Fault::Failed))
        && turns(engine, Err(Fault::Failed))
        && hands_back(engine, &[second()], Weight::Failed)
}

/// A batch is committed, and the last turn of the next one fails.
fn fail_second_sync(rt: &impl Abort, engine: &mut Engine<OnceDisk<MemoryDisk>>) {
    assert!(rt; commits_one(engine, accepted(first(), 0)));
    assert!(rt; takes(engine, one(second())));
    for _ in 0..3 {
        assert!(rt; turns(engine, Ok(Turn::Went)));
    }
    assert!(rt; turns(engine, Err(Fault::Device)));
    assert!(rt; has_failed(engine));
    assert_eq!(rt; count(engine), 1);
}

/// The device of an engine whose second sync failed.
fn left_by_second_sync(
    rt: &impl Abort,
    alloc: Global,
    shape: JournalShape,
) -> Result<MemoryDisk, Fail> {
    let mut engine = faulty_engine(alloc, shape, 8)?;
    fail_second_sync(rt, &mut engine);
    Ok(Box::into_inner(engine).finish().into_inner())
}

/// The devices that stops leave: the write of the second gate is kept, lost, or filled with bytes.
fn stop_after_second_sync(rt: &impl Abort, alloc: Global, shape: JournalShape) -> Result<(), Fail> {
    let disk = left_by_second_sync(rt, alloc, shape)?;
    for (fate, wanted) in FATES.iter().zip([2, 1, 1, 2]) {
        assert_eq!(rt; count_after(alloc, &disk, *fate)?, wanted);
    }
    assert_eq!(rt; count_on(alloc, disk)?, 2);
    Ok(())
}

#[test]
fn second_sync_fails(rt: HostRuntime) -> Result<(), Fail> {
    over_layouts!(shape => stop_after_second_sync(&rt, rt.alloc(), shape)?);
    Ok(())
}
