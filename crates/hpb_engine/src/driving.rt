//! Events, taken one after another.
ghost use Rattle.std.specs.Prelude.{◌≡◌, ◌+◌, ◌*◌, ◌≤◌, ◌++◌, List, [], length, vec_len, vec_capacity, IfOk, IfErr, OnErr};
ghost use Rattle.hpb_rules.specs.declared.limits.TheConstants.{MOST_LETTERS};
ghost use Rattle.hpb_rules.specs.Machine.{Machine};
ghost use Rattle.hpb_engine.specs.Engines.{Keeps, Ran, Took, pause_of};
ghost use Rattle.hpb_engine.specs.Runs.{HasFailed, fault_in};

use crate::engine::Engine;
use crate::event::Event;
use crate::step::Fault;
use hpb_disk::Disk;
use hpb_rules::{Answer, Answers, MOST_LETTERS};
use std::alloc::{AllocError, Global};

/// The result of [`drive`]: the engine after the events, and what left it.
#[derive(Drop)]
pub struct Driven<D: Disk + Drop> {
    pub engine: Engine<D>,
    /// The answers that left, in order.
    pub answers: Vec<Answer>,
    /// 91 `device` if a call of the device failed: no event was taken after it. `None` if none failed.
    pub fault: Option<Fault>,
}

/// The result of [`Engine::run`]: what left the engine, which stays in its place.
#[derive(Drop)]
pub struct Run {
    /// The answers that left, in order.
    pub answers: Vec<Answer>,
    /// 91 `device` if a call of the device failed: no event was taken after it. `None` if none failed.
    pub fault: Option<Fault>,
}

/// Takes one event. Answers that leave go into the list, which is empty before. The result is 91 `device` if a call of
/// the device fails in the event.
fn take_event<D: Disk + Drop>(
    engine: &mut Engine<D>,
    event: &Event,
    leaving: &mut Answers,
) -> Option<Fault>
    requires none { leaving.old ≡ [] }
    ensures took { (machine : Machine) → Keeps engine.old machine
        → Took event.now engine.old engine.new machine leaving.new result }
    ensures cause { HasFailed result (D.device engine.old.disk) (D.device engine.new.disk) }
{
    match event {
        Event::Offer(letters) => {
            let _ = engine.offer(letters, leaving);
            None
        }
        Event::Commit => failure_in(engine.make_turn(leaving)),
        Event::Checkpoint => failure_in(engine.checkpoint_step()),
    }
}

/// The fault of a step, if its own call of the device failed (91 `device`). 93 `failed` counts as none.
fn failure_in<T: Drop>(step: Result<T, Fault>) -> Option<Fault>
    ensures { result ≡ fault_in step }
{
    match step {
        Ok(_) | Err(Fault::Failed) => None,
        Err(Fault::Device) => Some(Fault::Device),
    }
}

/// Takes the events in order, up to the first at which a call of the device fails.
fn take_all<D: Disk + Drop>(
    engine: &mut Engine<D>,
    events: &[Event],
    answers: &mut Vec<Answer>,
) -> Option<Fault>
    requires room { vec_len answers.old + MOST_LETTERS * length events.now ≤ vec_capacity answers.old }
    requires none { answers.old.items ≡ [] }
    ensures ran { (machine : Machine) → Keeps engine.old machine
        → Ran (pause_of engine.old machine) events.now engine.new answers.new.items result }
    ensures cause { HasFailed result (D.device engine.old.disk) (D.device engine.new.disk) }
{
    let mut leaving = Answers::new();
    for event in events {
        leaving.clear();
        let fault = take_event(engine, event, &mut leaving);
        let added = answers.extend_from_slice(leaving.as_slice());
        prove!(added.is_ok());
        if fault.is_some() {
            return fault;
        }
    }
    None
}

impl<D: Disk + Drop> Engine<D> {
    /// Takes events in order, as [`drive`] does, on an engine that stays in its place.
    ///
    /// Room for all answers is made first. 90 `memory` if memory is refused: no event is taken, and nothing changes.
    pub fn run(&mut self, alloc: Global, events: &[Event]) -> Result<Run, AllocError>
        ensures ran { (machine : Machine) → Keeps self.old machine
            → IfOk result (λ run. Ran (pause_of self.old machine) events.now self.new run.answers.items run.fault) }
        // The fault is 91 if and only if a call of the device failed in this run.
        ensures cause { IfOk result (λ run. HasFailed run.fault (D.device self.old.disk) (D.device self.new.disk)) }
        ensures back { OnErr result ((self.new.disk ≡ self.old.disk) × (self.new.progress ≡ self.old.progress) × (self.new.failed ≡ self.old.failed)) }
    {
        let mut answers = Vec::with_capacity(alloc, MOST_LETTERS * events.len())?;
        let fault = take_all(self, events, &mut answers);
        Ok(Run { answers, fault })
    }
}

/// Takes events in order. Offers of letters, turns of commits and steps of checkpoints may come in any order. It stops
/// after the first event at which a call of the device fails (91 `device`).
///
/// An offer is dropped if a batch is in flight, if it has new commands and no clean frame is left, and after a fault. A
/// turn with nothing in flight does nothing.
///
/// No acknowledged command is ever lost. A crash may come at any moment from the start on, within a call or between
/// two. It leaves bytes that stand for all commands acknowledged by then, perhaps with those of later batches.
///
/// Room for all answers is made first. 90 `memory` if memory is refused: the engine is handed back as it was.
pub fn drive<D: Disk + Drop>(
    alloc: Global,
    engine: Engine<D>,
    events: &[Event],
) -> Result<Driven<D>, Engine<D>>
    ensures ran { (machine : Machine) → Keeps engine machine
        → IfOk result (λ driven. Ran (pause_of engine machine) events.now driven.engine driven.answers.items driven.fault) }
    // The fault is 91 if and only if a call of the device failed in this run.
    ensures cause { IfOk result (λ driven. HasFailed driven.fault (D.device engine.disk) (D.device driven.engine.disk)) }
    ensures back { IfErr result (λ back. (back.disk ≡ engine.disk) × (back.progress ≡ engine.progress) × (back.failed ≡ engine.failed)) }
{
    let mut engine = engine;
    match engine.run(alloc, events) {
        Ok(Run { answers, fault }) => Ok(Driven {
            engine,
            answers,
            fault,
        }),
        Err(_) => Err(engine),
    }
}
