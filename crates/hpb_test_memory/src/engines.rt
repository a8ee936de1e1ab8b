//! Calls of an engine.

use crate::trials::{Came, Tried, begin, came_of, end, engine, engine_sum, events, is_sum};
use anyhow::Result;
use hpb_disk::FileDisk;
use hpb_engine::{Engine, Event, Run};
use hpb_rules::Refusal;

/// The result of events: the sum of the engine, and how many answers left.
fn ran(rt: &HostRuntime, engine: &Engine<FileDisk>, answers: usize) -> Came {
    came_of(engine_sum(rt, engine).map(|sum| sum.wrapping_add(answers as u64)))
}

/// Tries `Engine::run`.
pub(crate) fn run(rt: &HostRuntime, nodes: u64, layout: u8) -> Result<Tried> {
    let events = events(rt.alloc(), nodes)?;
    let mut engine = engine(rt, nodes, layout)?;
    Ok(run_on(rt, &mut engine, &events))
}

/// The result of these events on an engine.
fn run_once(rt: &HostRuntime, engine: &mut Engine<FileDisk>, events: &[Event]) -> Came {
    match engine.run(rt.alloc(), events) {
        Ok(Run { answers, .. }) => ran(rt, engine, answers.len()),
        Err(_) => Came::Refused(Refusal::Memory),
    }
}

fn run_on(rt: &HostRuntime, engine: &mut Engine<FileDisk>, events: &[Event]) -> Tried {
    let given = engine_sum(rt, engine);
    let _ = begin(rt);
    let made = engine.run(rt.alloc(), events);
    let _ = end(rt);
    match made {
        Ok(Run { answers, .. }) => Tried::well(ran(rt, engine, answers.len())),
        Err(_) => Tried {
            first: Came::Refused(Refusal::Memory),
            is_same: is_sum(engine_sum(rt, engine), given),
            again: run_once(rt, engine, events),
        },
    }
}
