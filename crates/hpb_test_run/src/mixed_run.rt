//! A run of eight batches with checkpoint steps between the commit steps, and the commands that may stand if a call of
//! it fails.

use hpb_disk::{Disk, MemoryDisk};
use hpb_engine::{Engine, Event};
use hpb_rules::Letters;
use hpb_test_engine::calls::{count, offer, take_step, take_turn};
use hpb_test_engine::letters::Bidder::{W, X, Y, Z};
use hpb_test_engine::letters::Node::{A, All, B, C};
use hpb_test_engine::letters::{bid, close, list_of, stage};
use std::alloc::{AllocError, Global};
use std::test::Fail;

/// How many batches there are.
const BATCHES: usize = 8;

/// How many commands are committed once 0 to 8 batches are acknowledged, by the number of these.
const COMMANDS: [u32; BATCHES + 1] = [0, 2, 4, 5, 6, 7, 8, 9, 10];

/// How many answers have left by then.
const ANSWERS: [usize; BATCHES + 1] = [0, 2, 5, 6, 9, 11, 12, 13, 15];

/// The letters of a batch. Some are refused, and some are repeats.
fn batch(place: usize) -> Letters {
    match place {
        0 => list_of(&[bid(X, 1, A, 100), bid(Y, 1, B, 150)]),
        1 => list_of(&[bid(Z, 1, All, 500), bid(X, 2, A, 120), bid(W, 1, C, 100)]),
        2 => list_of(&[close(1)]),
        3 => list_of(&[close(1), bid(W, 2, C, 250), bid(W, 2, C, 260)]),
        4 => list_of(&[close(2), bid(X, 2, A, 110)]),
        5 => list_of(&[bid(Z, 2, All, 600)]),
        6 => list_of(&[stage(3)]),
        _ => list_of(&[stage(4), close(4)]),
    }
}

/// The eight batches. Each has its four turns, and before each turn up to four steps of a checkpoint. These are so few
/// that a checkpoint lasts past its batch, and so many that no offer finds the journal full.
pub(crate) fn events(alloc: Global) -> Result<Vec<Event>, AllocError> {
    let mut events = Vec::new(alloc);
    for place in 0..BATCHES {
        events.push(Event::Offer(batch(place)))?;
        for turn in 0..4 {
            for _ in 0..(place * 2 + turn) % 5 {
                events.push(Event::Checkpoint)?;
            }
            events.push(Event::Commit)?;
        }
    }
    Ok(events)
}

/// How far a run has come: this many batches are acknowledged, and one more may have landed.
#[derive(Clone, Copy, Debug, PartialEq, Eq)]
pub(crate) struct Moment {
    acknowledged: usize,
    may_land: bool,
}

impl Moment {
    /// Before the first batch.
    pub(crate) const START: Moment = Moment {
        acknowledged: 0,
        may_land: false,
    };

    /// How many commands are committed.
    pub(crate) fn committed(&self) -> u32 {
        COMMANDS.get(self.acknowledged).copied().unwrap_or(0)
    }

    /// How many answers have left.
    pub(crate) fn answers(&self) -> usize {
        ANSWERS.get(self.acknowledged).copied().unwrap_or(0)
    }

    /// How many commands stand if the batch in flight has landed. `None` if it can't have.
    pub(crate) fn landed(&self) -> Option<u32> {
        if !self.may_land {
            return None;
        }
        COMMANDS.get(self.acknowledged.saturating_add(1)).copied()
    }

    /// Whether this many commands may be found after a stop.
    pub(crate) fn may_leave(&self, count: u32) -> bool {
        count == self.committed() || self.landed() == Some(count)
    }
}

/// How many batches were offered, and how many turns the last of them had.
#[derive(Clone, Copy)]
struct Place {
    offered: usize,
    turns: u8,
}

impl Place {
    /// The place after an event.
    fn after(self, event: &Event) -> Place {
        match event {
            Event::Offer(_) => Place {
                offered: self.offered.saturating_add(1),
                turns: 0,
            },
            Event::Commit => Place {
                turns: self.turns.saturating_add(1),
                ..self
            },
            Event::Checkpoint => self,
        }
    }

    /// The moment of an event's call. The third turn writes the gate, and the fourth acknowledges nothing if its call
    /// fails.
    fn moment(&self) -> Moment {
        Moment {
            acknowledged: self.offered.saturating_sub(1),
            may_land: self.turns >= 3,
        }
    }
}

/// Gives an event to an engine.
fn happen<D: Disk + Drop>(engine: &mut Engine<D>, event: &Event) {
    match event {
        Event::Offer(letters) => {
            let _ = offer(engine, list_of(letters.as_slice()));
        }
        Event::Commit => {
            let _ = take_turn(engine);
        }
        Event::Checkpoint => {
            let _ = take_step(engine);
        }
    }
}

/// The moment of each call of the events, behind those of the calls of opening.
fn moments_of(
    alloc: Global,
    engine: &mut Engine<MemoryDisk>,
    events: &[Event],
) -> Result<Vec<Moment>, AllocError> {
    let mut moments = vec![in alloc; Moment::START; engine.disk.calls()]?;
    let mut place = Place {
        offered: 0,
        turns: 0,
    };
    for event in events {
        let calls = engine.disk.calls();
        happen(engine, event);
        place = place.after(event);
        if engine.disk.calls() != calls {
            moments.push(place.moment())?;
        }
    }
    Ok(moments)
}

/// The moment of each call of a device in a run without a fault: those of opening it, and those of the events.
pub(crate) fn moments(
    alloc: Global,
    engine: &mut Engine<MemoryDisk>,
    events: &[Event],
) -> Result<Vec<Moment>, Fail> {
    let moments = moments_of(alloc, engine, events)?;
    match COMMANDS.last() {
        Some(all) if *all == count(engine) => Ok(moments),
        _ => Err(Fail::new("not all batches were acknowledged")),
    }
}
