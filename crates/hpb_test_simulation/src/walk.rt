//! A walk of random events, with a stop after each call of the device.
ghost use Rattle.std.specs.Prelude.{◌<◌};

mod letters;
mod model;
mod tally;

use crate::random::{Random, Stop};
use anyhow::{Result, bail};
use hpb_codec::JournalShape;
use hpb_disk::MemoryDisk;
use hpb_engine::{Engine, Rest, Weight};
use hpb_rules::{Answers, Letter};
use hpb_test_engine::calls::{Offered, Turn, offer, take_step, take_turn};
use hpb_test_engine::devices::{new_engine, opened_after, started};
use hpb_test_engine::letters::list_of;
use hpb_test_engine::states::same;
use letters::next_letters;
use model::{Model, Standing};
use std::alloc::Global;
use tally::{Tally, count_one};

/// How many events one device goes through at most.
const EVENTS: usize = 400;

/// An engine and its model, side by side.
#[derive(Drop)]
struct Walk {
    alloc: Global,
    engine: Box<Engine<MemoryDisk>>,
    model: Model,
    tally: Tally,
}

impl Walk {
    fn new(alloc: Global, shape: JournalShape, tally: Tally) -> Result<Walk> {
        Ok(Walk {
            alloc,
            engine: new_engine(alloc, shape)?,
            model: Model::new(alloc, shape.frames),
            tally,
        })
    }

    /// Makes an event, and then a stop if the device had a call. One event in `steps` is a step of a checkpoint.
    fn event(&mut self, random: &mut Random, steps: u32) -> Result<()>
        requires { 0 < steps }
    {
        let calls = self.engine.disk.calls();
        if random.is_one_in(steps) {
            self.checkpoint()?;
        } else if random.is_one_in(4) {
            self.offer(random)?;
        } else {
            self.commit()?;
        }
        let now = self.engine.disk.calls();
        if now == calls {
            return Ok(());
        }
        if now != calls.saturating_add(1) {
            bail!("more than one call");
        }
        self.stop(random)
    }

    fn offer(&mut self, random: &mut Random) -> Result<()> {
        let auction = self.model.auction(self.alloc)?;
        let letters = next_letters(random, self.alloc, &auction)?;
        let (weight, answers) = self.model.offer(self.alloc, &letters)?;
        match weight {
            Weight::Old => count_one(&mut self.tally.old),
            Weight::Full => count_one(&mut self.tally.full),
            Weight::Busy => count_one(&mut self.tally.busy),
            Weight::New | Weight::Failed => {}
        }
        let sent = list_of(letters.as_slice());
        let offered = offer(&mut self.engine, letters);
        if !is_offered(&offered, weight, &answers, sent.as_slice()) {
            bail!("an offer");
        }
        Ok(())
    }

    fn commit(&mut self) -> Result<()> {
        let (wanted, answers) = self.model.commit()?;
        let (turn, leaving) = take_turn(&mut self.engine);
        if wanted == Turn::Done {
            count_one(&mut self.tally.done);
        }
        if turn != Ok(wanted) || leaving.as_slice() != answers.as_slice() {
            bail!("a turn of a commit");
        }
        Ok(())
    }

    fn checkpoint(&mut self) -> Result<()> {
        let wanted = self.model.checkpoint();
        match wanted {
            Rest::Idle => count_one(&mut self.tally.idle),
            Rest::Whole => count_one(&mut self.tally.whole),
            Rest::Went(_) => {}
        }
        if take_step(&mut self.engine) != Ok(wanted) {
            bail!("a step of a checkpoint");
        }
        Ok(())
    }

    /// Opens the bytes that a stop leaves. At times the walk goes on with them.
    fn stop(&mut self, random: &mut Random) -> Result<()> {
        count_one(&mut self.tally.stops);
        let fates = random.fates(self.alloc, Stop::Torn)?;
        let opened = opened_after(self.alloc, &self.engine, &fates)?;
        let Some(standing) = self.model.standing(self.alloc, &opened)? else {
            bail!("what a stop left");
        };
        if standing == Standing::WithFlight {
            count_one(&mut self.tally.landed);
        }
        if random.is_one_in(16) {
            count_one(&mut self.tally.restarts);
            self.model.restart(standing, &opened)?;
            self.engine = started(self.alloc, opened)?;
        }
        Ok(())
    }

    /// The committed commands are those that the model acknowledged.
    fn end(&self) -> Result<()> {
        let auction = self.model.auction(self.alloc)?;
        if !same(self.engine.committed(), &auction) {
            bail!("what is committed");
        }
        Ok(())
    }
}

/// Whether an offer had this result. Letters that weren't taken come back.
fn is_offered(offered: &Offered, weight: Weight, answers: &Answers, sent: &[Letter]) -> bool {
    let is_back = match weight {
        Weight::Full | Weight::Busy => offered.back.as_slice() == sent,
        Weight::Failed | Weight::Old | Weight::New => offered.back.len() == 0,
    };
    is_back
        && offered.weighed == weight
        && offered.begun == weight
        && offered.answers.as_slice() == answers.as_slice()
}

/// Walks over one device with such a journal after another, up to this many stops. Steps of checkpoints are seldom, or
/// as many as those of commits, or more.
pub(crate) fn walk_from(
    alloc: Global,
    shape: JournalShape,
    stops: u64,
    seed: u64,
) -> Result<Tally> {
    let mut random = Random::new(seed);
    let mut tally = Tally::default();
    for device in 0..stops {
        let steps = match device % 3 {
            0 => 12,
            1 => 4,
            _ => 2,
        };
        let mut walk = Walk::new(alloc, shape, tally)?;
        for _ in 0..EVENTS {
            if walk.tally.stops < stops {
                walk.event(&mut random, steps)?;
            }
        }
        walk.end()?;
        tally = walk.tally;
        if tally.stops >= stops {
            break;
        }
    }
    Ok(tally)
}
