//! The calls of an engine, and their results.

use hpb_disk::Disk;
use hpb_engine::{Begun, Engine, Fault, Rest, Step, Weight};
use hpb_rules::{Answers, Letters};

/// The results of an offer.
#[derive(Drop)]
pub struct Offered {
    /// The weight of the letters before it.
    pub weighed: Weight,
    /// The result of `begin`.
    pub begun: Weight,
    /// The answers that left with it.
    pub answers: Answers,
    /// The letters that came back.
    pub back: Letters,
}

/// Weighs letters and offers them.
pub fn offer<D: Disk + Drop>(engine: &mut Engine<D>, letters: Letters) -> Offered {
    let weighed = engine.weigh(&letters);
    told(weighed, engine.begin(letters))
}

/// An offer, by the weight of its letters and the result of `begin`.
fn told(weighed: Weight, begun: Begun) -> Offered {
    let none = Answers::new();
    let (begun, answers, back) = match begun {
        Begun::Failed(back) => (Weight::Failed, none, back),
        Begun::Busy(back) => (Weight::Busy, none, back),
        Begun::Answered(answers) => (Weight::Old, answers, Letters::new()),
        Begun::Full(back) => (Weight::Full, none, back),
        Begun::InFlight => (Weight::New, none, Letters::new()),
    };
    Offered {
        weighed,
        begun,
        answers,
        back,
    }
}

/// The result of a turn of a commit.
#[derive(Clone, Copy, Debug, PartialEq, Eq)]
pub enum Turn {
    Idle,
    Went,
    Done,
}

/// A turn of a commit, and the answers that left with it.
pub fn take_turn<D: Disk + Drop>(engine: &mut Engine<D>) -> (Result<Turn, Fault>, Answers) {
    match engine.commit_step() {
        Ok(Step::Idle) => (Ok(Turn::Idle), Answers::new()),
        Ok(Step::Went) => (Ok(Turn::Went), Answers::new()),
        Ok(Step::Done(answers)) => (Ok(Turn::Done), answers),
        Err(fault) => (Err(fault), Answers::new()),
    }
}

/// A step of a checkpoint.
pub fn take_step<D: Disk + Drop>(engine: &mut Engine<D>) -> Result<Rest, Fault> {
    engine.checkpoint_step()
}

/// How many commands are committed.
pub fn count<D: Disk + Drop>(engine: &Engine<D>) -> u32 {
    engine.committed().count()
}

/// Offers letters and takes four turns: the answers that leave with the last of them.
pub fn commit<D: Disk + Drop>(engine: &mut Engine<D>, letters: Letters) -> Answers {
    let _ = offer(engine, letters);
    for _ in 0..3 {
        let _ = take_turn(engine);
    }
    let (_, answers) = take_turn(engine);
    answers
}

/// How many steps a whole checkpoint has that retires this many frames: nine that write the state, one for each frame,
/// and a last one.
pub fn steps_retiring(frames: u32) -> usize {
    (frames as usize).saturating_add(10)
}

/// Makes steps of a checkpoint until one answers `Whole`. Gives how many it made, that one included, or 0 if none of
/// `most` steps answers so.
pub fn steps_to_whole<D: Disk + Drop>(engine: &mut Engine<D>, most: usize) -> usize {
    for step in 1..=most {
        if take_step(engine) == Ok(Rest::Whole) {
            return step;
        }
    }
    0
}
