//! The results of turns and steps.
use hpb_rules::{Answers, Refusal};
use thiserror::Error;

/// The result of a turn of a commit.
#[derive(Drop)]
pub enum Step {
    /// No batch is in flight: nothing was done.
    Idle,
    /// The batch in flight had a turn, which wasn't its last.
    Went,
    /// It had its last turn: it is acknowledged, and all its answers leave.
    Done(Answers),
}

/// What a turn of a commit did, without the answers that leave with it.
#[derive(Clone, Copy)]
pub enum Turned {
    /// No batch is in flight: nothing was done.
    Idle,
    /// The batch in flight had a turn, which wasn't its last.
    Went,
    /// It had its last turn: it is acknowledged.
    Done,
}

/// The result of a step of a checkpoint.
#[derive(Clone, Copy, Debug, PartialEq, Eq)]
pub enum Rest {
    /// There is nothing to do: the newest checkpoint covers all committed batches, and all other frames are clean.
    Idle,
    /// This part of a checkpoint was done, and it wasn't the last.
    Went(Part),
    /// The last part was done: the checkpoint is the newest state, and the frames that it covers are clean.
    Whole,
}

/// A part of a checkpoint.
#[derive(Clone, Copy, Debug, PartialEq, Eq)]
pub enum Part {
    /// The chunk of this number, from 0 to 3, was written.
    Chunk(u8),
    /// A frame that isn't needed any more was closed.
    Retired,
    /// Any other part: the snapshot, a sync, or the opening of the gate.
    Other,
}

/// Why a step was not made. The words are those of an `ERR` line.
#[derive(Clone, Copy, Debug, PartialEq, Eq, Error)]
pub enum Fault {
    /// 91 `device`: a call of the device failed in this step.
    #[error("device")]
    Device,
    /// 93 `failed`: a call failed in an earlier step. The device has to be opened again.
    #[error("failed")]
    Failed,
}

impl Fault {
    ghost use Rattle.std.specs.Prelude.{◌≡◌};
    ghost use Rattle.hpb_engine.specs.Steps.{refusal_of};

    /// The refusal by which this fault is reported.
    pub fn refusal(self) -> Refusal
        ensures { result ≡ refusal_of self }
    {
        match self {
            Fault::Device => Refusal::Device,
            Fault::Failed => Refusal::Failed,
        }
    }
}
