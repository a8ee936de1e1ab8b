//! The work that a desk gives its engine: commits and checkpoints.
ghost use Rattle.std.specs.Prelude.{◌≡◌, ◌<◌, ◌≤◌, true, length, IfOk, OnErr};
ghost use Rattle.hpb_rules.specs.declared.limits.TheConstants.{MOST_LETTERS};
ghost use Rattle.hpb_run.specs.Batches.{IsBetween};
ghost use Rattle.hpb_run.specs.Device.{State};
ghost use Rattle.hpb_run.specs.Standing.{AreAlike, HasAsked, IsCovered, StandsAt};

use crate::replies::{all_refused, letters_of, replies_to};
use crate::{commit_letters, make_checkpoint};
use hpb_disk::Disk;
use hpb_engine::Engine;
use hpb_rules::{Commands, Refusal, Replies, judged_is_answered};
use std::alloc::{AllocError, Global};

/// Commits commands as one batch. If the device failed before, each is refused (93 `failed`).
pub(crate) fn ask_engine<D: Disk + Drop>(
    alloc: Global,
    engine: &mut Engine<D>,
    commands: &Commands,
) -> Result<Replies, AllocError>
    requires some { 0 < length commands.now }
    requires most { length commands.now ≤ MOST_LETTERS }
    ensures asked { (state : State) → StandsAt engine.old state → IfOk result (λ replies. HasAsked engine.new state commands.now replies) }
    // If the device fails, or had failed, all commands get one refusal. 91 says that they are in flight. If the device
    // had worked, 93 says that none of them is kept.
    ensures alike { (state : State) → StandsAt engine.old state → engine.new.failed ≡ true
        → IfOk result (AreAlike engine.new state commands.now) }
    ensures kept { (state : State) → StandsAt engine.old state → OnErr result (StandsAt engine.new state) }
{
    judged_is_answered();
    let count = commands.len();
    if engine.failed {
        return Ok(all_refused(count, Refusal::Failed));
    }
    let ended = commit_letters(alloc, engine, letters_of(commands))?;
    Ok(replies_to(ended.fault, ended.answers.as_slice(), count))
}

/// Makes a whole checkpoint, unless the device has failed.
pub(crate) fn upkeep_engine<D: Disk + Drop>(engine: &mut Engine<D>)
    ensures stands { (state : State) → StandsAt engine.old state → StandsAt engine.new state }
    ensures whole { (state : State) → StandsAt engine.old state → IsBetween engine.old.progress → IsCovered engine.old engine.new }
{
    if engine.failed {
        return;
    }
    let _ = make_checkpoint(engine);
}
