//! One batch of letters.
ghost use Rattle.std.specs.Prelude.{◌≡◌, List, true, false, Err, IfOk, OnErr};
ghost use Rattle.hpb_rules.specs.declared.command.Command.{Command};
ghost use Rattle.hpb_rules.specs.declared.letter.Answer.{Answer};
ghost use Rattle.hpb_rules.specs.Letters.{judged};
ghost use Rattle.hpb_rules.specs.Machine.{at_rest, in_flight};
ghost use Rattle.hpb_disk.specs.Device.{LeavesOnly};
ghost use Rattle.hpb_engine.specs.Engines.{Keeps};
ghost use Rattle.hpb_engine.specs.Offers.{CanTake};
ghost use Rattle.hpb_engine.specs.declared.step.Fault.TheVariants as faults;
ghost use Rattle.hpb_run.specs.Batches.{BatchTakes, IsAllOrNone, KeepsAnswered, KeepsEnded, Lands, LettersTake, StaysRefused, TellsFailures, fault_of, moment_of};

use crate::checkpoint::checkpoint;
use hpb_disk::Disk;
use hpb_engine::{Bar, Engine, Fault, Turned};
use hpb_rules::{Answer, Answers, Letters, MOST_LETTERS};
use std::alloc::{AllocError, Global};

/// The result of a commit of letters.
#[derive(Drop)]
pub struct Ended {
    /// If there is no fault: the answers to all of them, in order.
    pub answers: Vec<Answer>,
    /// 91 `device`: a call of the device failed in their commit. None is acknowledged, and a crash may keep them or
    /// not. 93 `failed`: a call had failed before, or in the checkpoint before their commit, or a batch was in flight.
    /// None was taken.
    pub fault: Option<Fault>,
}

/// Makes the turns that are left of the batch in flight. Its answers, which leave with the fourth, replace those in
/// `answers`. If a call of the device fails (91 `device`), the batch stays in flight.
fn land<D: Disk + Drop>(engine: &mut Engine<D>, answers: &mut Answers) -> Result<(), Fault>
    requires busy { engine.old.progress.commit.busy ≡ true }
    requires works { engine.old.failed ≡ false }
    ensures keeps { (history : List Command) (given : List Answer)
        → Keeps engine.old (in_flight history given engine.old.progress.commit.turns)
        → KeepsAnswered engine.old.progress.committed.rules engine.new history given answers.new (fault_of result) }
    ensures since { (history : List Command) (given : List Answer)
        → Keeps engine.old (in_flight history given engine.old.progress.commit.turns)
        → LeavesOnly (D.device engine.old.disk) (D.device engine.new.disk) (IsAllOrNone history given) }
    ensures lands { Lands (fault_of result) engine.old engine.new }
    ensures cause { TellsFailures (fault_of result) (D.device engine.old.disk) (D.device engine.new.disk) }
{
    match engine.make_turn(answers)? {
        Turned::Done => Ok(()),
        Turned::Went => land(engine, answers),
        Turned::Idle => unreachable!(),
    }
}

/// Commits letters that nothing bars. If none is new, they are answered at once; otherwise once their turns are made.
fn commit_clear<D: Disk + Drop>(
    engine: &mut Engine<D>,
    letters: &Letters,
    answers: &mut Answers,
) -> Result<(), Fault>
    requires clear { CanTake engine.old.failed engine.old.progress letters.now }
    ensures commits { (history : List Command) → Keeps engine.old (at_rest history)
        → KeepsEnded engine.old.progress.committed.rules engine.new history letters.now answers.new (fault_of result) }
    ensures since { (history : List Command) → Keeps engine.old (at_rest history)
        → LeavesOnly (D.device engine.old.disk) (D.device engine.new.disk) (IsAllOrNone history (judged engine.old.progress.committed.rules history letters.now)) }
    ensures takes { BatchTakes (fault_of result) letters.now engine.old.progress engine.new.progress (moment_of engine.old) (moment_of engine.new) }
    ensures now { result ≡ Err faults.Failed → ⊥ }
    ensures cause { TellsFailures (fault_of result) (D.device engine.old.disk) (D.device engine.new.disk) }
{
    match engine.take(letters) {
        Some(told) => {
            *answers = told;
            Ok(())
        }
        None => land(engine, answers),
    }
}

/// Commits letters. If no clean frame is left for them, it makes a whole checkpoint first. It takes no memory.
fn commit_all<D: Disk + Drop>(
    engine: &mut Engine<D>,
    letters: &Letters,
    answers: &mut Answers,
) -> Result<(), Fault>
    ensures commits { (history : List Command) → Keeps engine.old (at_rest history)
        → KeepsEnded engine.old.progress.committed.rules engine.new history letters.now answers.new (fault_of result)
        × LettersTake letters.now engine.old engine.new (fault_of result) }
    ensures since { (history : List Command) → Keeps engine.old (at_rest history)
        → LeavesOnly (D.device engine.old.disk) (D.device engine.new.disk) (IsAllOrNone history (judged engine.old.progress.committed.rules history letters.now)) }
    ensures cause { TellsFailures (fault_of result) (D.device engine.old.disk) (D.device engine.new.disk) }
{
    match engine.bars(letters) {
        None => commit_clear(engine, letters, answers),
        Some(Bar::Failed | Bar::Busy) => Err(Fault::Failed),
        Some(Bar::Full) => match checkpoint(engine) {
            None => commit_clear(engine, letters, answers),
            Some(_) => Err(Fault::Failed),
        },
    }
}

/// Commits letters as one batch: either all are answered and the accepted commands acknowledged, or none. If no clean
/// frame is left for them, it first makes a whole checkpoint, which leaves one.
///
/// The fault says why there are no answers. 91 `device`: a call of the device failed in the commit. 93 `failed`: one
/// failed before, or a batch is in flight.
///
/// 90 `memory` if memory is refused: no letter is taken, and the acknowledged commands stay.
pub fn commit_letters<D: Disk + Drop>(
    alloc: Global,
    engine: &mut Engine<D>,
    letters: Letters,
) -> Result<Ended, AllocError>
    // Suppose the engine keeps a history, with nothing in flight. Without a fault, the answers are those of the rules,
    // and it then keeps the history with the accepted commands. With a fault it keeps the history. A checkpoint is made
    // if and only if the journal is full.
    ensures commits { (history : List Command) → Keeps engine.old (at_rest history)
        → IfOk result (λ ended. KeepsEnded engine.old.progress.committed.rules engine.new history letters ended.answers.items ended.fault
        × LettersTake letters engine.old engine.new ended.fault) }
    // An image that a crash may leave since the call began stands for the history, or for the history with all that the
    // letters accept.
    ensures since { (history : List Command) → Keeps engine.old (at_rest history)
        → LeavesOnly (D.device engine.old.disk) (D.device engine.new.disk) (IsAllOrNone history (judged engine.old.progress.committed.rules history letters)) }
    // Without a fault no call of the device failed, and 91 comes only if one did.
    ensures cause { IfOk result (λ ended. TellsFailures ended.fault (D.device engine.old.disk) (D.device engine.new.disk)) }
    // If memory is refused, the history stays. No call has failed then, and the committed auction is the same.
    ensures back { (history : List Command) → Keeps engine.old (at_rest history)
        → OnErr result (Keeps engine.new (at_rest history) × StaysRefused engine.old engine.new) }
{
    let mut answers = Vec::with_capacity(alloc, MOST_LETTERS)?;
    let mut told = Answers::new();
    match commit_all(engine, &letters, &mut told) {
        Ok(()) => {
            let added = answers.extend_from_slice(told.as_slice());
            prove!(added.is_ok());
            Ok(Ended {
                answers,
                fault: None,
            })
        }
        Err(fault) => Ok(Ended {
            answers,
            fault: Some(fault),
        }),
    }
}
