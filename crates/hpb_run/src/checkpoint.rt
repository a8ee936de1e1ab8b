//! Whole checkpoints.
ghost use Rattle.std.specs.Prelude.{◌≡◌, List, false};
ghost use Rattle.hpb_rules.specs.declared.command.Command.{Command};
ghost use Rattle.hpb_rules.specs.Machine.{Machine, at_rest};
ghost use Rattle.hpb_disk.specs.Device.{LeavesOnly};
ghost use Rattle.hpb_recover.specs.Standing.{Stands};
ghost use Rattle.hpb_engine.specs.Engines.{Keeps};
ghost use Rattle.hpb_engine.specs.Keeping.{StandsFor};
ghost use Rattle.hpb_engine.specs.Checkpoints.{SameCore};
ghost use Rattle.hpb_engine.specs.Runs.{HasFailed};
ghost use Rattle.hpb_run.specs.Batches.{MakesCheckpoint};

use hpb_disk::Disk;
use hpb_engine::{Engine, Fault, Rest};

/// Makes steps of a checkpoint up to its last one. If a call of the device fails, it stops, and returns 91 `device`. It
/// takes no memory.
pub(crate) fn checkpoint<D: Disk + Drop>(engine: &mut Engine<D>) -> Option<Fault>
    requires works { engine.old.failed ≡ false }
    ensures keeps { (machine : Machine) → Keeps engine.old machine → Keeps engine.new machine }
    ensures since { (machine : Machine) → Keeps engine.old machine → LeavesOnly (D.device engine.old.disk) (D.device engine.new.disk) (StandsFor machine) }
    ensures makes { MakesCheckpoint engine.old engine.new result }
    ensures same { SameCore engine.old.progress engine.new.progress }
    ensures cause { HasFailed result (D.device engine.old.disk) (D.device engine.new.disk) }
{
    loop {
        match engine.checkpoint_step() {
            Ok(Rest::Went(_)) => {}
            Ok(Rest::Idle) => return None,
            Ok(Rest::Whole) => return None,
            Err(fault) => return Some(fault),
        }
    }
}

/// Finishes the checkpoint that is on its way, or else makes one of all committed batches. The acknowledged commands
/// stay, and a clean frame is left, unless the device fails. If the device failed before, it makes no call.
///
/// 91 `device` if a call of the device failed. It takes no memory.
pub fn make_checkpoint<D: Disk + Drop>(engine: &mut Engine<D>) -> Option<Fault>
    // If nothing is in flight, the engine keeps the same acknowledged commands. There is room for a batch, unless the
    // device has failed. If no checkpoint is on its way, it makes one of all committed batches, and finishes it unless
    // the device fails. If all batches are covered and all other frames are clean, it makes no call, and nothing
    // changes.
    ensures made { (history : List Command) → Keeps engine.old (at_rest history)
        → Keeps engine.new (at_rest history) × MakesCheckpoint engine.old engine.new result }
    // An image that a crash may leave since the call began stands for the same commands.
    ensures since { (history : List Command) → Keeps engine.old (at_rest history)
        → LeavesOnly (D.device engine.old.disk) (D.device engine.new.disk) (Stands history) }
    // The fault is 91 if and only if a call of the device failed in this call.
    ensures cause { HasFailed result (D.device engine.old.disk) (D.device engine.new.disk) }
{
    if engine.failed {
        return None;
    }
    checkpoint(engine)
}
