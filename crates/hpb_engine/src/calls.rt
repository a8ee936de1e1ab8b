//! One call of the device, and how a failure of it is reported.
ghost use Rattle.std.specs.Prelude.{◌≡◌, ◌∷◌, [], Err, IsOk, MatchResult, false, true};
ghost use Rattle.hpb_engine.specs.Steps.{Synced};

use crate::step::Fault;
use hpb_disk::{Disk, DiskFailed};

/// Turns the outcome of a call into that of a step. If the call failed, the step's fault is 91 `device`, and the engine
/// counts as failed from then on.
pub(crate) fn tell(done: Result<(), DiskFailed>, failed: &mut bool) -> Result<(), Fault>
    requires works { failed.old ≡ false }
    ensures { MatchResult done (λ _. IsOk result × (failed.new ≡ false)) (λ _. (result ≡ Err Fault.Device) × (failed.new ≡ true)) }
{
    match done {
        Ok(()) => Ok(()),
        Err(_) => {
            *failed = true;
            Err(Fault::Device)
        }
    }
}

/// Syncs the device. If the sync fails, the fault is 91 `device`, and the engine counts as failed from then on.
pub(crate) fn sync<D: Disk + Drop>(disk: &mut D, failed: &mut bool) -> Result<(), Fault>
    requires works { failed.old ≡ false }
    ensures { Synced (D.device disk.old) (D.device disk.new) failed.new result }
{
    match disk.sync() {
        Ok(()) => Ok(()),
        Err(_) => {
            *failed = true;
            Err(Fault::Device)
        }
    }
}
