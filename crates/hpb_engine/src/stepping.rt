//! Steps of a checkpoint.
ghost use Rattle.std.specs.Prelude.{◌≡◌, ◌≤◌, Ok, Err, false, IfErr};
ghost use Rattle.hpb_rules.specs.Machine.{Machine};
ghost use Rattle.hpb_disk.specs.Device.{LeavesOnly};
ghost use Rattle.hpb_engine.specs.Keeping.{StandsFor};
ghost use Rattle.hpb_engine.specs.Engines.{Called, Keeps, OnDevice};
ghost use Rattle.hpb_engine.specs.Asking.{step_asks};
ghost use Rattle.hpb_engine.specs.Checkpoints.{SameCore, StepLeads, CheckpointLeads};
ghost use Rattle.hpb_engine.specs.Steps.{outcome_of};

use crate::engine::Engine;
use crate::laws_below;
use crate::step::{Fault, Part, Rest};
use hpb_disk::Disk;
use hpb_rules::MOST_COMMANDS;

impl<D: Disk + Drop> Engine<D> {
    /// Makes a step while no checkpoint is being written: retires a frame, begins a checkpoint, or finds nothing to do.
    fn rest_step(&mut self) -> Result<Rest, Fault>
        requires steps { self.old.progress.checkpoint.steps ≡ 0 }
        requires works { self.old.failed ≡ false }
        ensures leads { StepLeads result self.old.progress self.new.progress }
        ensures same { SameCore self.old.progress self.new.progress }
        ensures idle { result ≡ Ok Rest.Idle → self.new.disk ≡ self.old.disk }
        ensures clean { self.old.progress.window.clean_end ≤ self.new.progress.window.clean_end }
        ensures fault { IfErr result (λ fault. fault ≡ Fault.Device) }
        ensures called { Called self.old self.new (outcome_of result) (λ history. history) (step_asks self.old.progress) }
    {
        laws_below();
        let count = self.progress.committed.count();
        prove!(count <= MOST_COMMANDS);
        let window = &self.progress.window;
        let end = window.end();
        if self.progress.retirement.going && self.progress.retirement.upto >= end {
            self.sync_retired()?;
            return Ok(Rest::Whole);
        }
        if !self.progress.retirement.going && window.covered < window.next {
            self.begin_checkpoint()?;
            return Ok(Rest::Went(Part::Other));
        }
        if self.progress.retirement.upto >= end {
            return Ok(Rest::Idle);
        }
        self.retire_frame()?;
        Ok(Rest::Went(Part::Retired))
    }

    /// Makes a step while a checkpoint is being written.
    fn write_step(&mut self) -> Result<Rest, Fault>
        requires steps { 1 ≤ self.old.progress.checkpoint.steps }
        requires works { self.old.failed ≡ false }
        ensures leads { StepLeads result self.old.progress self.new.progress }
        ensures same { SameCore self.old.progress self.new.progress }
        ensures idle { result ≡ Ok Rest.Idle → self.new.disk ≡ self.old.disk }
        ensures clean { self.old.progress.window.clean_end ≤ self.new.progress.window.clean_end }
        ensures fault { IfErr result (λ fault. fault ≡ Fault.Device) }
        ensures called { Called self.old self.new (outcome_of result) (λ history. history) (step_asks self.old.progress) }
    {
        laws_below();
        let steps = self.progress.checkpoint.steps;
        match steps {
            1 => {
                self.sync_closed()?;
                Ok(Rest::Went(Part::Other))
            }
            2..=5 => {
                self.write_next_chunk()?;
                Ok(Rest::Went(Part::Chunk(steps - 2)))
            }
            6 => {
                self.sync_chunks()?;
                Ok(Rest::Went(Part::Other))
            }
            7 => {
                self.open_other()?;
                Ok(Rest::Went(Part::Other))
            }
            _ => {
                self.sync_renewed()?;
                Ok(Rest::Went(Part::Other))
            }
        }
    }

    /// Makes the step that is next, and keeps what the specs say of the device's parts.
    fn step(&mut self) -> Result<Rest, Fault>
        ensures leads { CheckpointLeads self.old.failed result self.old.progress self.new.progress }
        ensures same { SameCore self.old.progress self.new.progress }
        ensures clean { self.old.progress.window.clean_end ≤ self.new.progress.window.clean_end }
        ensures idle { result ≡ Ok Rest.Idle → self.new.disk ≡ self.old.disk }
        ensures refused { result ≡ Err Fault.Failed → self.new.disk ≡ self.old.disk }
        ensures called { Called self.old self.new (outcome_of result) (λ history. history) (step_asks self.old.progress) }
    {
        laws_below();
        if self.failed {
            return Err(Fault::Failed);
        }
        if self.progress.checkpoint.steps == 0 {
            self.rest_step()
        } else {
            self.write_step()
        }
    }

    /// Makes one step of a checkpoint. Nine steps write the state that is committed at the first of them. Then come one
    /// step for each frame that the checkpoint frees, and a sync. Turns of a commit may come between.
    ///
    /// The commands don't change. A step makes at most one call of the device, and takes no memory.
    ///
    /// 91 `device`: the call failed. 93 `failed`: an earlier call failed; the device has to be opened again.
    pub fn checkpoint_step(&mut self) -> Result<Rest, Fault>
        // If the engine keeps a machine before the step, it keeps the same machine after it.
        ensures keeps { (machine : Machine) → Keeps self.old machine → Keeps self.new machine }
        // An image that a crash may leave since the call began stands for what a stop of the machine may leave.
        ensures since { (machine : Machine) → Keeps self.old machine
            → LeavesOnly (D.device self.old.disk) (D.device self.new.disk) (StandsFor machine) }
        ensures same { SameCore self.old.progress self.new.progress }
        // It is idle if and only if there is nothing to do, and whole exactly at the last of the steps that were left.
        ensures leads { CheckpointLeads self.old.failed result self.old.progress self.new.progress }
        // No clean frame is given up.
        ensures clean { self.old.progress.window.clean_end ≤ self.new.progress.window.clean_end }
        // It makes at most one call of the device, known beforehand, and reports its failure.
        ensures device { OnDevice self.old self.new result (step_asks self.old.progress) }
        // A step with nothing to do makes no call, and none is made after a fault.
        ensures idle { result ≡ Ok Rest.Idle → self.new.disk ≡ self.old.disk }
        ensures refused { result ≡ Err Fault.Failed → self.new.disk ≡ self.old.disk }
    {
        laws_below();
        self.step()
    }
}
