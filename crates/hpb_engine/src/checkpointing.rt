//! A checkpoint, written by steps of at most one device call each.
ghost use Rattle.std.specs.Prelude.{◌≡◌, ◌+◌, ◌<◌, ◌≤◌, false, IfErr, OnErr, OnOk};
ghost use Rattle.hpb_engine.specs.Moves.{snapped, emptied, stepped, renewed};
ghost use Rattle.hpb_engine.specs.Asking.{step_asks};
ghost use Rattle.hpb_engine.specs.Steps.{outcome_of};
ghost use Rattle.hpb_engine.specs.Engines.{Called};

use crate::calls::{sync, tell};
use crate::engine::Engine;
use crate::laws_below;
use crate::snapshot::take_snapshot;
use crate::step::Fault;
use hpb_disk::Disk;
use hpb_slots::{close_slot, open_slot, write_chunk};

impl<D: Disk + Drop> Engine<D> {
    /// Step 1: takes a snapshot of the committed auction, without a batch in flight. Closes the gate of the other slot,
    /// if it may be open.
    pub(crate) fn begin_checkpoint(&mut self) -> Result<(), Fault>
        requires steps { self.old.progress.checkpoint.steps ≡ 0 }
        requires rest { self.old.progress.retirement.going ≡ false }
        requires new { self.old.progress.window.covered < self.old.progress.window.next }
        requires works { self.old.failed ≡ false }
        ensures progress { self.new.progress ≡ snapped self.old.progress self.new.progress }
        ensures fault { IfErr result (λ fault. fault ≡ Fault.Device) }
        ensures called { Called self.old self.new (outcome_of result) (λ history. history) (step_asks self.old.progress) }
    {
        laws_below();
        take_snapshot(
            &self.progress.committed,
            self.progress.window.next,
            &mut self.progress.checkpoint.body,
        );
        self.progress.checkpoint.covers = self.progress.window.next;
        self.progress.checkpoint.steps = 1;
        if !self.progress.checkpoint.other_open {
            return Ok(());
        }
        let other = self.progress.checkpoint.newest.other();
        let done = close_slot(&mut self.disk, other, true);
        tell(done, &mut self.failed)
    }

    /// Step 2: syncs, so that the gate is closed on the device.
    pub(crate) fn sync_closed(&mut self) -> Result<(), Fault>
        requires steps { self.old.progress.checkpoint.steps ≡ 1 }
        requires works { self.old.failed ≡ false }
        ensures ok { OnOk result (self.new.progress ≡ emptied self.old.progress) }
        ensures err { OnErr result (self.new.progress ≡ self.old.progress) }
        ensures fault { IfErr result (λ fault. fault ≡ Fault.Device) }
        ensures called { Called self.old self.new (outcome_of result) (λ history. history) (step_asks self.old.progress) }
    {
        laws_below();
        sync(&mut self.disk, &mut self.failed)?;
        self.progress.checkpoint.steps = 2;
        self.progress.checkpoint.other_open = false;
        Ok(())
    }

    /// Steps 3 to 6: writes the next of the body's four chunks.
    pub(crate) fn write_next_chunk(&mut self) -> Result<(), Fault>
        requires from { 2 ≤ self.old.progress.checkpoint.steps }
        requires to { self.old.progress.checkpoint.steps ≤ 5 }
        requires works { self.old.failed ≡ false }
        ensures progress { self.new.progress ≡ stepped self.old.progress (self.old.progress.checkpoint.steps + 1) }
        ensures fault { IfErr result (λ fault. fault ≡ Fault.Device) }
        ensures called { Called self.old self.new (outcome_of result) (λ history. history) (step_asks self.old.progress) }
    {
        laws_below();
        let chunk = usize::from(self.progress.checkpoint.steps - 2);
        self.progress.checkpoint.steps += 1;
        let checkpoint = &self.progress.checkpoint;
        let other = checkpoint.newest.other();
        let done = write_chunk(&mut self.disk, other, chunk, &checkpoint.body);
        tell(done, &mut self.failed)
    }

    /// Step 7: syncs, so that all four chunks are on the device.
    pub(crate) fn sync_chunks(&mut self) -> Result<(), Fault>
        requires steps { self.old.progress.checkpoint.steps ≡ 6 }
        requires works { self.old.failed ≡ false }
        ensures ok { OnOk result (self.new.progress ≡ stepped self.old.progress 7) }
        ensures err { OnErr result (self.new.progress ≡ self.old.progress) }
        ensures fault { IfErr result (λ fault. fault ≡ Fault.Device) }
        ensures called { Called self.old self.new (outcome_of result) (λ history. history) (step_asks self.old.progress) }
    {
        laws_below();
        sync(&mut self.disk, &mut self.failed)?;
        self.progress.checkpoint.steps = 7;
        Ok(())
    }

    /// Step 8: opens the gate of the other slot, which holds the new state.
    pub(crate) fn open_other(&mut self) -> Result<(), Fault>
        requires steps { self.old.progress.checkpoint.steps ≡ 7 }
        requires works { self.old.failed ≡ false }
        ensures progress { self.new.progress ≡ stepped self.old.progress 8 }
        ensures fault { IfErr result (λ fault. fault ≡ Fault.Device) }
        ensures called { Called self.old self.new (outcome_of result) (λ history. history) (step_asks self.old.progress) }
    {
        laws_below();
        self.progress.checkpoint.steps = 8;
        let other = self.progress.checkpoint.newest.other();
        let done = open_slot(&mut self.disk, other);
        tell(done, &mut self.failed)
    }

    /// Step 9: syncs, so that the new state is the newest. Frames that it covers are retired next.
    pub(crate) fn sync_renewed(&mut self) -> Result<(), Fault>
        requires steps { self.old.progress.checkpoint.steps ≡ 8 }
        requires works { self.old.failed ≡ false }
        ensures ok { OnOk result (self.new.progress ≡ renewed self.old.progress) }
        ensures err { OnErr result (self.new.progress ≡ self.old.progress) }
        ensures fault { IfErr result (λ fault. fault ≡ Fault.Device) }
        ensures called { Called self.old self.new (outcome_of result) (λ history. history) (step_asks self.old.progress) }
    {
        laws_below();
        sync(&mut self.disk, &mut self.failed)?;
        let progress = &mut self.progress;
        progress.window.covered = progress.checkpoint.covers;
        progress.checkpoint.newest = progress.checkpoint.newest.other();
        progress.checkpoint.other_open = true;
        progress.checkpoint.steps = 0;
        progress.retirement.going = true;
        Ok(())
    }
}
