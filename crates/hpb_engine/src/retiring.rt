//! Frames that a checkpoint covers become clean again.
ghost use Rattle.std.specs.Prelude.{◌≡◌, ◌<◌, [], ◌∷◌, false, IfErr, OnErr, OnOk};
ghost use Rattle.hpb_disk.specs.Asked.Asked.{syncs};
ghost use Rattle.hpb_engine.specs.Numbers.{end_of};
ghost use Rattle.hpb_engine.specs.Moves.{retired, cleaned};
ghost use Rattle.hpb_engine.specs.Asking.{retire_asks};
ghost use Rattle.hpb_engine.specs.Steps.{outcome_of};
ghost use Rattle.hpb_engine.specs.Engines.{Called};

use crate::calls::{sync, tell};
use crate::engine::Engine;
use crate::laws_below;
use crate::step::Fault;
use hpb_disk::Disk;
use hpb_journal::Frames;
use hpb_rules::MOST_COMMANDS;

impl<D: Disk + Drop> Engine<D> {
    /// Closes the gate of the next frame, if it may be open.
    pub(crate) fn retire_frame(&mut self) -> Result<(), Fault>
        requires steps { self.old.progress.checkpoint.steps ≡ 0 }
        requires left { self.old.progress.retirement.upto < end_of self.old.progress.window }
        requires works { self.old.failed ≡ false }
        ensures progress { self.new.progress ≡ retired self.old.progress }
        ensures fault { IfErr result (λ fault. fault ≡ Fault.Device) }
        ensures called { Called self.old self.new (outcome_of result) (λ history. history) (retire_asks self.old.progress.window self.old.progress.retirement.upto) }
    {
        laws_below();
        let count = self.progress.committed.count();
        prove!(count <= MOST_COMMANDS);
        let frame = self.progress.retirement.upto;
        self.progress.retirement.going = true;
        self.progress.retirement.upto += 1;
        let window = &self.progress.window;
        if !window.may_be_open(frame) {
            return Ok(());
        }
        let done = window.frames.close_frame(&mut self.disk, frame, true);
        tell(done, &mut self.failed)
    }

    /// Syncs behind the last of them: they are closed on the device, and clean.
    pub(crate) fn sync_retired(&mut self) -> Result<(), Fault>
        requires done { self.old.progress.retirement.upto ≡ end_of self.old.progress.window }
        requires works { self.old.failed ≡ false }
        ensures ok { OnOk result (self.new.progress ≡ cleaned self.old.progress) }
        ensures err { OnErr result (self.new.progress ≡ self.old.progress) }
        ensures fault { IfErr result (λ fault. fault ≡ Fault.Device) }
        ensures called { Called self.old self.new (outcome_of result) (λ history. history) (syncs ∷ []) }
    {
        laws_below();
        sync(&mut self.disk, &mut self.failed)?;
        let count = self.progress.committed.count();
        prove!(count <= MOST_COMMANDS);
        let end = self.progress.window.end();
        self.progress.window.clean_end = end;
        self.progress.retirement.going = false;
        self.progress.retirement.upto = end;
        Ok(())
    }
}
