//! A commit, by turns of one device call each.
ghost use Rattle.std.specs.Prelude.{◌≡◌, ◌+◌, ◌<◌, ◌++◌, ℕ, List, [], Ok, Err, true, false, is_ok, IfErr, OnErr, OnOk, if◌then◌else◌};
ghost use Rattle.hpb_engine.specs.Engines.{Called, HasEffect, OnDevice};
ghost use Rattle.hpb_engine.specs.Moves.{turned, acknowledged};
ghost use Rattle.hpb_engine.specs.Asking.{turn_asks};
ghost use Rattle.hpb_engine.specs.Steps.{TurnLeads, acknowledged_by, leaving_with, outcome_of, step_of, turn_by};

use crate::calls::{sync, tell};
use crate::engine::Engine;
use crate::laws_below;
use crate::step::{Fault, Step, Turned};
use hpb_disk::Disk;
use hpb_journal::Frames;
use hpb_rules::{Answers, MOST_COMMANDS};
use std::mem;

impl<D: Disk + Drop> Engine<D> {
    /// Turn 1: writes the body of the batch behind its closed gate.
    fn write_body(&mut self) -> Result<(), Fault>
        requires busy { self.old.progress.commit.busy ≡ true }
        requires turns { self.old.progress.commit.turns ≡ 0 }
        requires works { self.old.failed ≡ false }
        ensures ok { OnOk result (self.new.progress ≡ turned self.old.progress 1) }
        ensures err { OnErr result (self.new.progress ≡ self.old.progress) }
        ensures fault { IfErr result (λ fault. fault ≡ Fault.Device) }
        ensures called { Called self.old self.new (outcome_of result) (λ history. history) (turn_asks self.old.progress) }
    {
        laws_below();
        let progress = &self.progress;
        let done = progress
            .window
            .frames
            .write_body(&mut self.disk, &progress.commit.batch);
        tell(done, &mut self.failed)?;
        self.progress.commit.turns = 1;
        Ok(())
    }

    /// Turn 2: syncs, so that the body is on the device.
    fn sync_body(&mut self) -> Result<(), Fault>
        requires busy { self.old.progress.commit.busy ≡ true }
        requires turns { self.old.progress.commit.turns ≡ 1 }
        requires works { self.old.failed ≡ false }
        ensures ok { OnOk result (self.new.progress ≡ turned self.old.progress 2) }
        ensures err { OnErr result (self.new.progress ≡ self.old.progress) }
        ensures fault { IfErr result (λ fault. fault ≡ Fault.Device) }
        ensures called { Called self.old self.new (outcome_of result) (λ history. history) (turn_asks self.old.progress) }
    {
        laws_below();
        sync(&mut self.disk, &mut self.failed)?;
        self.progress.commit.turns = 2;
        Ok(())
    }

    /// Turn 3: writes the gate. From here on the batch has landed, even if the call fails.
    fn write_gate(&mut self) -> Result<(), Fault>
        requires busy { self.old.progress.commit.busy ≡ true }
        requires turns { self.old.progress.commit.turns ≡ 2 }
        requires works { self.old.failed ≡ false }
        ensures progress { self.new.progress ≡ turned self.old.progress 3 }
        ensures fault { IfErr result (λ fault. fault ≡ Fault.Device) }
        ensures called { Called self.old self.new (outcome_of result) (λ history. history) (turn_asks self.old.progress) }
    {
        laws_below();
        self.progress.commit.turns = 3;
        let window = &self.progress.window;
        let done = window.frames.open_frame(&mut self.disk, window.next);
        tell(done, &mut self.failed)
    }

    /// Turn 4: syncs, so that the gate is on the device. The batch is acknowledged, and its answers leave.
    fn sync_gate(&mut self, leaving: &mut Answers) -> Result<(), Fault>
        requires busy { self.old.progress.commit.busy ≡ true }
        requires turns { self.old.progress.commit.turns ≡ 3 }
        requires works { self.old.failed ≡ false }
        requires none { leaving.old ≡ [] }
        ensures ok { OnOk result (self.new.progress ≡ acknowledged self.old.progress) }
        ensures answers { OnOk result (leaving.new ≡ self.old.progress.commit.answers) }
        ensures err { OnErr result (self.new.progress ≡ self.old.progress) }
        ensures silent { OnErr result (leaving.new ≡ []) }
        ensures fault { IfErr result (λ fault. fault ≡ Fault.Device) }
        ensures called { Called self.old self.new (outcome_of result) (λ history. if is_ok result then history ++ self.old.progress.commit.batch.commands else history) (turn_asks self.old.progress) }
    {
        laws_below();
        sync(&mut self.disk, &mut self.failed)?;
        let count = self.progress.committed.count();
        prove!(count <= MOST_COMMANDS);
        self.progress.window.next += 1;
        self.progress
            .committed
            .copy_from(&self.progress.commit.working);
        self.progress.commit.busy = false;
        self.progress.commit.turns = 0;
        mem::swap(leaving, &mut self.progress.commit.answers);
        Ok(())
    }

    /// Makes the turn that is next, and keeps what the specs say of the device's parts.
    fn turn(&mut self, leaving: &mut Answers) -> Result<Turned, Fault>
        requires none { leaving.old ≡ [] }
        ensures leads { TurnLeads self.old.failed (step_of result leaving.new) self.old.progress self.new.progress }
        ensures leaving { leaving.new ≡ leaving_with (step_of result leaving.new) }
        ensures rules { self.new.progress.committed.rules ≡ self.old.progress.committed.rules }
        // A turn with nothing in flight makes no call, and none is made after a fault.
        ensures idle { result ≡ Ok Turned.Idle → self.new.disk ≡ self.old.disk }
        ensures refused { result ≡ Err Fault.Failed → self.new.disk ≡ self.old.disk }
        ensures called { Called self.old self.new (outcome_of result) (acknowledged_by (step_of result leaving.new) self.old.progress) (turn_asks self.old.progress) }
    {
        laws_below();
        if self.failed {
            return Err(Fault::Failed);
        }
        if !self.progress.commit.busy {
            return Ok(Turned::Idle);
        }
        match self.progress.commit.turns {
            0 => {
                self.write_body()?;
                Ok(Turned::Went)
            }
            1 => {
                self.sync_body()?;
                Ok(Turned::Went)
            }
            2 => {
                self.write_gate()?;
                Ok(Turned::Went)
            }
            _ => {
                self.sync_gate(leaving)?;
                Ok(Turned::Done)
            }
        }
    }

    /// Makes a turn as `commit_step` does, and puts the answers that leave into the caller's list.
    ///
    /// After the last turn of a batch the list has that batch's answers. After any other call it is empty, whatever it
    /// held before. A caller that makes all turns needs one list for them.
    ///
    /// 91 `device`: the call failed. 93 `failed`: an earlier call failed; the device has to be opened again.
    pub fn make_turn(&mut self, leaving: &mut Answers) -> Result<Turned, Fault>
        // If the engine keeps a machine before the turn, it keeps the machine after a turn of its own, and the
        // machine's answers leave. An image that a crash may leave since the call began stands for what a stop may
        // leave before the turn or after it.
        ensures effect { HasEffect self.old self.new (turn_by (step_of result leaving.new)) leaving.new }
        // Answers leave with the last turn, and with no other.
        ensures last { leaving.new ≡ leaving_with (step_of result leaving.new) }
        // It is idle with nothing in flight, and done on the fourth turn, and on no other.
        ensures leads { TurnLeads self.old.failed (step_of result leaving.new) self.old.progress self.new.progress }
        ensures rules { self.new.progress.committed.rules ≡ self.old.progress.committed.rules }
        // It makes at most one call of the device, known beforehand, and reports its failure.
        ensures device { OnDevice self.old self.new result (turn_asks self.old.progress) }
        // A turn with nothing in flight makes no call, and none is made after a fault.
        ensures idle { result ≡ Ok Turned.Idle → self.new.disk ≡ self.old.disk }
        ensures refused { result ≡ Err Fault.Failed → self.new.disk ≡ self.old.disk }
    {
        laws_below();
        leaving.clear();
        self.turn(leaving)
    }

    /// Makes one turn of the batch in flight: its body is written; a sync; its gate is written; a sync. At the fourth
    /// turn its commands are acknowledged, and all its answers leave.
    ///
    /// If the call of the third turn fails, the batch has landed all the same. If the call of any other turn fails,
    /// nothing changes. A turn makes at most one call of the device, and takes no memory.
    ///
    /// 91 `device`: the call failed. 93 `failed`: an earlier call failed; the device has to be opened again.
    pub fn commit_step(&mut self) -> Result<Step, Fault>
        // If the engine keeps a machine before the turn, it keeps the machine after a turn of its own, and the
        // machine's answers leave. An image that a crash may leave since the call began stands for what a stop may
        // leave before the turn or after it.
        ensures effect { HasEffect self.old self.new (turn_by result) (leaving_with result) }
        // It is idle with nothing in flight, and done on the fourth turn, and on no other.
        ensures leads { TurnLeads self.old.failed result self.old.progress self.new.progress }
        ensures rules { self.new.progress.committed.rules ≡ self.old.progress.committed.rules }
        // It makes at most one call of the device, known beforehand, and reports its failure.
        ensures device { OnDevice self.old self.new result (turn_asks self.old.progress) }
        // A turn with nothing in flight makes no call, and none is made after a fault.
        ensures idle { result ≡ Ok Step.Idle → self.new.disk ≡ self.old.disk }
        ensures refused { result ≡ Err Fault.Failed → self.new.disk ≡ self.old.disk }
    {
        let mut leaving = Answers::new();
        match self.make_turn(&mut leaving)? {
            Turned::Idle => Ok(Step::Idle),
            Turned::Went => Ok(Step::Went),
            Turned::Done => Ok(Step::Done(leaving)),
        }
    }
}
