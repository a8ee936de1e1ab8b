//! The desk of an auction on a device.
ghost use Rattle.std.specs.Prelude.{◌≡◌, ◌<◌, ◌≤◌, List, true, false, length, IfOk, IfErr, IfSome, OnErr, OnOk};
ghost use Rattle.hpb_rules.specs.declared.limits.TheConstants.{MOST_LETTERS};
ghost use Rattle.hpb_server.specs.Desk.{HasPlaces};

use crate::asking::{ask_engine, upkeep_engine};
use crate::counting::{count_commit, is_checkpoint_due};
use hpb_auction::Auction;
use hpb_disk::Disk;
use hpb_engine::Engine;
use hpb_rules::{Commands, MOST_LETTERS, Replies};
use hpb_server::Desk;
use hpb_tree::Definition;
use std::alloc::{AllocError, Global};

/// The desk of an auction on a device, which `run_device` serves.
#[derive(Drop)]
pub struct DeviceDesk<D: Disk + Drop> {
    pub engine: Engine<D>,
    /// A copy of the auction's definition, by which lines are read.
    pub definition: Definition,
    /// How many commands are committed together, from 1 to 64, if that many have come.
    pub batch: usize,
    /// After how many commits a checkpoint is due; 0 for never.
    pub every: u32,
    /// How many commits there have been since the last checkpoint that was due.
    pub commits: u32,
    pub ghost some: { 0 < batch },
    pub ghost most: { batch ≤ MOST_LETTERS },
}

impl<D: Disk + Drop> DeviceDesk<D> {
    ghost use Rattle.hpb_rules.specs.declared.command.Command.{Command};
    ghost use Rattle.hpb_rules.specs.Machine.{at_rest};
    ghost use Rattle.hpb_engine.specs.Engines.{Keeps};
    ghost use Rattle.hpb_server.specs.Desk.{AsksAll, seen};
    ghost use Rattle.hpb_run.specs.Device.{ShowsAt, State, device_ways, start_of};
    ghost use Rattle.hpb_run.specs.Batches.{IsBetween};
    ghost use Rattle.hpb_run.specs.Standing.{AreAlike, DeskStands, IsCovered, commits_after, is_due};

    /// A desk that commits `batch` commands together, from 1 to 64, and makes a checkpoint after each `every` commits.
    /// A number out of the range counts as the nearest in it.
    ///
    /// 90 `memory` if memory is refused: the engine is handed back.
    pub fn new(
        alloc: Global,
        engine: Engine<D>,
        batch: usize,
        every: u32,
    ) -> Result<Self, Engine<D>>
        ensures stands { (history : List Command) → Keeps engine (at_rest history)
            → IfOk result (λ desk. DeskStands desk (start_of engine history)) }
        ensures every { IfOk result (λ desk. desk.every ≡ every) }
        ensures batch { IfOk result (λ desk. 0 < batch → batch ≤ MOST_LETTERS → desk.batch ≡ batch) }
        ensures none { IfOk result (λ desk. desk.commits ≡ 0) }
        ensures back { IfErr result (λ back. back ≡ engine) }
    {
        match engine.progress.committed.definition().copy(alloc) {
            Ok(definition) => Ok(DeviceDesk {
                engine,
                definition,
                batch: batch.clamp(1, MOST_LETTERS),
                every,
                commits: 0,
            }),
            Err(_) => Err(engine),
        }
    }

    /// The engine, in its present state.
    pub fn into_engine(self) -> Engine<D>
        ensures { result ≡ self.engine }
    {
        let DeviceDesk { engine, .. } = self;
        engine
    }

    /// Makes a whole checkpoint if one is due: once there have been `every` commits since the last one that was due. If
    /// none is due, nothing changes, and it makes no call of the device. It takes no memory.
    pub fn make_due_checkpoint(&mut self)
        ensures kept { (state : State) → DeskStands self.old state → DeskStands self.new state }
        // If one is due, it is made, and counting begins anew.
        ensures due { is_due self.old.every self.old.commits ≡ true → self.new.commits ≡ 0 }
        ensures whole { (state : State) → DeskStands self.old state
            → IsBetween self.old.engine.progress → is_due self.old.every self.old.commits ≡ true
            → IsCovered self.old.engine self.new.engine }
        // If none is due, none is made.
        ensures none { is_due self.old.every self.old.commits ≡ false → (self.new.engine ≡ self.old.engine) × (self.new.commits ≡ self.old.commits) }
        ensures pace { (self.new.batch ≡ self.old.batch) × (self.new.every ≡ self.old.every) }
        ensures definition { self.new.definition ≡ self.old.definition }
    {
        if is_checkpoint_due(self.every, self.commits) {
            upkeep_engine(&mut self.engine);
            self.commits = 0;
        }
    }

    /// Commits commands together, behind a checkpoint that is due, and counts the commit if it accepts any.
    ///
    /// 90 `memory` if memory is refused: no command is taken.
    pub fn ask_together(
        &mut self,
        alloc: Global,
        commands: &Commands,
    ) -> Result<Replies, AllocError>
        requires some { 0 < length commands.now }
        requires most { length commands.now ≤ MOST_LETTERS }
        // A commit counts if it accepts a command. If a checkpoint was due, counting has begun anew.
        ensures counted { is_due self.old.every self.old.commits ≡ false
            → OnOk result (self.new.commits ≡ commits_after self.old.commits self.old.engine.progress.committed.count self.new.engine.progress.committed.count) }
        ensures anew { is_due self.old.every self.old.commits ≡ true → OnOk result (self.new.commits ≤ 1) }
        ensures pace { (self.new.batch ≡ self.old.batch) × (self.new.every ≡ self.old.every) }
        ensures asked { (state : State) → DeskStands self.old state
            → IfOk result (λ replies. (next : State) × AsksAll device_ways state commands.now replies next
            × DeskStands self.new next) }
        // If the device fails, or had failed, all commands get one refusal. 91 says that they are in flight. If the
        // device had worked, 93 says that none of them is kept.
        ensures alike { (state : State) → DeskStands self.old state
            → self.new.engine.failed ≡ true → IfOk result (AreAlike self.new.engine state commands.now) }
        ensures kept { (state : State) → DeskStands self.old state → OnErr result (DeskStands self.new state) }
        ensures definition { self.new.definition ≡ self.old.definition }
    {
        self.make_due_checkpoint();
        let before = self.engine.committed().count();
        let replies = ask_engine(alloc, &mut self.engine, commands)?;
        let after = self.engine.committed().count();
        self.commits = count_commit(self.commits, before, after);
        Ok(replies)
    }

    /// The auction after the acknowledged commands. `None` if it hasn't the places by which lines are read.
    fn shown(&self) -> Option<&Auction>
        ensures places { IfSome result (λ auction. HasPlaces self.now.definition auction.now.rules) }
        ensures shows { (state : State) → DeskStands self.now state → ShowsAt state (seen result) state }
    {
        let auction = self.engine.committed();
        if has_places_of(auction, &self.definition) {
            Some(auction)
        } else {
            None
        }
    }
}

/// Whether an auction has a place for each node and each bidder of a definition.
fn has_places_of(auction: &Auction, definition: &Definition) -> bool
    ensures has { result ≡ true → HasPlaces definition.now auction.now.rules }
    ensures same { definition.now ≡ auction.now.rules → result ≡ true }
{
    let own = auction.definition();
    own.node_count() == definition.node_count() && own.bidder_count() == definition.bidder_count()
}

impl<D: Disk + Drop> Desk for DeviceDesk<D> {
    ghost use Rattle.std.specs.Prelude.{false};
    ghost use Rattle.std.proofs.Common.{refl, sym};
    ghost use Rattle.hpb_run.specs.Device.{State as Standing, device_ways};
    ghost use Rattle.hpb_run.specs.Standing.{DeskStands};

    ghost State = { Standing };

    ghost rules = { λ desk. desk.definition };

    ghost over = { λ desk. false };

    ghost is_at = { DeskStands };

    ghost ways = { device_ways };

    ghost rules_are = { λ desk state is. sym is.1 };

    ghost over_is = { λ desk state is. refl };

    fn definition(&self) -> &Definition {
        &self.definition
    }

    fn is_over(&self) -> bool {
        false
    }

    fn most_asked(&self) -> usize
        ensures some { 0 < result }
        ensures most { result ≤ MOST_LETTERS }
        ensures own { result ≡ self.now.batch }
    {
        self.batch
    }

    fn waits_when_asked(&self) -> bool {
        true
    }

    fn ask(&mut self, alloc: Global, commands: &Commands) -> Result<Replies, AllocError> {
        self.ask_together(alloc, commands)
    }

    fn upkeep(&mut self, _alloc: Global) -> Result<(), AllocError> {
        self.make_due_checkpoint();
        Ok(())
    }

    fn look(&mut self) -> Option<&Auction> {
        self.shown()
    }
}
