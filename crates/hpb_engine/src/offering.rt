//! Offering letters to an engine.
ghost use Rattle.std.specs.Prelude.{◌≡◌, [], IfSome, None};
ghost use Rattle.hpb_rules.specs.Machine.{take_letters};
ghost use Rattle.hpb_engine.specs.Engines.{HasEffect};
ghost use Rattle.hpb_engine.specs.Offers.{AreJudged, CanTake, HandsBack, StaysUnlessInFlight, Weighs, begun_of, leaving_at, offer_by, taken, weight_by, weight_of};

use crate::begun::{Bar, Begun, Weight};
use crate::engine::Engine;
use crate::laws_below;
use hpb_auction::{accepts_any, judge_letters};
use hpb_codec::Batch;
use hpb_disk::Disk;
use hpb_rules::{Answers, Letters, judged_is_shown};

impl<D: Disk + Drop> Engine<D> {
    /// Says what would become of the letters if they were offered now. Changes nothing, and makes no call of the
    /// device.
    pub fn weigh(&self, letters: &Letters) -> Weight
        ensures { Weighs self.now.failed self.now.progress letters.now result }
    {
        if self.failed {
            return Weight::Failed;
        }
        if self.progress.commit.busy {
            return Weight::Busy;
        }
        if !accepts_any(&self.progress.committed, letters) {
            return Weight::Old;
        }
        if self.progress.window.next >= self.progress.window.clean_end {
            return Weight::Full;
        }
        Weight::New
    }

    /// Says what would bar the letters if they were offered now: the first reason that applies. Changes nothing, and
    /// makes no call of the device. If a clean frame is left, it judges none of them.
    pub fn bars(&self, letters: &Letters) -> Option<Bar>
        ensures barred { IfSome result (λ bar. Weighs self.now.failed self.now.progress letters.now (weight_by bar)) }
        ensures clear { result ≡ None → CanTake self.now.failed self.now.progress letters.now }
    {
        if self.failed {
            return Some(Bar::Failed);
        }
        if self.progress.commit.busy {
            return Some(Bar::Busy);
        }
        if self.progress.window.next < self.progress.window.clean_end {
            return None;
        }
        if accepts_any(&self.progress.committed, letters) {
            return Some(Bar::Full);
        }
        None
    }

    /// Takes letters that nothing bars, and judges each once. If none is new, the answers leave at once. Otherwise the
    /// new commands are in flight, and no answer leaves yet. It makes no call of the device, and takes no memory.
    pub fn take(&mut self, letters: &Letters) -> Option<Answers>
        requires clear { CanTake self.old.failed self.old.progress letters.now }
        // If the engine keeps a machine before, it keeps the machine after that has taken the letters, and the
        // machine's answers leave.
        ensures effect { HasEffect self.old self.new (λ machine. take_letters self.old.progress.committed.rules machine letters.now) (leaving_at (taken result)) }
        ensures weight { Weighs self.old.failed self.old.progress letters.now (weight_of (taken result)) }
        ensures judged { AreJudged (taken result) letters.now self.old.progress self.new.progress }
        ensures stays { StaysUnlessInFlight (taken result) self.old.progress self.new.progress }
        ensures disk { self.new.disk ≡ self.old.disk }
        ensures failed { self.new.failed ≡ self.old.failed }
    {
        judged_is_shown();
        laws_below();
        let first = u64::from(self.progress.committed.count()) + 1;
        let judged = judge_letters(&mut self.progress.commit.working, letters);
        if judged.commands.len() == 0 {
            return Some(judged.answers);
        }
        self.progress.commit.batch = Batch {
            index: self.progress.window.next,
            first,
            commands: judged.commands,
        };
        self.progress.commit.answers = judged.answers;
        self.progress.commit.turns = 0;
        self.progress.commit.busy = true;
        None
    }

    /// Offers letters. If none is new, it answers them at once. Otherwise it puts their new commands in flight. It
    /// makes no call of the device, and takes no memory.
    ///
    /// It hands the letters back in three cases, of which the first that applies counts:
    /// - a call of the device has failed (93 `failed`);
    /// - a batch is in flight;
    /// - some letters are new, and no clean frame is left.
    pub fn begin(&mut self, letters: Letters) -> Begun
        // If the engine keeps a machine before the offer, it keeps the machine after the same offer, and the machine's
        // answers leave.
        ensures effect { HasEffect self.old self.new (λ machine. offer_by result self.old.progress.committed.rules machine letters) (leaving_at result) }
        ensures weight { Weighs self.old.failed self.old.progress letters (weight_of result) }
        ensures back { HandsBack letters result }
        ensures judged { AreJudged result letters self.old.progress self.new.progress }
        ensures stays { StaysUnlessInFlight result self.old.progress self.new.progress }
        ensures committed { self.new.progress.committed ≡ self.old.progress.committed }
        ensures disk { self.new.disk ≡ self.old.disk }
        ensures failed { self.new.failed ≡ self.old.failed }
    {
        let mut leaving = Answers::new();
        match self.offer(&letters, &mut leaving) {
            Weight::Failed => Begun::Failed(letters),
            Weight::Busy => Begun::Busy(letters),
            Weight::Old => Begun::Answered(leaving),
            Weight::Full => Begun::Full(letters),
            Weight::New => Begun::InFlight,
        }
    }

    /// Offers letters as `begin` does, but borrows them. Answers that leave go into the list, which is empty before.
    pub(crate) fn offer(&mut self, letters: &Letters, leaving: &mut Answers) -> Weight
        requires none { leaving.old ≡ [] }
        // If the engine keeps a machine before the offer, it keeps the machine after the same offer, and the machine's
        // answers leave.
        ensures effect { HasEffect self.old self.new (λ machine. offer_by (begun_of result letters.now leaving.new) self.old.progress.committed.rules machine letters.now) leaving.new }
        ensures weight { Weighs self.old.failed self.old.progress letters.now result }
        ensures judged { AreJudged (begun_of result letters.now leaving.new) letters.now self.old.progress self.new.progress }
        ensures stays { StaysUnlessInFlight (begun_of result letters.now leaving.new) self.old.progress self.new.progress }
        ensures committed { self.new.progress.committed ≡ self.old.progress.committed }
        ensures disk { self.new.disk ≡ self.old.disk }
        ensures failed { self.new.failed ≡ self.old.failed }
    {
        match self.bars(letters) {
            Some(Bar::Failed) => Weight::Failed,
            Some(Bar::Busy) => Weight::Busy,
            Some(Bar::Full) => Weight::Full,
            None => match self.take(letters) {
                Some(answers) => {
                    *leaving = answers;
                    Weight::Old
                }
                None => Weight::New,
            },
        }
    }
}
