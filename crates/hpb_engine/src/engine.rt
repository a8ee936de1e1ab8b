//! The engine.
ghost use Rattle.std.specs.Prelude.{◌≡◌, ◌+◌, ◌≤◌, List, ℕ, length};
ghost use Rattle.hpb_engine.specs.Numbers.{IsSafe, layout_of};

use crate::Progress;
use hpb_auction::Auction;
use hpb_disk::Disk;

/// An auction on a device: the acknowledged commands, at most one batch in flight, and at most one checkpoint on its
/// way.
#[derive(Drop)]
pub struct Engine<D: Disk + Drop> {
    pub disk: D,
    pub progress: Progress,
    /// Whether a call of the device has failed. No step is made afterwards.
    pub failed: bool,
    pub ghost safe: { IsSafe progress },
    pub ghost sized: { length (D.device disk).seen ≡ (layout_of progress.window).size },
}

impl<D: Disk + Drop> Engine<D> {
    ghost use Rattle.hpb_rules.specs.declared.command.Command.{Command};
    ghost use Rattle.hpb_rules.specs.Machine.{at_rest};
    ghost use Rattle.hpb_recover.specs.Standing.{Stands};
    ghost use Rattle.hpb_engine.specs.Engines.{Keeps};

    /// The auction after the acknowledged commands. It can be read after a fault too.
    pub fn committed(&self) -> &Auction
        ensures { result.now ≡ self.now.progress.committed }
    {
        &self.progress.committed
    }

    /// Whether the device still holds its bytes from `at` on as its calls have left them: nobody else has written them
    /// (`Disk::still_holds`). They are read into `room`.
    pub fn still_holds(&self, at: usize, room: &mut [u8]) -> bool
        // The range must lie within the device.
        requires range { at + length room.old ≤ length (D.device self.now.disk).seen }
    {
        self.disk.still_holds(at, room)
    }

    /// Gives the device back, with the committed auction on it: opened again, it shows the same commands.
    pub fn finish(self) -> D
        ensures disk { result ≡ self.disk }
        // With nothing in flight, the bytes that a read gives stand for the acknowledged commands, so `open` shows
        // them.
        ensures stands { (history : List Command) → Keeps self (at_rest history) → Stands history (D.device result).seen }
    {
        let Engine { disk, .. } = self;
        disk
    }
}
