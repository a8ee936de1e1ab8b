//! An opened device.
ghost use Rattle.std.specs.Prelude.{◌≡◌, ◌+◌};
ghost use Rattle.hpb_disk.specs.Device.{IsSettled};
ghost use Rattle.hpb_recover.specs.Plans.{IsPlan};

use crate::Plan;
use hpb_auction::Auction;
use hpb_disk::Disk;

/// A device with the plan that was read from it. No write of it is pending.
#[derive(Drop)]
pub struct Opened<D: Disk + Drop> {
    pub disk: D,
    pub plan: Plan,
    pub ghost durable: { IsSettled (D.device disk) },
    pub ghost read: { IsPlan plan (D.device disk).seen },
}

impl<D: Disk + Drop> Opened<D> {
    /// The auction that the device holds.
    pub fn auction(&self) -> &Auction
        ensures { result.now ≡ self.now.plan.auction }
    {
        &self.plan.auction
    }

    /// The number of clean frames: how many batches can be committed before frames must be retired.
    pub fn clean(&self) -> u64
        ensures { self.now.plan.next + result ≡ self.now.plan.clean_end }
    {
        self.plan.clean_end - self.plan.next
    }
}
