//! A device: the bytes that a read gives, and the images that a crash may leave.
ghost use Rattle.std.specs.Prelude.{◌≡◌, ◌+◌, ◌≤◌, [], ◌∷◌, length, OnOk};
ghost use Rattle.hpb_disk.specs.Images.{part, put, Only, TornFrom};
ghost use Rattle.hpb_disk.specs.Asked.Asked.{writes, syncs};
ghost use Rattle.hpb_disk.specs.Device.{Device, IsUnchanged, LeavesOnly, MakesCall};

use thiserror::Error;

/// A call of a device failed.
#[derive(Clone, Copy, Debug, PartialEq, Eq, Error)]
#[error("device")]
pub struct DiskFailed;

/// A device of a fixed length. A crash may come at any moment, within a call too, and leaves an image: all its bytes.
/// Every clause below is about whole images. That a real device keeps them is the one premise of everything built on
/// it.
pub trait Disk {
    /// The device as one value: the bytes that a read gives, the images that a crash may leave, and its calls.
    ghost device: { Self → Device };

    fn len(&self) -> usize
        // A device is as long as the bytes that a read of all of it gives.
        ensures { result ≡ length (device self.now).seen };

    fn read_into(&mut self, at: usize, out: &mut [u8]) -> Result<(), DiskFailed>
        // A caller stays within the device.
        requires range { at + length out.old ≤ length (device self.old).seen }
        // A read that succeeds gives the bytes there.
        ensures bytes { OnOk result (out.new ≡ part at (length out.old) (device self.old).seen) }
        // It changes no byte, whether it succeeds or not. A crash within it or after it may leave the same images as a
        // crash before it, no more and no less.
        ensures unchanged { IsUnchanged (device self.old) (device self.new) }
        // The device was asked for no write and no sync. A failure is reported, and nothing else is reported as one.
        ensures call { MakesCall result [] (device self.old) (device self.new) };

    fn write_at(&mut self, at: usize, bytes: &[u8]) -> Result<(), DiskFailed>
        // A caller stays within the device.
        requires range { at + length bytes.now ≤ length (device self.old).seen }
        // After a write that succeeds a read gives the written bytes there, and elsewhere the same as before.
        ensures written { OnOk result ((device self.new).seen ≡ put at bytes.now (device self.old).seen) }
        // No write makes a device longer or shorter.
        ensures size { length (device self.new).seen ≡ length (device self.old).seen }
        // Within the write and until a sync, a crash may leave any bytes in the range of the write, whether it
        // succeeded or not. Elsewhere it may leave the same as before.
        ensures crash { LeavesOnly (device self.old) (device self.new)
            (TornFrom at (length bytes.now) (device self.old).may_leave) }
        // The device was asked for this write, whether it succeeds or not. A failure is reported, and nothing else is
        // reported as one.
        ensures call { MakesCall result (writes at bytes.now ∷ []) (device self.old) (device self.new) };

    fn sync(&mut self) -> Result<(), DiskFailed>
        // After a sync that succeeds a crash leaves the bytes that a read gives, all of them, whoever wrote them.
        ensures durable { OnOk result (Only (device self.old).seen (device self.new).may_leave) }
        // It changes no byte that a read gives, whether it succeeds or not.
        ensures seen { (device self.new).seen ≡ (device self.old).seen }
        // Within the sync and after one that fails a crash may leave the same as before, and nothing new.
        ensures crash { LeavesOnly (device self.old) (device self.new) (device self.old).may_leave }
        // The device was asked for a sync, whether it succeeds or not. A failure is reported, and nothing else is
        // reported as one.
        ensures call { MakesCall result (syncs ∷ []) (device self.old) (device self.new) };

    /// Whether the bytes that the calls so far left in a range are still there, so nobody else has written them. They
    /// are read into `room`. It counts as no call, and reports no failure: the answer is `true` if it can't be known,
    /// as after a call that failed.
    fn still_holds(&self, at: usize, room: &mut [u8]) -> bool
        // A caller stays within the device.
        requires range { at + length room.old ≤ length (device self.now).seen };
}
