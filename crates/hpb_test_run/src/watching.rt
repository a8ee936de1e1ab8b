//! The calls that a device in memory gets.

use hpb_disk::{Fate, MemoryDisk};
use hpb_test_engine::devices::bytes_of;
use std::alloc::Global;
use std::test::Fail;

/// The calls of a device between two looks at it.
#[derive(Clone, Copy, Debug, PartialEq, Eq)]
pub(crate) enum Call {
    Nothing,
    Sync,
    /// `len` bytes were written from this offset on, and `first` is the first.
    Write { at: usize, len: usize, first: u8 },
}

/// Looks at a device after each of its calls.
#[derive(Drop)]
pub(crate) struct Watch {
    /// How many calls it has had.
    calls: usize,
    /// A fate for each write that no sync covers: all of them are lost.
    lost: Vec<Fate>,
}

impl Watch {
    /// Begins with a device of which nothing is pending.
    pub(crate) fn new(alloc: Global, disk: &MemoryDisk) -> Watch {
        Watch {
            calls: disk.calls(),
            lost: Vec::new(alloc),
        }
    }

    /// The one call that the device has had since the last look, if it had one.
    pub(crate) fn look(&mut self, alloc: Global, disk: &MemoryDisk) -> Result<Call, Fail> {
        let calls = disk.calls();
        if calls == self.calls {
            return Ok(Call::Nothing);
        }
        if calls != self.calls.saturating_add(1) {
            return Err(Fail::new("more than one call"));
        }
        self.calls = calls;
        let call = newest_write(alloc, disk, &self.lost)?;
        match call {
            Call::Write { .. } => self.lost.push(Fate::Lost)?,
            _ => self.lost.clear(),
        }
        Ok(call)
    }
}

/// The bytes that a stop leaves if these writes are lost and the one behind them has this fate.
fn left_with(alloc: Global, disk: &MemoryDisk, lost: &[Fate], fate: Fate) -> Result<Vec<u8>, Fail> {
    let mut fates = lost.to_vec(alloc)?;
    fates.push(fate)?;
    Ok(bytes_of(alloc, disk.after_stop(alloc, &fates)?)?)
}

/// The write behind these, which no sync covers. If there is none, the call was a sync.
fn newest_write(alloc: Global, disk: &MemoryDisk, lost: &[Fate]) -> Result<Call, Fail> {
    let zeros = left_with(alloc, disk, lost, Fate::Filled(0))?;
    let ones = left_with(alloc, disk, lost, Fate::Filled(1))?;
    let kept = left_with(alloc, disk, lost, Fate::Kept)?;
    let (mut at, mut len) = (0, 0_usize);
    for (place, (zero, one)) in zeros.iter().zip(&ones).enumerate() {
        if zero != one {
            if len == 0 {
                at = place;
            }
            len = len.saturating_add(1);
        }
    }
    if len == 0 {
        return Ok(Call::Sync);
    }
    let first = kept.get(at).copied().unwrap_or(0);
    Ok(Call::Write { at, len, first })
}
