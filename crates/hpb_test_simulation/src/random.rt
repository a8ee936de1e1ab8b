//! Numbers and fates that look random, the same for a seed each time.
ghost use Rattle.std.specs.Prelude.{◌<◌};

use hpb_disk::Fate;
use std::alloc::{AllocError, Global};

/// More than the number of writes that no sync covers.
const WRITES: usize = 32;

/// How a device stops.
#[derive(Clone, Copy, Debug, PartialEq, Eq)]
pub(crate) enum Stop {
    /// The process ends: all bytes that were written are there.
    Kept,
    /// The power fails: only writes that a sync covers are there.
    Lost,
    /// The power fails, and each write has a fate of its own.
    Torn,
}

/// The generator SplitMix64.
#[derive(Drop)]
pub(crate) struct Random {
    state: u64,
}

impl Random {
    pub(crate) fn new(seed: u64) -> Random {
        Random { state: seed }
    }

    /// The next number of 64 bits.
    fn roll(&mut self) -> u64 {
        self.state = self.state.wrapping_add(0x9e37_79b9_7f4a_7c15);
        let mut mixed = self.state;
        mixed = (mixed ^ (mixed >> 30)).wrapping_mul(0xbf58_476d_1ce4_e5b9);
        mixed = (mixed ^ (mixed >> 27)).wrapping_mul(0x94d0_49bb_1331_11eb);
        mixed ^ (mixed >> 31)
    }

    /// A number below a bound.
    pub(crate) fn below(&mut self, bound: u32) -> u32
        requires { 0 < bound }
        ensures { result < bound }
    {
        (self.roll() % u64::from(bound)) as u32
    }

    /// Yes once in this many chances.
    pub(crate) fn is_one_in(&mut self, chances: u32) -> bool
        requires { 0 < chances }
    {
        self.below(chances) == 0
    }

    /// The number of the device's call that fails, or 0 if none does.
    pub(crate) fn fault(&mut self) -> u64 {
        match self.below(4) {
            0 | 1 => 0,
            2 => u64::from(self.below(60)),
            _ => u64::from(self.below(200)),
        }
    }

    pub(crate) fn stop(&mut self) -> Stop {
        match self.below(4) {
            0 => Stop::Kept,
            1 => Stop::Lost,
            _ => Stop::Torn,
        }
    }

    /// The fate of a write. Bytes of an open gate are not seldom.
    fn fate(&mut self, stop: Stop) -> Fate {
        match stop {
            Stop::Kept => Fate::Kept,
            Stop::Lost => Fate::Lost,
            Stop::Torn => match self.below(6) {
                0 | 1 => Fate::Kept,
                2 | 3 => Fate::Lost,
                4 => Fate::Filled(0xa5),
                _ => Fate::Filled(self.below(256) as u8),
            },
        }
    }

    /// A fate for each write that no sync covers.
    pub(crate) fn fates(&mut self, alloc: Global, stop: Stop) -> Result<Vec<Fate>, AllocError> {
        let mut fates = Vec::new(alloc);
        for _ in 0..WRITES {
            fates.push(self.fate(stop))?;
        }
        Ok(fates)
    }
}
