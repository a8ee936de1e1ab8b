//! Hostile devices, opened.

use crate::bytes::all_of;
use crate::dice::Dice;
use crate::good::good_devices;
use crate::hostile::{Making, hostile_device};
use crate::opening::opened;
use crate::tally::Tally;
use anyhow::{Result, bail};
use hpb_disk::MemoryDisk;
use hpb_recover::{Cause, Flaw};
use std::alloc::Global;

/// Opens a device, which must be handed back with the same bytes. Gives its flaw, if it has one.
fn flaw_of(alloc: Global, bytes: &[u8]) -> Result<Option<Flaw>> {
    let disk = MemoryDisk::of(alloc, bytes.to_vec(alloc)?)?;
    let (mut disk, found) = opened(alloc, disk);
    if all_of(alloc, &mut disk)?.as_slice() != bytes {
        bail!("a device was changed");
    }
    match found {
        Ok(_) => Ok(None),
        Err(Cause::Flawed(flaw)) => Ok(Some(flaw)),
        Err(Cause::Memory | Cause::Device) => bail!("memory or the device failed"),
    }
}

/// The results, by how the devices were made.
#[derive(Drop)]
pub(crate) struct Trial {
    pub(crate) random: Tally,
    pub(crate) flipped: Tally,
    pub(crate) spliced: Tally,
}

impl Trial {
    fn new() -> Trial {
        Trial {
            random: Tally::new(),
            flipped: Tally::new(),
            spliced: Tally::new(),
        }
    }

    fn count(&mut self, making: Making, flaw: Option<Flaw>) {
        match making {
            Making::Random => self.random.count(flaw),
            Making::Flipped => self.flipped.count(flaw),
            Making::Spliced => self.spliced.count(flaw),
        }
    }

    /// Whether devices of each making had each result.
    pub(crate) fn has_all(&self) -> bool {
        self.random.has_all() && self.flipped.has_all() && self.spliced.has_all()
    }
}

/// Whether all these devices are opened.
fn are_opened(alloc: Global, devices: &[Vec<u8>]) -> Result<bool> {
    for device in devices {
        if flaw_of(alloc, device)?.is_some() {
            return Ok(false);
        }
    }
    Ok(true)
}

/// Opens this many devices, a third of each making.
pub(crate) fn try_devices(alloc: Global, count: u64, seed: u64) -> Result<Trial> {
    let mut dice = Dice::new(seed);
    let devices = good_devices(alloc, &mut dice)?;
    if !are_opened(alloc, &devices)? {
        bail!("a good device was refused");
    }
    let mut trial = Trial::new();
    for i in 0..count {
        let making = match i % 3 {
            0 => Making::Random,
            1 => Making::Flipped,
            _ => Making::Spliced,
        };
        let bytes = hostile_device(alloc, &mut dice, making, &devices)?;
        trial.count(making, flaw_of(alloc, &bytes)?);
    }
    Ok(trial)
}
