//! Devices that no program wrote.

use crate::bytes::{BODY, JOURNAL, OPEN, put};
use crate::dice::Dice;
use crate::good::OF_A_KIND;
use hpb_codec::PAGE_BYTES;
use std::alloc::{AllocError, Global};

/// The ways to make a device.
#[derive(Clone, Copy)]
pub(crate) enum Making {
    /// From some page on its bytes are random.
    Random,
    /// Some bytes are changed.
    Flipped,
    /// Its pages are of two devices.
    Spliced,
}

/// A device that is made from good ones.
pub(crate) fn hostile_device(
    alloc: Global,
    dice: &mut Dice,
    making: Making,
    devices: &[Vec<u8>],
) -> Result<Vec<u8>, AllocError> {
    let place = dice.below(devices.len().max(1));
    let mut bytes = good_bytes(alloc, devices, place)?;
    match making {
        Making::Random => fill_from_a_page(&mut bytes, dice)?,
        Making::Flipped => flip_some(&mut bytes, dice),
        Making::Spliced => {
            let other = good_bytes(alloc, devices, another(dice, place, devices.len()))?;
            splice(&mut bytes, &other, dice);
        }
    }
    Ok(bytes)
}

fn good_bytes(alloc: Global, devices: &[Vec<u8>], place: usize) -> Result<Vec<u8>, AllocError> {
    match devices.get(place) {
        Some(bytes) => bytes.to_vec(alloc),
        None => Ok(Vec::new(alloc)),
    }
}

/// Another place of the same kind, or any.
fn another(dice: &mut Dice, place: usize, count: usize) -> usize {
    if dice.once_in(4) {
        dice.below(count.max(1))
    } else {
        place - place % OF_A_KIND + dice.below(OF_A_KIND)
    }
}

/// Makes the bytes from some page on random. Each such page may have an open gate, and a frame its own index. A few
/// devices are cut, or made longer by less than a page.
fn fill_from_a_page(bytes: &mut Vec<u8>, dice: &mut Dice) -> Result<(), AllocError> {
    match dice.below(16) {
        0 => bytes.truncate(dice.below(bytes.len() + 1)),
        1 => bytes.resize(bytes.len() + dice.below(PAGE_BYTES), 0)?,
        _ => {}
    }
    let kept = dice.below(22);
    for (page, part) in bytes.chunks_mut(PAGE_BYTES).enumerate().skip(kept) {
        dice.fill(part);
        if dice.once_in(2) {
            put(part, 0, &[OPEN]);
        }
        if dice.once_in(2) {
            let index = page.wrapping_sub(JOURNAL) as u64;
            put(part, BODY, &index.to_be_bytes());
        }
    }
    Ok(())
}

/// Changes one to eight bytes, most of them near the beginning of a page.
fn flip_some(bytes: &mut [u8], dice: &mut Dice) {
    for _ in 0..1 + dice.below(8) {
        let page = dice.below(bytes.len() / PAGE_BYTES + 1);
        let at = if dice.once_in(4) {
            dice.below(PAGE_BYTES)
        } else {
            dice.below(64)
        };
        if let Some(part) = bytes.chunks_mut(PAGE_BYTES).nth(page) {
            if let Some(byte) = part.get_mut(at) {
                *byte ^= 1 + dice.below(255) as u8;
            }
        }
    }
}

/// Takes some pages from the other device, a few of them from another place.
fn splice(bytes: &mut [u8], other: &[u8], dice: &mut Dice) {
    let pages = other.len() / PAGE_BYTES + 1;
    for (page, part) in bytes.chunks_mut(PAGE_BYTES).enumerate() {
        let from = if dice.once_in(10) {
            dice.below(pages)
        } else {
            page
        };
        if dice.once_in(4) {
            if let Some(given) = other.chunks(PAGE_BYTES).nth(from) {
                put(part, 0, given);
            }
        }
    }
}
