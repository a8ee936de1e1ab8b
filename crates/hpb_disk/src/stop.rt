//! The effect of a stop on writes.
ghost use Rattle.std.specs.Prelude.{◌≡◌, List, ◌∷◌, OnOk, IfOk};
ghost use Rattle.hpb_disk.specs.Fates.{struck, stopped};
ghost use Rattle.hpb_disk.specs.Records.{writes_of};

use crate::Fate;
use crate::done::Done;
use crate::memory::overwrite;
use std::alloc::{AllocError, Global};

// Changes the image by a write, according to its fate.
fn strike(
    alloc: Global,
    image: &mut Vec<u8>,
    at: usize,
    bytes: &[u8],
    fate: Fate,
) -> Result<(), AllocError>
    ensures { OnOk result (image.new.items ≡ struck fate at bytes.now image.old.items) }
{
    if at > image.len() || bytes.len() > image.len() - at {
        return Ok(());
    }
    match fate {
        Fate::Kept => overwrite(image, at, bytes),
        Fate::Lost => {}
        Fate::Filled(byte) => overwrite(image, at, &vec![in alloc; byte; bytes.len()]?),
    }
    Ok(())
}

/// Handles one call of a record: a write takes the first of the fates. Returns the fates that are left.
pub(crate) fn stop_one<'a>(
    alloc: Global,
    image: &mut Vec<u8>,
    done: &Done,
    fates: &'a [Fate],
) -> Result<&'a [Fate], AllocError>
    ensures { IfOk result (λ rest. (others : List Done) →
        stopped (writes_of (done.now ∷ others)) fates.now image.old.items ≡ stopped (writes_of others) rest.now image.new.items) }
{
    match done {
        Done::Write(at, bytes) => match fates {
            [] => Ok(fates),
            [fate, rest @ ..] => {
                strike(alloc, image, *at, bytes, *fate)?;
                Ok(rest)
            }
        },
        Done::Read => Ok(fates),
        Done::Sync => Ok(fates),
    }
}
