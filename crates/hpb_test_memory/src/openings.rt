//! The call that opens a device.

use crate::trials::{Came, Tried, begin, came_of, end, file_sum, formatted, is_sum, opened_sum};
use anyhow::Result;
use hpb_disk::FileDisk;
use hpb_recover::{OpenFault, Opened, open};

/// The result of a call that opens a device.
fn came(rt: &HostRuntime, made: Result<Opened<FileDisk>, OpenFault<FileDisk>>) -> Came {
    match made {
        Ok(opened) => came_of(opened_sum(rt, &opened)),
        Err(fault) => Came::Refused(fault.cause.refusal()),
    }
}

/// Tries `open`, on a new device of an auction of this many nodes.
pub(crate) fn open_device(rt: &HostRuntime, nodes: u64, layout: u8) -> Result<Tried> {
    let disk = formatted(rt, nodes, layout)?;
    Ok(open_marked(rt, disk))
}

/// Opens a device between the marks. If it isn't opened, it is handed back, and opened once more.
fn open_marked(rt: &HostRuntime, disk: FileDisk) -> Tried {
    let given = file_sum(rt);
    let _ = begin(rt);
    let made = open(rt.alloc(), disk);
    let _ = end(rt);
    match made {
        Ok(opened) => Tried::well(came_of(opened_sum(rt, &opened))),
        Err(fault) => {
            let OpenFault { disk, cause } = fault;
            Tried {
                first: Came::Refused(cause.refusal()),
                is_same: is_sum(file_sum(rt), given),
                again: came(rt, open(rt.alloc(), disk)),
            }
        }
    }
}
