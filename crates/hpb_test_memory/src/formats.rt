//! Calls that format a device.

use crate::trials::{
    Came, Tried, begin, came_of, definition, end, file_sum, is_sum, new_file, shape_of,
};
use anyhow::Result;
use hpb_disk::FileDisk;
use hpb_format::{FormatFault, format, format_layout};
use hpb_tree::Definition;

/// The number of the layout that `format` uses.
const FIRST: u8 = 1;

/// Formats a device, by `format` or by `format_layout`.
fn make(
    rt: &HostRuntime,
    disk: FileDisk,
    definition: &Definition,
    named: Option<u8>,
) -> Result<FileDisk, FormatFault<FileDisk>> {
    let alloc = rt.alloc();
    match named {
        Some(layout) => {
            let shape = shape_of(layout);
            format_layout(alloc, disk, definition, shape.frames, layout)
        }
        None => format(alloc, disk, definition, shape_of(FIRST).frames),
    }
}

/// Formats a device once more that was handed back unformatted.
fn format_again(
    rt: &HostRuntime,
    fault: FormatFault<FileDisk>,
    definition: &Definition,
    named: Option<u8>,
    given: Option<u64>,
) -> Tried {
    let FormatFault { disk, cause } = fault;
    let is_same = is_sum(file_sum(rt), given);
    let again = match make(rt, disk, definition, named) {
        Ok(_) => came_of(file_sum(rt)),
        Err(fault) => Came::Refused(fault.cause.refusal()),
    };
    Tried {
        first: Came::Refused(cause.refusal()),
        is_same,
        again,
    }
}

/// Tries `format`, or `format_layout` if a layout is named, with a definition of this many nodes.
pub(crate) fn tried(rt: &HostRuntime, nodes: u64, named: Option<u8>) -> Result<Tried> {
    let definition = definition(rt.alloc(), nodes)?;
    let disk = new_file(rt, named.unwrap_or(FIRST))?;
    let given = file_sum(rt);
    let _ = begin(rt);
    let made = make(rt, disk, &definition, named);
    let _ = end(rt);
    match made {
        Ok(_) => Ok(Tried::well(came_of(file_sum(rt)))),
        Err(fault) => Ok(format_again(rt, fault, &definition, named, given)),
    }
}
