//! How many files and connections the process may have open at a time.
ghost use Rattle.std.specs.Prelude.{IfErr};
ghost use Rattle.hpb_program.specs.Serving.{IsOfDescriptors};

use crate::relay::RELAY_DESCRIPTORS;
use hpb_messages::JobFault;
use std::alloc::Global;
use std::fs::{File, Files};
use std::io;

/// The folder that is opened to see whether one more can be: each process may read it.
const TOP: &str = "/";

/// How many are open beside the connections of sessions: the port, the file once more, and the relay's pipes.
const BESIDE_SESSIONS: u32 = 2 + RELAY_DESCRIPTORS;

/// Whether the error says that this process can have no more files open.
fn is_too_many(error: &io::Error) -> bool {
    error.raw_os_error() == Some(libc::EMFILE)
}

/// How many files and connections this process may have open at a time, by its limit.
fn most_open() -> u64 {
    let mut limit = libc::types::rlimit {
        rlim_cur: 0,
        rlim_max: 0,
    };
    libc::getrlimit(libc::RLIMIT_NOFILE, &mut limit);
    limit.rlim_cur
}

/// Checks that the process may have as many more files and connections open as this many sessions take, by opening as
/// many for a moment. Refused with 92 `stream` if it may not, and with 90 `memory` if memory is refused.
pub(crate) fn look_for_descriptors<R: Files<File = File>>(
    rt: &R,
    alloc: Global,
    sessions: u8,
) -> Result<(), JobFault>
    ensures fault { IfErr result IsOfDescriptors }
{
    let wanted = BESIDE_SESSIONS + u32::from(sessions);
    let mut held = Vec::with_capacity(alloc, wanted as usize)?;
    for at in 0..wanted {
        let opened = File::open(rt, TOP);
        match opened {
            Ok(file) => {
                if held.push(file).is_err() {
                    return Err(JobFault::Memory);
                }
            }
            Err(error) if is_too_many(&error) => {
                let missing = u64::from(wanted - at);
                return Err(JobFault::Descriptors {
                    sessions,
                    wanted: most_open().saturating_add(missing),
                    error,
                });
            }
            Err(_) => return Ok(()),
        }
    }
    Ok(())
}
