//! The line that says at which port sessions are served.
ghost use Rattle.std.specs.Prelude.{IfErr};
ghost use Rattle.hpb_serve.specs.Announcing.{Announces, IsOfWriting, listening_line};

use crate::fault::ServeFault;
use hpb_disk::Disk;
use hpb_server::send_bytes;
use std::alloc::Global;
use std::io::Write;

/// Writes the line with the port, and flushes it.
pub(crate) fn announce<D: Disk + Drop, W: Write>(
    alloc: Global,
    port: u16,
    output: &mut W,
) -> Result<(), ServeFault<D>>
    ensures written { Announces (listening_line port) (W.contents output.old) (W.contents output.new) result }
    ensures fault { IfErr result IsOfWriting }
{
    let line = format!(in alloc; "LISTENING {port}\n")?;
    match send_bytes(output, line.as_bytes()) {
        Ok(()) => Ok(()),
        Err(_) => Err(ServeFault::Writer),
    }
}
