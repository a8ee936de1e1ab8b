//! Showing the auction that a file keeps.
ghost use Rattle.std.specs.Prelude.{◌≡◌, IfOk};
ghost use Rattle.hpb_program.specs.Doubts.{TellsKept};
ghost use Rattle.hpb_program.specs.Jobs.{Checks, ShowsKept, check_text};
ghost use Rattle.hpb_messages.specs.Telling.{IsCutBy};

use crate::console::Console;
use crate::opening::open_kept;
use hpb_auction::Auction;
use hpb_disk::{Disk, FileDisk};
use hpb_messages::JobFault;
use hpb_rules::NodeId;
use hpb_wire::{RESPONSE_BYTES, ResponseText, node, show};
use std::alloc::{AllocError, Global};
use std::fs::{File, Files};
use std::io::{Read, Write};

/// Shows the auction that the file of a path keeps, as `check_device` does. It writes nothing into the file.
#[tactic(auto, using(crate::proofs::Cutting::of_opened_file))]
pub(crate) fn run_check<H: Files<File = File>, R: Read, W: Write, E: Write>(
    rt: &H,
    alloc: Global,
    file: &str,
    console: &mut Console<R, W, E>,
) -> Result<(), JobFault>
    ensures checks { Checks console.old console.new result }
    ensures unread { console.new.streams.remaining ≡ console.old.streams.remaining }
    ensures cut { IsCutBy console.new.is_cut result }
{
    let disk = FileDisk::open_to_read(rt, alloc, file)?;
    check_device(alloc, disk, console)
}

/// Writes the lines of the auction that a device keeps: the answer to `SHOW`, and for each node, in the order of the
/// definition, the answer to `NODE`. It syncs the device first, and writes nothing on it. If there are doubts about the
/// device, signs of damage that no honest device shows, standard error gets them first.
#[tactic(auto, using(crate::proofs::Doubting::shown_not, crate::proofs::Doubting::cut_not, crate::proofs::Doubting::told_not))]
pub fn check_device<D: Disk + Drop, R: Read, W: Write, E: Write>(
    alloc: Global,
    disk: D,
    console: &mut Console<R, W, E>,
) -> Result<(), JobFault>
    ensures shows { ShowsKept (D.device disk).seen console.old.streams.contents console.new.streams.contents result }
    ensures unread { console.new.streams.remaining ≡ console.old.streams.remaining }
    ensures cut { IsCutBy console.new.is_cut result }
    ensures told { TellsKept (D.device disk).seen console.old.errors console.new.errors result }
{
    let opened = open_kept(alloc, disk, &mut console.errors)?;
    let text = lines_of(alloc, opened.auction())?;
    match console.output.send(text.as_bytes()) {
        Ok(()) => Ok(()),
        Err(_) => Err(JobFault::Writer),
    }
}

fn lines_of(alloc: Global, auction: &Auction) -> Result<ResponseText, AllocError>
    ensures { IfOk result (λ text. text ≡ check_text auction.now) }
{
    let count = auction.definition().node_count();
    let mut text = ResponseText::new(alloc, (count + 1) * RESPONSE_BYTES)?;
    text.render(&show(auction))?;
    'nodes: for place in 0..count {
        text.render(&node(auction, NodeId::new(place)))?;
    }
    Ok(text)
}
