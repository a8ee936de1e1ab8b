//! Opening the auction that a file keeps, with a warning if its newest checkpoint may be damaged.
ghost use Rattle.std.specs.Prelude.{◌≡◌, List, None, IfErr, IfOk, OnErr, string_bytes};
ghost use Rattle.std.specs.Io.KnownBytes.{Keeps};
ghost use Rattle.hpb_rules.specs.declared.command.Command.{Command};
ghost use Rattle.hpb_rules.specs.AuctionValue.{Shows};
ghost use Rattle.hpb_disk.specs.Device.{IsSettled};
ghost use Rattle.hpb_recover.specs.Readings.{Found, Reads};
ghost use Rattle.hpb_recover.specs.Standing.{Stands};
ghost use Rattle.hpb_recover.specs.Doubts.{IsFrameTold, IsSlotTold};
ghost use Rattle.hpb_recover.specs.Plans.{IsPlan, IsPlanOf};
ghost use Rattle.hpb_program.specs.Doubts.{damaged_text, doubts_text, doubts_line, frame_text, later_text, slot_text, IsOfMachine, TellsDoubts};
ghost use Rattle.hpb_program.specs.Keeping.{IsNotOpened};

use hpb_disk::Disk;
use hpb_journal::Frame;
use hpb_messages::JobFault;
use hpb_recover::{Doubts, Later, Opened, Plan, find_doubts, open};
use hpb_server::say;
use std::alloc::{AllocError, Global};
use std::fmt;
use std::io::Write;

/// Opens a device, as `open` does, and looks for doubts: signs that its newest checkpoint is damaged, which no honest
/// device shows. If there are any, standard error gets a warning before anything else, with the counts that are
/// possible. If there is none, it gets nothing.
///
/// 90 and 91 as of `open`, also if memory or a read is refused while it looks for doubts. Nothing is written to
/// standard error then.
#[tactic(auto, using(crate::proofs::Kept::not_opened))]
pub(crate) fn open_kept<D: Disk + Drop, E: Write>(
    alloc: Global,
    disk: D,
    errors: &mut E,
) -> Result<Opened<D>, JobFault>
    ensures shows { (history : List Command) → Stands history (D.device disk).seen → IfOk result (λ opened. Shows opened.plan.auction history) }
    ensures read { IfOk result (λ opened. (found : Found) × Reads found (D.device disk).seen × IsPlanOf opened.plan found) }
    ensures plan { IfOk result (λ opened. IsPlan opened.plan (D.device disk).seen) }
    ensures same { IfOk result (λ opened. (D.device opened.disk).seen ≡ (D.device disk).seen) }
    ensures works { IfOk result (λ opened. (D.device opened.disk).failures ≡ (D.device disk).failures) }
    ensures fault { IfErr result (IsNotOpened (D.device disk).seen) }
    ensures told { IfOk result (λ opened. TellsDoubts opened.plan (D.device disk).seen (E.contents errors.old) (E.contents errors.new)) }
    ensures untold { OnErr result (Keeps (E.contents errors.old) (E.contents errors.new)) }
{
    let opened = match open(alloc, disk) {
        Ok(opened) => opened,
        Err(fault) => return Err(JobFault::of_opening(fault.cause)),
    };
    let looked = look(alloc, opened)?;
    let Looked { opened, doubts } = looked;
    let line = line_of_doubts(alloc, opened.plan.auction.count(), &doubts)?;
    say(line.as_bytes(), errors);
    Ok(opened)
}

/// An opened device, with the doubts about it.
#[derive(Drop)]
struct Looked<D: Disk + Drop> {
    opened: Opened<D>,
    doubts: Doubts,
}

/// Looks for doubts about an opened device.
#[tactic(auto, using(crate::proofs::Doubting::of_machine))]
fn look<D: Disk + Drop>(alloc: Global, opened: Opened<D>) -> Result<Looked<D>, JobFault>
    ensures plan { IfOk result (λ looked. looked.opened.plan ≡ opened.plan) }
    ensures same { IfOk result (λ looked. (D.device looked.opened.disk).seen ≡ (D.device opened.disk).seen) }
    ensures works { IfOk result (λ looked. (D.device looked.opened.disk).failures ≡ (D.device opened.disk).failures) }
    ensures slot { IfOk result (λ looked. IsSlotTold opened.plan (D.device opened.disk).seen looked.doubts.slot) }
    ensures frame { IfOk result (λ looked. IsFrameTold opened.plan (D.device opened.disk).seen looked.doubts.frame) }
    ensures fault { IfErr result IsOfMachine }
{
    let Opened { mut disk, plan, .. } = opened;
    match find_doubts(alloc, &mut disk, &plan) {
        Ok(doubts) => Ok(Looked {
            opened: opened_still(disk, plan),
            doubts,
        }),
        Err(cause) => Err(JobFault::of_opening(cause)),
    }
}

/// The opened device again, after reads alone.
fn opened_still<D: Disk + Drop>(disk: D, plan: Plan) -> Opened<D>
    requires durable { IsSettled (D.device disk) }
    requires read { IsPlan plan (D.device disk).seen }
    ensures disk { result.disk ≡ disk }
    ensures plan { result.plan ≡ plan }
{
    Opened { disk, plan }
}

/// The warning for doubts about an auction of `count` commands. It is empty if there are none.
pub(crate) fn line_of_doubts(
    alloc: Global,
    count: u32,
    doubts: &Doubts,
) -> Result<String, AllocError>
    ensures { IfOk result (λ line. string_bytes line ≡ doubts_text count doubts.now.slot doubts.now.frame) }
{
    match doubts.slot {
        None => line_of_later(alloc, count, &doubts.frame),
        Some(damaged) => {
            let later = said_of_later(alloc, &doubts.frame)?;
            let said = said_of_slot(alloc, damaged, later.as_str())?;
            line_of(alloc, count, said.as_str())
        }
    }
}

/// The same if no slot is damaged.
fn line_of_later(alloc: Global, count: u32, later: &Option<Later>) -> Result<String, AllocError>
    ensures { IfOk result (λ line. string_bytes line ≡ doubts_text count None later.now) }
{
    match later {
        None => Ok(String::new(alloc)),
        Some(later) => {
            let said = said_of_frame(alloc, &later.frame)?;
            line_of(alloc, count, said.as_str())
        }
    }
}

/// The line of the warning, with the texts of the doubts behind the count.
#[derive(Clone, Copy)]
struct DoubtsLine<'a> {
    count: u32,
    found: &'a str,
}

impl fmt::Display for DoubtsLine<'_> {
    ghost use Rattle.std.specs.Prelude.{Some};

    ghost output = { λ line. Some (doubts_line line.count line.found.now) };

    fn fmt<W: fmt::Write>(&self, f: &mut fmt::Formatter<W>) -> fmt::Result {
        let (count, found) = (self.count, self.found);
        write!(
            f,
            "hpb: a checkpoint is damaged, which no power cut does, and it may be the newest: COUNT is {count} in the auction that was opened{found}. Copy the file before anything else, and hold COUNT against the number of the last OK: if that is greater, go back to your newest backup, and send again, in their order, the commands since then\n"
        )
    }
}

fn line_of(alloc: Global, count: u32, found: &str) -> Result<String, AllocError>
    ensures { IfOk result (λ line. string_bytes line ≡ doubts_line count found.now) }
{
    DoubtsLine { count, found }.to_string(alloc)
}

/// The text for a damaged slot.
fn said_of_damaged(alloc: Global, damaged: u32) -> Result<String, AllocError>
    ensures { IfOk result (λ text. string_bytes text ≡ damaged_text damaged) }
{
    format!(in alloc; ", and {damaged} by the damaged one")
}

/// The text for a damaged slot, and then that for a later batch.
fn said_of_slot(alloc: Global, damaged: u32, later: &str) -> Result<String, AllocError>
    ensures { IfOk result (λ text. string_bytes text ≡ slot_text damaged later.now) }
{
    let mut text = said_of_damaged(alloc, damaged)?;
    text.push_str(later)?;
    Ok(text)
}

/// The text for the last of the batches that need a newer checkpoint, if there is one.
fn said_of_later(alloc: Global, later: &Option<Later>) -> Result<String, AllocError>
    ensures { IfOk result (λ text. string_bytes text ≡ later_text later.now) }
{
    match later {
        None => Ok(String::new(alloc)),
        Some(later) => said_of_frame(alloc, &later.frame),
    }
}

/// The text for such a batch: the number of its first command, if the batch is whole.
fn said_of_frame(alloc: Global, frame: &Frame) -> Result<String, AllocError>
    ensures { IfOk result (λ text. string_bytes text ≡ frame_text frame.now) }
{
    match frame {
        Frame::Batch(batch) => {
            let first = batch.first;
            format!(in alloc; ", and a later batch begins with command {first}")
        }
        Frame::Closed | Frame::Other | Frame::Damaged => {
            String::from_str(alloc, ", and a later batch is damaged")
        }
    }
}
