//! Making a file that keeps an auction.
ghost use Rattle.std.specs.Prelude.{◌≡◌, ◌<◌, ◌≤◌, length, IfErr, IfOk, string_bytes};
ghost use Rattle.hpb_codec.specs.Layouts.{IsShape};
ghost use Rattle.hpb_disk.specs.FileDisks.{file_device};
ghost use Rattle.hpb_disk.specs.Images.{Within};
ghost use Rattle.hpb_format.specs.Outcomes.{IsNew};
ghost use Rattle.hpb_program.specs.Jobs.{Formats, GivesText, IsOfFile, ReadsPart, StopsPart, StopsReading, formatted_line};
ghost use Rattle.hpb_messages.specs.Telling.{IsCutBy};

use crate::console::Console;
use hpb_codec::JournalShape;
use hpb_define::read_definition;
use hpb_disk::{FileDisk, FileFault};
use hpb_format::{FormatCause, format_layout};
use hpb_journal::{AnyFrames, Frames};
use hpb_messages::{JobFault, pages_of};
use hpb_rules::MOST_DEFINITION_BYTES;
use hpb_server::read_some;
use hpb_tree::Definition;
use std::alloc::{AllocError, Global};
use std::fs::{File, Files};
use std::io;
use std::io::{Read, Write};

/// One byte more than a definition may have, which shows that a definition is too long.
const KEPT_BYTES: usize = MOST_DEFINITION_BYTES + 1;

/// How many bytes are read from an input at a time.
const PART_BYTES: usize = 4_096;

/// Makes the file of a path keep an auction, by the definition that is the whole of the input, and writes how many
/// pages the file has. If there is no such file, it makes one.
#[tactic(auto, using(crate::proofs::Cutting::of_reading, crate::proofs::Cutting::of_definition, crate::proofs::Cutting::of_file))]
pub(crate) fn run_format<H: Files<File = File>, R: Read, W: Write, E: Write>(
    rt: &H,
    alloc: Global,
    file: &str,
    journal: JournalShape,
    console: &mut Console<R, W, E>,
) -> Result<(), JobFault>
    ensures formats { Formats journal console.old.streams console.new.streams result }
    ensures untold { console.new.errors ≡ console.old.errors }
    ensures cut { IsCutBy console.new.is_cut result }
{
    let text = match read_text(alloc, &mut console.input) {
        Ok(text) => text,
        Err(fault) => return Err(fault),
    };
    let definition = match read_definition(alloc, text.as_slice()) {
        Ok(definition) => definition,
        Err(fault) => return Err(JobFault::from(fault)),
    };
    let is_journal = journal.is_allowed();
    if !is_journal {
        return Err(JobFault::Journal);
    }
    let line = match line_of_pages(alloc, pages_of(journal)) {
        Ok(line) => line,
        Err(_) => return Err(JobFault::Memory),
    };
    let disk = match format_file(rt, alloc, file, &definition, journal) {
        Ok(disk) => disk,
        Err(fault) => return Err(fault),
    };
    // Anyone who reads the line may open the file, so it is closed first.
    drop(disk);
    match console.output.send(line.as_bytes()) {
        Ok(()) => Ok(()),
        Err(_) => Err(JobFault::Writer),
    }
}

/// Reads the whole of an input, as far as it may be a definition. It reads one byte more than a definition may have, at
/// most, which shows that the input is too long.
#[tactic(auto, using(crate::proofs::Taking::taken_none, crate::proofs::Taking::taken_more, crate::proofs::Taking::taken_to_end, crate::proofs::Taking::taken_in_vain, crate::proofs::Taking::taken_too_much))]
fn read_text<R: Read>(alloc: Global, input: &mut R) -> Result<Vec<u8>, JobFault>
    ensures ok { IfOk result (λ text. GivesText (R.remaining input.old) (R.remaining input.new) text.items) }
    ensures err { IfErr result (StopsReading (R.remaining input.old) (R.remaining input.new)) }
{
    let mut text = Vec::new(alloc);
    'parts: while text.len() < KEPT_BYTES {
        match read_part(input, &mut text) {
            Ok(true) => {}
            Ok(false) => return Ok(text),
            Err(fault) => return Err(fault),
        }
    }
    Ok(text)
}

/// Reads some more of an input, and appends it to the text. `false` if the input has ended.
fn read_part<R: Read>(input: &mut R, text: &mut Vec<u8>) -> Result<bool, JobFault>
    requires { length text.old.items < KEPT_BYTES }
    ensures ok { IfOk result (ReadsPart (R.remaining input.old) (R.remaining input.new) text.old.items text.new.items) }
    ensures err { IfErr result (StopsPart (R.remaining input.old) (R.remaining input.new) text.old.items) }
{
    let mut part = [0; PART_BYTES];
    let most = PART_BYTES.min(KEPT_BYTES - text.len());
    match read_some(input, &mut part, most) {
        Err(_) => Err(JobFault::Reader),
        Ok(0) => Ok(false),
        Ok(count) => match text.extend_from_slice(&part[..count]) {
            Ok(()) => Ok(true),
            Err(_) => Err(JobFault::Memory),
        },
    }
}

fn line_of_pages(alloc: Global, pages: usize) -> Result<String, AllocError>
    ensures { IfOk result (λ line. string_bytes line ≡ formatted_line pages) }
{
    format!(in alloc; "FORMATTED {pages}\n")
}

/// Formats the file of a path. If there is no such file, it makes one.
#[tactic(auto, using(crate::proofs::Ends::of_file))]
fn format_file<H: Files<File = File>>(
    rt: &H,
    alloc: Global,
    file: &str,
    definition: &Definition,
    journal: JournalShape,
) -> Result<FileDisk, JobFault>
    requires { IsShape journal }
    ensures fault { IfErr result IsOfFile }
    ensures new { IfOk result (λ disk. Within (file_device disk).may_leave (IsNew definition.now journal)) }
{
    let len = AnyFrames::new(journal).device_len();
    let disk = match FileDisk::open_or_make(rt, alloc, file, len) {
        Ok(disk) => disk,
        Err(fault) => return Err(JobFault::from(fault)),
    };
    let layout = journal.layout.byte();
    match format_layout(alloc, disk, definition, journal.frames, layout) {
        Ok(disk) => Ok(disk),
        Err(fault) => Err(fault_of_format(fault.cause, fault.disk.code())),
    }
}

/// Why a file was not formatted. If a call of its disk failed with a code, the fault has the system's own words.
#[tactic(auto, using(crate::proofs::Ends::of_formatting))]
fn fault_of_format(cause: FormatCause, code: Option<i32>) -> JobFault
    ensures { IsOfFile result }
{
    match (cause, code) {
        (FormatCause::Device, Some(code)) => {
            JobFault::File(FileFault::System(io::Error::from_raw_os_error(code)))
        }
        (cause, _) => JobFault::of_formatting(cause),
    }
}
