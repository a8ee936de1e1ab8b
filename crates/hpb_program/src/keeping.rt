//! Running the auction that a file keeps.
ghost use Rattle.std.specs.Prelude.{◌≡◌, List, false, IfErr, IfOk, OnErr};
ghost use Rattle.hpb_rules.specs.declared.command.Command.{Command};
ghost use Rattle.hpb_rules.specs.Machine.{at_rest};
ghost use Rattle.hpb_recover.specs.Readings.{last_value, Found, Reads};
ghost use Rattle.hpb_recover.specs.Standing.{Stands};
ghost use Rattle.hpb_engine.specs.Engines.{Keeps, running_of};
ghost use Rattle.hpb_program.specs.Doubts.{TellsKept};
ghost use Rattle.hpb_program.specs.Keeping.{IsNotOpened, IsRun, RunsFile, TellsRunning};
ghost use Rattle.hpb_server.specs.Streams.{AreKept};

use crate::console::Console;
use crate::meddling::meddling_of;
use crate::opening::open_kept;
use hpb_disk::{Disk, FileDisk, FileFault};
use hpb_engine::Engine;
use hpb_messages::{JobFault, Meddling, RunEnd};
use hpb_run::{Pace, Ran, Session, run_engine};
use std::alloc::Global;
use std::fs::{File, Files};
use std::io::{Read, Write};

/// The end of a run of a file that had begun.
#[derive(Clone, Copy, Debug)]
pub struct FileRun {
    pub ended: RunEnd,
    /// What somebody else was seen to have done to the file when the run ended.
    pub meddling: Option<Meddling>,
}

/// Answers the lines of the input by the auction that the file of a path keeps, as `run_kept` does. At the end it looks
/// whether somebody else has meddled with the file.
pub(crate) fn run_file<H: Files<File = File>, R: Read, W: Write, E: Write>(
    rt: &H,
    alloc: Global,
    file: &str,
    pace: Pace,
    console: &mut Console<R, W, E>,
) -> Result<FileRun, JobFault>
    ensures runs { RunsFile console.old console.new result }
{
    let disk = FileDisk::open(rt, alloc, file)?;
    let stamp = match disk.stamp() {
        Ok(stamp) => stamp,
        Err(error) => return Err(JobFault::from(FileFault::from(error))),
    };
    let ran = run_kept(alloc, disk, pace, console)?;
    let Ran { engine, end } = ran;
    Ok(FileRun {
        ended: RunEnd {
            end,
            failed: engine.failed,
            code: engine.disk.code(),
        },
        meddling: meddling_of(rt, file, &stamp, &engine.disk),
    })
}

/// Answers the lines of the input by the auction that a device keeps, and keeps it there. Commands that have come are
/// committed together and then answered, and checkpoints are made, at this pace.
///
/// If the device isn't opened, it reads and writes nothing. If there are doubts about the device, signs of damage that
/// no honest device shows, standard error gets them first.
///
/// At a terminal commands are answered one at a time. Behind each one that is refused, standard error says which number
/// would do.
pub fn run_kept<D: Disk + Drop, R: Read, W: Write, E: Write>(
    alloc: Global,
    disk: D,
    pace: Pace,
    console: &mut Console<R, W, E>,
) -> Result<Ran<D>, JobFault>
    ensures run { IfOk result (λ ran. IsRun (D.device disk) console.old.streams console.new.streams (running_of ran.engine) ran.end) }
    ensures fault { IfErr result (IsNotOpened (D.device disk).seen) }
    ensures nothing { OnErr result (AreKept console.old.streams console.new.streams) }
    ensures told { TellsRunning console.old.is_terminal (D.device disk).seen console.old.errors console.new.errors result }
{
    let engine = start_engine(alloc, disk, &mut console.errors)?;
    let mut session = Session {
        reader: &mut console.input,
        writer: &mut console.output,
        errors: &mut console.errors,
        is_terminal: console.is_terminal,
    };
    Ok(run_engine(alloc, engine, &mut session, pace))
}

/// Starts an engine over the auction that a device keeps.
#[tactic(auto, using(crate::proofs::Doubting::told_not))]
fn start_engine<D: Disk + Drop, E: Write>(
    alloc: Global,
    disk: D,
    errors: &mut E,
) -> Result<Engine<D>, JobFault>
    ensures keeps { (history : List Command) → Stands history (D.device disk).seen → IfOk result (λ engine. Keeps engine (at_rest history)) }
    ensures read { IfOk result (λ engine. (found : Found) × Reads found (D.device disk).seen × (engine.progress.committed ≡ last_value found)) }
    ensures works { IfOk result (λ engine. engine.failed ≡ false) }
    ensures counted { IfOk result (λ engine. (D.device engine.disk).failures ≡ (D.device disk).failures) }
    ensures fault { IfErr result (IsNotOpened (D.device disk).seen) }
    ensures told { TellsKept (D.device disk).seen (E.contents errors.old) (E.contents errors.new) result }
{
    let opened = open_kept(alloc, disk, errors)?;
    match Engine::start(alloc, opened) {
        Ok(engine) => Ok(engine),
        Err(_) => Err(JobFault::Memory),
    }
}
