//! A session on a device.
ghost use Rattle.std.specs.Prelude.{◌≡◌, List, false, OnOk};
ghost use Rattle.hpb_rules.specs.declared.command.Command.{Command};
ghost use Rattle.hpb_rules.specs.declared.limits.TheConstants.{MOST_READ_BYTES};
ghost use Rattle.hpb_rules.specs.Machine.{at_rest};
ghost use Rattle.hpb_engine.specs.Engines.{Keeps};
ghost use Rattle.hpb_run.specs.Device.{State, start_of};
ghost use Rattle.hpb_run.specs.Running.{AreLent, RanDevice, RunsFrom, ServesLines, streams_of};
ghost use Rattle.hpb_run.specs.Standing.{DeskStands};
ghost use Rattle.hpb_server.specs.ScriptLaws.{WritesText};
ghost use Rattle.hpb_server.specs.Streams.{streams};
ghost use Rattle.hpb_server.specs.Telling.{ExplainsAt};

use crate::desk::DeviceDesk;
use crate::session::{Pace, Session};
use hpb_disk::Disk;
use hpb_engine::Engine;
use hpb_server::{SessionFault, serve, serve_at_terminal};
use std::alloc::Global;
use std::io::{Read, Write, sink};

/// The result of a session on a device.
#[derive(Drop)]
pub struct Ran<D: Disk + Drop> {
    /// The engine, in its present state.
    pub engine: Engine<D>,
    pub end: Result<(), SessionFault>,
}

/// Answers each line of the reader by one line on the writer, as `serve` does, from the auction that an engine keeps on
/// its device. The engine is handed back in any case.
///
/// Commands that were read wait until they are `batch`, until another line is to be answered, or until more is to be
/// read. They are then committed together. A command is answered `OK` once it is acknowledged, so that no crash loses
/// it. A checkpoint is made after each `every` commits: once their answers have left, or before the next commit.
///
/// Answers to commands:
/// - 91 `device`: a call of the device failed in the commit of this command's batch, of which no command is
///   acknowledged;
/// - 93 `failed`: a call had failed before.
///
/// Questions are still answered by the acknowledged commands then.
///
/// The session ends with 90 `memory` if memory is refused. It ends with 92 `stream` if the reader or the writer fails,
/// or if more than 1,000,000,000 bytes are read.
///
/// All answers are written and flushed before the next commit, before a checkpoint that is due, and before more is
/// read.
pub fn run_device<R: Read, W: Write, D: Disk + Drop>(
    alloc: Global,
    reader: &mut R,
    writer: &mut W,
    engine: Engine<D>,
    pace: Pace,
) -> Ran<D>
    // The engine has nothing in flight at first. Each line has the answer of a device that works, up to the first call
    // that fails. The engine is then at the state to which these answers lead.
    ensures ran { RunsFrom (streams (R.remaining reader.old) (W.contents writer.old)) (streams (R.remaining reader.new) (W.contents writer.new)) engine result.engine result.end }
    // So lines up to some line are answered by the rules, and none from there on, and the engine keeps the acknowledged
    // commands.
    ensures text { (history : List Command) → Keeps engine (at_rest history)
        → RanDevice (streams (R.remaining reader.old) (W.contents writer.old)) (streams (R.remaining reader.new) (W.contents writer.new))
        (start_of engine history) result.engine result.end }
    // If no call of the device failed, all was read, its text is written, and the engine shows the commands to which it
    // leads.
    ensures well { (history : List Command) → Keeps engine (at_rest history)
        → engine.failed ≡ false → (D.device result.engine.disk).failures ≡ (D.device engine.disk).failures
        → OnOk result.end (WritesText engine.progress.committed.rules history MOST_READ_BYTES
        (streams (R.remaining reader.old) (W.contents writer.old)) (streams (R.remaining reader.new) (W.contents writer.new)) result.engine.progress.committed) }
{
    let mut session = Session {
        reader,
        writer,
        errors: &mut sink(),
        is_terminal: false,
    };
    run_engine(alloc, engine, &mut session, pace)
}

/// Answers each line as `run_device` does. At a terminal, commands are committed one at a time, whatever the batch size.
/// Behind the answer of a refused one, a line on the errors says which number would do, as `serve_at_terminal` says.
pub fn run_engine<R: Read, W: Write, E: Write, D: Disk + Drop>(
    alloc: Global,
    engine: Engine<D>,
    session: &mut Session<'_, '_, '_, R, W, E>,
    pace: Pace,
) -> Ran<D>
    ensures ran { RunsFrom (streams_of R.remaining W.contents session.old) (streams_of R.remaining W.contents session.new) engine result.engine result.end }
    ensures explained { ExplainsAt session.old.is_terminal (E.contents session.old.errors.now) (E.contents session.new.errors.now) }
    ensures lent { AreLent session.old session.new }
{
    match DeviceDesk::new(alloc, engine, pace.batch, pace.every) {
        Ok(desk) => {
            let mut desk = desk;
            let end = serve_desk(alloc, &mut desk, session);
            Ran {
                engine: desk.into_engine(),
                end,
            }
        }
        Err(engine) => Ran {
            engine,
            end: Err(SessionFault::Memory),
        },
    }
}

/// Answers the lines by the desk of a device, at a terminal or elsewhere.
fn serve_desk<R: Read, W: Write, E: Write, D: Disk + Drop>(
    alloc: Global,
    desk: &mut DeviceDesk<D>,
    session: &mut Session<'_, '_, '_, R, W, E>,
) -> Result<(), SessionFault>
    ensures served { (state : State) → DeskStands desk.old state → (next : State)
        × ServesLines (streams_of R.remaining W.contents session.old) (streams_of R.remaining W.contents session.new) state next result
        × DeskStands desk.new next }
    ensures explained { ExplainsAt session.old.is_terminal (E.contents session.old.errors.now) (E.contents session.new.errors.now) }
    ensures lent { AreLent session.old session.new }
{
    if session.is_terminal {
        return serve_at_terminal(alloc, session.reader, session.writer, session.errors, desk);
    }
    serve(alloc, session.reader, session.writer, desk)
}
