ghost use Rattle.std.specs.Prelude.{◌≡◌, [], List};
ghost use Rattle.hpb_rules.specs.declared.command.Command.{Command};
ghost use Rattle.hpb_rules.specs.AuctionValue.{Shows};
ghost use Rattle.hpb_rules.specs.Values.{first_value};
ghost use Rattle.hpb_server.specs.Script.{Refuses, RunsScript, ServesScript, WritesRefusal};
ghost use Rattle.hpb_server.specs.ScriptLaws.{ServesText};
ghost use Rattle.hpb_server.specs.Streams.{streams};
ghost use Rattle.hpb_server.specs.Telling.{ExplainsAt, SaysOfScript};

use crate::desk::ScriptDesk;
use crate::fault::SessionFault;
use crate::input::Input;
use crate::output::Output;
use crate::serving::{answer_lines, serve};
use crate::telling::{greet, tell_reason};
use hpb_auction::Auction;
use hpb_define::{DefineCause, read_definition};
use hpb_rules::{MOST_READ_BYTES, Refusal};
use hpb_tree::Definition;
use std::alloc::Global;
use std::io::{Read, Write};

/// The end of a script without a fault.
#[derive(Clone, Copy, Debug, PartialEq, Eq)]
pub enum ScriptEnd {
    /// Each line got its answer.
    Answered,
    /// The definition was refused, and the `ERR` line of this refusal is all that was written.
    Refused(Refusal),
}

/// Runs an auction in memory by a script. Its first line is the definition in JSON. Each line after it gets its answer
/// as in `serve`, with the same faults. All lines together are within the bytes that may be read.
///
/// Standard errors get the reason why a definition is refused. A terminal also gets a line that the definition is
/// accepted and, behind the answer to a refused command, the number that would do.
pub fn run_script<R: Read, W: Write, E: Write>(
    alloc: Global,
    reader: &mut R,
    writer: &mut W,
    errors: &mut E,
    is_terminal: bool,
) -> Result<ScriptEnd, SessionFault>
    ensures said { SaysOfScript is_terminal (E.contents errors.old) (E.contents errors.new) result }
    ensures runs { RunsScript (streams (R.remaining reader.old) (W.contents writer.old)) (streams (R.remaining reader.new) (W.contents writer.new)) result }
{
    let mut input = Input::new(alloc, MOST_READ_BYTES)?;
    let mut output = Output::new(alloc)?;
    let text = input.take_definition(alloc, reader)?;
    match read_definition(alloc, text.bytes.as_slice()) {
        Ok(definition) => {
            greet(is_terminal, errors);
            if !text.has_end {
                return Ok(ScriptEnd::Answered);
            }
            answer_script(
                alloc,
                reader,
                writer,
                errors,
                is_terminal,
                &definition,
                &mut input,
                &mut output,
            )?;
            Ok(ScriptEnd::Answered)
        }
        Err(fault) => {
            let end = refuse_script(writer, fault.cause, &mut output);
            tell_reason(alloc, &fault, text.has_end, errors);
            end
        }
    }
}

/// Serves an auction in memory, as `serve` does. The text that is written is the one by each history that the auction
/// shows. The auction then shows the history that the lines lead to.
pub fn serve_auction<R: Read, W: Write>(
    alloc: Global,
    reader: &mut R,
    writer: &mut W,
    desk: &mut ScriptDesk,
) -> Result<(), SessionFault>
    ensures text { (history : List Command) → Shows desk.old history → ServesText desk.old.rules history MOST_READ_BYTES
        (streams (R.remaining reader.old) (W.contents writer.old)) (streams (R.remaining reader.new) (W.contents writer.new)) desk.new result }
    ensures rules { desk.new.rules ≡ desk.old.rules }
{
    serve(alloc, reader, writer, desk)
}

/// Answers the lines that come after a definition.
fn answer_script<R: Read, W: Write, E: Write>(
    alloc: Global,
    reader: &mut R,
    writer: &mut W,
    errors: &mut E,
    is_terminal: bool,
    definition: &Definition,
    input: &mut Input,
    output: &mut Output,
) -> Result<(), SessionFault>
    requires { output.old ≡ [] }
    ensures served { ServesScript (streams (R.remaining reader.old) (W.contents writer.old)) (streams (R.remaining reader.new) (W.contents writer.new))
        input.old (first_value definition.now) result }
    ensures explained { ExplainsAt is_terminal (E.contents errors.old) (E.contents errors.new) }
{
    let mut desk = ScriptDesk::new(Auction::new(alloc, definition)?);
    answer_lines(
        alloc,
        reader,
        writer,
        errors,
        is_terminal,
        &mut desk,
        input,
        output,
    )
}

/// Writes the line of a refused definition, or nothing if memory was refused.
fn refuse_script<W: Write>(
    writer: &mut W,
    cause: DefineCause,
    output: &mut Output,
) -> Result<ScriptEnd, SessionFault>
    requires { output.old ≡ [] }
    ensures { Refuses (W.contents writer.old) (W.contents writer.new) cause result }
{
    match cause {
        DefineCause::Memory => Err(SessionFault::Memory),
        cause => write_refusal(writer, cause.refusal(), output),
    }
}

fn write_refusal<W: Write>(
    writer: &mut W,
    refusal: Refusal,
    output: &mut Output,
) -> Result<ScriptEnd, SessionFault>
    requires { output.old ≡ [] }
    ensures { WritesRefusal (W.contents writer.old) (W.contents writer.new) refusal result }
{
    output.refuse(refusal)?;
    output.send(writer)?;
    Ok(ScriptEnd::Refused(refusal))
}
