ghost use Rattle.std.specs.Prelude.{◌≡◌, ◌≢◌, ◌≤◌, true, IfErr, IfOk, map};
ghost use Rattle.std.specs.Io.KnownBytes.{Keeps};
ghost use Rattle.std.specs.IoError.{error_kind};
ghost use Rattle.hpb_program.specs.Program.{AnswersFault, RunsAsked, RunsJob, RunsProgram, SaysFault, TellsBeside, TellsEnd, TellsEnded, TellsFault, TellsRun, TellsScript, TellsServed, status_of_fault, status_of_script};
ghost use Rattle.hpb_messages.specs.Telling.{is_cut, IsCutBy, IsTaken, TellsUnled};
ghost use Rattle.hpb_rules.specs.declared.refusal.Refusal.TheVariants as refusals;
ghost use Rattle.hpb_words.specs.Words.{HasRanges, HasStatus};
ghost use Rattle.hpb_server.specs.Telling.{Says, TellsOf};

use crate::checking::run_check;
use crate::console::Console;
use crate::formatting::run_format;
use crate::keeping::{FileRun, run_file};
use crate::led::Led;
use crate::serving::{FileEnd, Seats, serve_file};
use crate::streams::{advise_led, advise_unled, say_unled, tell_memory_unled, tell_unled};
use hpb_messages::{
    EndAdvice, Failures, JobAdvice, JobFault, Known, Meddling, MeddlingAdvice, Noted, RunEnd,
    ScriptAdvice, StreamsAdvice, advise, hint, known_of, tell_job,
};
use hpb_rules::Refusal;
use hpb_run::Pace;
use hpb_server::{ScriptEnd, SessionFault, run_script};
use hpb_words::{ILL, Job, WELL, WRONG_WORDS, WordsFault, read_words};
use std::alloc::Global;
use std::convert::AsStr;
use std::fs::{File, Files};
use std::io;
use std::io::{ErrorKind, Read, Write};
use std::net::{Net, TcpListener, TcpStream};
use std::sync::Wait;
use std::thread::Threads;

/// The message for words that can't be read.
const NO_TEXT: &str = "hpb: an argument is not UTF-8\n";

/// Runs the whole program, and gives its status. The first word is the program's name.
///
/// The status is 0 if all went well. It is 1 if a definition or a file is refused, memory is refused or a stream fails,
/// and 2 if the words are wrong.
///
/// Result lines go to the console's output. The line of a refusal, and the last line of a file that was formatted or
/// served, are whole there unless the output was cut.
///
/// Messages go to its errors:
/// - about the words, and also help;
/// - why a definition or a file is refused, or a stream failed;
/// - if the input is a terminal: what to type, and which number would do in place of a refused command.
///
/// Only jobs on files use the runtime, and of these only serving may wait. `led` says which streams lead to files that
/// the words may name. If none does, no job is refused for its file. If the words ask for no job, it writes nothing to
/// such a stream.
pub fn program<
    H: Files<File = File> + Net<Listener = TcpListener, Stream = TcpStream> + Threads + Wait + Sync,
    S: AsStr,
    R: Read,
    W: Write,
    E: Write,
>(rt: &H, alloc: Global, words: &[S], led: Led, console: &mut Console<R, W, E>) -> u8
    ensures status { result ≤ WRONG_WORDS }
    ensures streams { RunsProgram led (map S.text words.now) console.old console.new result }
{
    let asked = read_words(alloc, words);
    run_asked(rt, alloc, asked, led, console)
}

/// The program's status if its words can't be read: 1 if memory was refused, and otherwise 2. `errors` gets the reason,
/// and `output` the line of 90 `memory` if memory was refused. A stream that leads to a file which the words may name
/// gets nothing.
pub fn refuse_words<W: Write, E: Write>(
    error: &io::Error,
    led: Led,
    output: &mut Noted<W>,
    errors: &mut E,
) -> u8
    ensures memory { error_kind error.now ≡ ErrorKind.OutOfMemory → (result ≡ ILL)
        × TellsUnled led.output (is_cut output.new) (W.contents output.old.stream) (W.contents output.new.stream) refusals.Memory
        × TellsOf (E.contents errors.old) (E.contents errors.new) refusals.Memory }
    ensures wrong { error_kind error.now ≢ ErrorKind.OutOfMemory → (result ≡ WRONG_WORDS)
        × Keeps (W.contents output.old.stream) (W.contents output.new.stream)
        × Says (E.contents errors.old) (E.contents errors.new) NO_TEXT.now }
{
    if error.kind() == ErrorKind::OutOfMemory {
        tell_unled(Refusal::Memory, led, output);
        tell_memory_unled(led, errors);
        return ILL;
    }
    say_unled(NO_TEXT, led, errors);
    WRONG_WORDS
}

/// The program's status if its standard streams can't be held: 1. `errors` gets the reason, if the stream is there and
/// doesn't lead to a file which the words may name.
pub fn refuse_streams<E: Write>(alloc: Global, error: &io::Error, led: Led, errors: &mut E) -> u8
    ensures status { result ≡ ILL }
    ensures told { TellsOf (E.contents errors.old) (E.contents errors.new) refusals.Stream }
{
    advise_unled(alloc, Refusal::Stream, StreamsAdvice(error), led, errors);
    ILL
}

/// Does the job that the words ask for, and gives the program's status.
fn run_asked<
    H: Files<File = File> + Net<Listener = TcpListener, Stream = TcpStream> + Threads + Wait + Sync,
    R: Read,
    W: Write,
    E: Write,
>(
    rt: &H,
    alloc: Global,
    asked: Result<Job<'_>, WordsFault>,
    led: Led,
    console: &mut Console<R, W, E>,
) -> u8
    requires fault { IfErr asked HasStatus }
    requires ranges { IfOk asked HasRanges }
    ensures status { result ≤ WRONG_WORDS }
    ensures streams { RunsAsked led asked.entry console.old console.new result }
{
    match asked {
        Ok(job) => {
            if let Some(file) = job.file() {
                let leading = led.to_job(rt, job, file);
                if leading.is_any() {
                    tell_unled(Refusal::Device, led, &mut console.output);
                    advise_led(alloc, file, leading, &mut console.errors);
                    return ILL;
                }
            }
            hint(job, console.is_terminal, &mut console.errors);
            run_job(rt, alloc, job, console)
        }
        Err(fault) => say_fault(fault, led, &mut console.output, &mut console.errors),
    }
}

/// Does a job, and gives the program's status.
fn run_job<
    H: Files<File = File> + Net<Listener = TcpListener, Stream = TcpStream> + Threads + Wait + Sync,
    R: Read,
    W: Write,
    E: Write,
>(rt: &H, alloc: Global, job: Job<'_>, console: &mut Console<R, W, E>) -> u8
    requires { HasRanges job }
    ensures status { result ≤ WRONG_WORDS }
    ensures streams { RunsJob job.entry console.old console.new result }
{
    match job {
        Job::Script => {
            let end = run_script(
                alloc,
                &mut console.input,
                &mut console.output,
                &mut console.errors,
                console.is_terminal,
            );
            tell_script(alloc, end, console.failures(), &mut console.errors)
        }
        Job::Format { file, journal } => {
            let end = run_format(rt, alloc, file, journal, console);
            let known = known_of(rt, alloc, job, &end, console.failures());
            tell_end(alloc, known, end, console)
        }
        Job::Check { file } => {
            let end = run_check(rt, alloc, file, console);
            let known = known_of(rt, alloc, job, &end, console.failures());
            tell_end(alloc, known, end, console)
        }
        Job::Run { file, batch, every } => {
            let pace = Pace {
                batch: batch as usize,
                every,
            };
            let end = run_file(rt, alloc, file, pace, console);
            let known = known_of(rt, alloc, job, &end, console.failures());
            tell_run(alloc, known, end, console)
        }
        Job::Serve {
            file,
            port,
            sessions,
        } => {
            let end = serve_file(rt, alloc, file, Seats { port, sessions }, console);
            let known = known_of(rt, alloc, job, &end, console.failures());
            tell_served(alloc, known, end, console)
        }
    }
}

/// Reports the fault that ended a script, and gives the program's status.
fn tell_script<E: Write>(
    alloc: Global,
    end: Result<ScriptEnd, SessionFault>,
    failures: Failures,
    errors: &mut E,
) -> u8
    ensures status { result ≤ WRONG_WORDS }
    ensures value { result ≡ status_of_script end }
    ensures told { TellsScript (E.contents errors.old) (E.contents errors.new) end }
{
    match end {
        Ok(ScriptEnd::Answered) => WELL,
        Ok(ScriptEnd::Refused(_)) => ILL,
        Err(fault) => {
            advise(
                alloc,
                fault.refusal(),
                ScriptAdvice { fault, failures },
                errors,
            );
            ILL
        }
    }
}

/// Reports how a job on a file ended, and gives the program's status.
fn tell_end<R: Read, W: Write, E: Write>(
    alloc: Global,
    known: Known<'_>,
    end: Result<(), JobFault>,
    console: &mut Console<R, W, E>,
) -> u8
    requires { IsCutBy console.old.is_cut end }
    ensures status { result ≤ WRONG_WORDS }
    ensures told { TellsEnd console.old console.new end result }
{
    match end {
        Ok(()) => WELL,
        Err(fault) => tell_fault(alloc, known, fault, console),
    }
}

/// Reports why a job on a file was not done, and gives the program's status.
fn tell_fault<R: Read, W: Write, E: Write>(
    alloc: Global,
    known: Known<'_>,
    fault: JobFault,
    console: &mut Console<R, W, E>,
) -> u8
    ensures status { result ≤ WRONG_WORDS }
    ensures told { TellsFault console.old console.new fault result }
    ensures cut { console.old.is_cut ≡ true → (console.new.is_cut ≡ true) × Keeps console.old.streams.contents console.new.streams.contents }
{
    tell_job(&fault, &mut console.output);
    let advice = JobAdvice {
        fault: &fault,
        known,
    };
    advise(alloc, fault.refusal(), advice, &mut console.errors);
    ILL
}

/// Reports how a run of a file ended, and gives the program's status.
fn tell_run<R: Read, W: Write, E: Write>(
    alloc: Global,
    known: Known<'_>,
    end: Result<FileRun, JobFault>,
    console: &mut Console<R, W, E>,
) -> u8
    ensures status { result ≤ WRONG_WORDS }
    ensures told { TellsRun console.old console.new end result }
{
    match end {
        Ok(FileRun { ended, meddling }) => {
            tell_begun(alloc, known, ended, meddling, &mut console.errors)
        }
        Err(fault) => tell_fault(alloc, known, fault, console),
    }
}

/// Reports how serving a file ended, and gives the program's status.
fn tell_served<R: Read, W: Write, E: Write>(
    alloc: Global,
    known: Known<'_>,
    end: Result<FileEnd, JobFault>,
    console: &mut Console<R, W, E>,
) -> u8
    requires { IfOk end (λ served. IsTaken console.old.is_cut served.said) }
    ensures status { result ≤ WRONG_WORDS }
    ensures told { TellsServed console.old console.new end result }
{
    match end {
        Ok(end) => {
            let ended = RunEnd {
                end: end.said,
                failed: end.has_failed,
                code: end.code,
            };
            tell_begun(alloc, known, ended, end.meddling, &mut console.errors)
        }
        Err(fault) => tell_fault(alloc, known, fault, console),
    }
}

/// Reports on `errors` how a run or serving that had begun ended, and then whether somebody else has meddled with the
/// file meanwhile. Gives the program's status.
fn tell_begun<E: Write>(
    alloc: Global,
    known: Known<'_>,
    ended: RunEnd,
    meddling: Option<Meddling>,
    errors: &mut E,
) -> u8
    ensures status { result ≤ WRONG_WORDS }
    ensures told { TellsBeside (E.contents errors.old) (E.contents errors.new) meddling ended.end ended.failed result }
{
    let status = tell_ended(alloc, ended, known, errors);
    let Some(meddling) = meddling else {
        return status;
    };
    advise(
        alloc,
        Refusal::Device,
        MeddlingAdvice { known, meddling },
        errors,
    );
    ILL
}

/// Reports on `errors` how a run or serving that had begun ended, if it ended ill. Gives the program's status.
fn tell_ended<E: Write>(alloc: Global, end: RunEnd, known: Known<'_>, errors: &mut E) -> u8
    ensures status { result ≤ WRONG_WORDS }
    ensures told { TellsEnded (E.contents errors.old) (E.contents errors.new) end.end end.failed result }
{
    let advice = EndAdvice { end, known };
    match (end.end, end.failed) {
        (Ok(()), false) => return WELL,
        (Ok(()), true) => advise(alloc, Refusal::Device, advice, errors),
        (Err(fault), _) => advise(alloc, fault.refusal(), advice, errors),
    }
    ILL
}

/// Writes the message about wrong words, or the help that they ask for, and gives the program's status. `output` gets
/// the line of 90 `memory` if memory was refused. A stream that leads to a file which the words may name gets nothing.
fn say_fault<W: Write, E: Write>(
    fault: WordsFault,
    led: Led,
    output: &mut Noted<W>,
    errors: &mut E,
) -> u8
    requires { HasStatus fault }
    ensures status { result ≤ WRONG_WORDS }
    ensures value { result ≡ status_of_fault fault }
    ensures answered { AnswersFault led.output (is_cut output.new) (W.contents output.old.stream) (W.contents output.new.stream) fault }
    ensures said { SaysFault (E.contents errors.old) (E.contents errors.new) fault }
{
    match fault {
        WordsFault::Memory => {
            tell_unled(Refusal::Memory, led, output);
            tell_memory_unled(led, errors);
            ILL
        }
        WordsFault::Refused { text, status } => {
            say_unled(text.as_str(), led, errors);
            status
        }
    }
}
