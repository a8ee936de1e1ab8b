//! The report of a fault, on standard output and on standard error.
ghost use Rattle.std.specs.Prelude.{◌≡◌, true, codes};
ghost use Rattle.std.specs.Io.KnownBytes.{Keeps};
ghost use Rattle.hpb_messages.specs.Telling.{is_cut, AnswersJob, TellsLine};
ghost use Rattle.hpb_rules.specs.declared.refusal.Refusal.TheVariants as refusals;
ghost use Rattle.hpb_server.specs.Telling.{Says, TellsOf, told_line};
ghost use Rattle.hpb_words.specs.Hints.{hint_text};

use crate::job_fault::JobFault;
use crate::noted::Noted;
use crate::refusal_lines::refusal_line;
use hpb_rules::Refusal;
use hpb_server::{say, tell_people};
use hpb_words::{Job, hint_for};
use std::alloc::Global;
use std::fmt;
use std::io::Write;

/// Writes the line of a refusal, unless the output was cut: a front of another line may stand there. It takes no
/// memory.
#[tactic(auto, using(crate::proofs::Lines::told_nothing))]
pub fn tell<W: Write>(refusal: Refusal, output: &mut Noted<W>)
    ensures line { TellsLine (is_cut output.new) (W.contents output.old.stream) (W.contents output.new.stream) refusal }
    ensures cut { is_cut output.old ≡ true → (is_cut output.new ≡ true) × Keeps (W.contents output.old.stream) (W.contents output.new.stream) }
{
    if output.is_cut() {
        return;
    }
    send_line(refusal, output);
}

/// Writes the line of a refusal.
#[tactic(auto, using(crate::proofs::Lines::told_sent))]
fn send_line<W: Write>(refusal: Refusal, output: &mut Noted<W>)
    ensures { TellsLine (is_cut output.new) (W.contents output.old.stream) (W.contents output.new.stream) refusal }
{
    let _ = output.send(refusal_line(refusal).as_bytes());
}

/// Writes the line of a job that was not done, unless the output failed: a front of another line may stand there.
pub fn tell_job<W: Write>(fault: &JobFault, output: &mut Noted<W>)
    ensures line { AnswersJob (is_cut output.new) (W.contents output.old.stream) (W.contents output.new.stream) fault.now }
    ensures cut { is_cut output.old ≡ true → (is_cut output.new ≡ true) × Keeps (W.contents output.old.stream) (W.contents output.new.stream) }
{
    match fault {
        JobFault::Writer => {}
        other => tell(other.refusal(), output),
    }
}

/// The message of 90, for which no memory is taken.
const MEMORY_TOLD: &str = "hpb: 90 memory: memory was refused\n";

/// Writes a refusal and what to do to standard error, as far as memory and that stream allow. If memory is refused for
/// the message, it still writes the message of 90, if the refusal is 90.
pub fn advise<A: fmt::Display + Copy, E: Write>(
    alloc: Global,
    refusal: Refusal,
    advice: A,
    errors: &mut E,
)
    ensures { TellsOf (E.contents errors.old) (E.contents errors.new) refusal }
{
    match format!(in alloc; "{advice}") {
        Ok(reason) => tell_people(alloc, refusal, reason.as_str(), errors),
        Err(_) => tell_of_memory(refusal, errors),
    }
}

/// Writes the message of 90 `memory` if that is the refusal, and nothing otherwise.
fn tell_of_memory<E: Write>(refusal: Refusal, errors: &mut E)
    ensures { TellsOf (E.contents errors.old) (E.contents errors.new) refusal }
{
    match refusal {
        Refusal::Memory => tell_memory(errors),
        _ => {}
    }
}

/// Writes the message of 90, without taking memory.
pub fn tell_memory<E: Write>(errors: &mut E)
    ensures { Says (E.contents errors.old) (E.contents errors.new) (told_line refusals.Memory (codes "memory was refused")) }
{
    say(line_of_memory_told().as_bytes(), errors);
}

fn line_of_memory_told() -> &'static str
    ensures { result.now ≡ told_line refusals.Memory (codes "memory was refused") }
{
    MEMORY_TOLD
}

/// Tells a terminal what a job reads from it, before it does.
pub fn hint<E: Write>(job: Job<'_>, is_terminal: bool, errors: &mut E)
    ensures { Says (E.contents errors.old) (E.contents errors.new) (hint_text is_terminal job.entry) }
{
    if is_terminal {
        say(hint_for(job).as_bytes(), errors);
    }
}
