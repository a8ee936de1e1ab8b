//! The hint that a terminal gets before a job reads from it.
ghost use Rattle.std.specs.Prelude.{◌≡◌, true};
ghost use Rattle.hpb_words.specs.Hints.{hint_text};

use crate::words::Job;

const SCRIPT_HINT: &str =
    "hpb: standard input is a terminal: type the definition in JSON, in one line, then commands and questions, one a line; Ctrl-D ends the script\nhpb: a terminal cuts a line at 4,095 bytes: put a longer one into a file F, and give it by < F\n";

const FORMAT_HINT: &str =
    "hpb: standard input is a terminal: type the definition in JSON, in as many lines as you like; Ctrl-D ends it\nhpb: a terminal cuts a line at 4,095 bytes: put a longer one into a file F, and give it by < F\n";

const RUN_HINT: &str =
    "hpb: standard input is a terminal: type commands and questions, one a line; Ctrl-D ends the run\n";

/// The hint for a job, before the job reads a terminal. It is empty if the job reads nothing.
pub fn hint_for(job: Job<'_>) -> &'static str
    ensures { result.now ≡ hint_text true job.entry }
{
    match job {
        Job::Script => SCRIPT_HINT,
        Job::Format { .. } => FORMAT_HINT,
        Job::Check { .. } => "",
        Job::Run { .. } => RUN_HINT,
        Job::Serve { .. } => "",
    }
}
