ghost use Rattle.std.specs.Prelude.{◌≡◌, false, Some, IfErr, IfOk, MatchOption, map, option_map};
ghost use Rattle.clap.specs.Values.{kind_of};
ghost use Rattle.clap.specs.Words.{app_of, found_of, rows_of, rule_of, subcommand_rows_of};
ghost use Rattle.hpb_words.specs.Words.{check_shape, file_of, file_shape, format_shape, hpb, journal_of, option_rule, run_shape, serve_shape, AsksFor, HasFile, HasKnownCommand, HasRanges, HasStatus, IsCommandOf, IsJobOf, IsKnownName, IsTold, IsWrong};
ghost use Rattle.hpb_words.specs.declared.words.WordsFault.TheVariants.{Memory};

use crate::escaped::{EscapedWord, is_escaped};
use crate::status::{WELL, WRONG_WORDS};
use crate::values::{ValueFault, check_values};
use clap::error::ErrorKind;
use clap::{Arg, ArgMatches, Command, value_parser};
use hpb_codec::{JournalLayout, JournalShape};
use hpb_rules::{MOST_LETTERS, MOST_SEATS};
use std::alloc::{AllocError, Global};
use std::convert::AsStr;
use thiserror::Error;

/// The version, and the line of the kit with which the program is proved.
const VERSION: &str = "0.1.0\nrattle-kit-13f logic dac8208d650f15bf";

const USAGE: &str = r#"hpb < SCRIPT
       hpb format --file F --journal J [--layout 1|2] < DEFINITION
       hpb run --file F [--batch N] [--every K] < LINES
       hpb check --file F
       hpb serve --file F --port P --sessions N"#;

const ABOUT: &str = "Runs a simultaneous ascending auction with bids on packages.";

const HELP: &str =
    r#"Without a command, hpb keeps the auction in memory. The first line of standard input is its definition in JSON.
Commands and questions follow, one a line. Each gets one line on standard output:

  BID bidder ticket node amount   a bid, in whole dollars        OK number
  CLOSE ticket                    ends the round                 OK number
  STAGE ticket                    moves on to the next stage     OK number
  WAIVE bidder ticket             keeps its eligibility          OK number
  SHOW                            the auction                    ROUND r STAGE s OPEN REVENUE v COUNT n
  NODE name                       a package or a licence         NODE name HIGH h x PRICE p MIN m WIN yes
  WHO bidder                      a bidder                       WHO x ELIGIBILITY e ACTIVITY a TICKET t

A CLOSE of a round in which nobody bid or waived ends the auction, for good.
If the definition gives waivers, the answer to WHO ends with WAIVERS and the number that is left.
Each bidder numbers its commands 1, 2, .. by tickets. So does the auctioneer, who sends CLOSE and STAGE.
A line that is refused gets ERR with a number and a word.

Status: 0 each line got its answer; 1 the definition or memory was refused, or reading or writing
failed; 2 the words were wrong. The --help of each command says what its status means.

Example: the lines

  {"step":10,"percent":10,"stages":[80],"nodes":[{"name":"a","parent":null,"units":1,"opening":100}],"bidders":[{"name":"x","units":1}]}
  BID x 1 a 100
  CLOSE 1
  NODE a

get OK 1, OK 2 and NODE a HIGH 100 x PRICE 100 MIN 110 WIN yes.

docs/RULES.md has the rules of the auction; docs/PROTOCOL.md has the definition, all lines, answers and
refusals."#;

const FORMAT_ABOUT: &str = "Makes a file that keeps an auction, before its first command";

const FORMAT_HELP: &str =
    r#"Standard input is the definition in JSON, in as many lines as you like. If there is no such file, it is made. If
there is one, it must have the length of a new one and keep no auction; its bytes are lost. The journal has J frames,
each for a batch of commands. With more frames, checkpoints are needed more rarely.

--layout 1: a frame is a page of 4,096 bytes. J is from 4 to 1,024, and the file has 13 + J pages.

--layout 2: a frame is three cells of 512 bytes, and a batch takes as many cells as it needs. A journal for the same
batches has three eighths of the pages. J is a multiple of 8 from 16 to 1,024, and the file has 13 + 3J/8 pages.

Both keep the same promises. The file's head has the layout, so the other commands find it.

The answer is FORMATTED with the number of pages, or ERR with a number and a word.

Status: 0 the file keeps the auction; 1 it doesn't, and standard error says why; 2 the words were wrong.

Example: a file of 77 pages, and one of 37 for as many batches

  hpb format --file auction.hpb --journal 64 < definition.json
  hpb format --file cells.hpb --journal 64 --layout 2 < definition.json

docs/OPERATIONS.md says how to size, copy and move a file; docs/PROTOCOL.md says what to do after each refusal."#;

const JOURNAL_HELP: &str =
    "The number of frames of the journal: 4 to 1024, and of cells a multiple of 8 from 16";

const LAYOUT_HELP: &str = "The layout of the journal: 1, a page for each frame, or 2, cells";

const CHECK_ABOUT: &str = "Shows the auction that a file keeps";

const CHECK_HELP: &str =
    r#"The output has the answer to SHOW, and then the answer to NODE for each node, in the order of the definition; or ERR
with a number and a word. The file is only read. While another program runs or serves it, check is refused.

Status: 0 the auction is shown; 1 it isn't, and standard error says why; 2 the words were wrong.

Example:

  hpb check --file auction.hpb

docs/PROTOCOL.md says what to do after each refusal."#;

const RUN_ABOUT: &str = "Runs the auction that a file keeps";

const RUN_HELP: &str =
    r#"Standard input has commands and questions, one a line, as a script has behind its definition. Each line gets its
answer on standard output (hpb --help). A command gets OK once it is on the disk. No power cut takes it back, if the
disk does as it says. The auction goes on after the file's last run, with every command that got OK. While it runs,
no other program may have the file.

--batch N: commands that have come together, N at most, go on the disk together, and then get their answers. A line
that isn't a command ends a batch, and no batch waits for more lines. The commands of a batch share its cost, which is
mostly two syncs of the disk.

--every K: a checkpoint is written after each K batches. With 0 one is written only if the journal is full. More
checkpoints make opening faster.

Status: 0 each line got its answer; 1 the file could not be opened, its disk failed (from then on commands get ERR 91
device or ERR 93 failed), memory was refused, or reading or writing failed; 2 the words were wrong. With 1 standard
error says what happened and what to do.

Example: up to 16 commands at a time, and a checkpoint after each 50 batches

  hpb run --file auction.hpb --batch 16 --every 50 < lines

docs/PROTOCOL.md says what to do after each refusal."#;

const BATCH_HELP: &str = "The most commands that are put on the disk together, from 1 to 64";

const EVERY_HELP: &str = "The number of batches after which a checkpoint is written, or 0";

const SERVE_ABOUT: &str = "Serves sessions over TCP by the auction that a file keeps";

const SERVE_HELP: &str =
    r#"LISTENING P is written once clients can connect to port P of 127.0.0.1. N connections are taken, and each is a
session of its own; the system refuses any further one. A session sends commands and questions, one a line, as a script
has behind its definition. Each line gets its answer (hpb --help). So nc 127.0.0.1 P is a client, and needs nothing
else. All sessions are in one auction: the answers to questions show what the others did.

A command gets OK once it is on the disk. No power cut takes it back, if the disk does as it says. The auction goes on
after the file's last run, with every command that got OK. While it is served, no other program may have the file.

A session ends once its client ends its lines or its connection. Once all N have ended, CLOSED n is written: n commands
are accepted in all. If the file can't be served, ERR is written, with a number and a word.

Only programs on this machine can connect. Any of them may send any command: no password is asked for.

Status: 0 all sessions have ended; 1 the file could not be opened, too few connections may be open at a time (ulimit
-n), the port could not be had, the file's disk failed (from then on commands get ERR 93 failed), memory was refused,
writing failed, or the answers aren't those that the file keeps; 2 the words were wrong. With 1 standard error says what
happened and what to do. Before that, it says which places are taken, and when the disk fails.

Example: two sessions, each from a terminal of its own

  hpb serve --file auction.hpb --port 5000 --sessions 2
  nc 127.0.0.1 5000
  nc 127.0.0.1 5000

docs/PROTOCOL.md has all lines, answers and refusals, and says what to do after each."#;

const PORT_HELP: &str = "The port of 127.0.0.1, from 1024 to 65535";

const SESSIONS_HELP: &str = "The number of sessions, from 1 to 32";

/// The command that makes a file.
const FORMAT: &str = "format";

/// The command that shows what a file keeps.
const CHECK: &str = "check";

/// The command that runs what a file keeps.
const RUN: &str = "run";

/// The command that serves sessions by what a file keeps.
const SERVE: &str = "serve";

/// The option that names a file.
pub(crate) const FILE: &str = "file";

/// The option that gives the number of frames of a journal.
pub(crate) const JOURNAL: &str = "journal";

/// The option that gives the number of a journal's layout.
pub(crate) const LAYOUT: &str = "layout";

/// The option that gives the most commands of a batch.
pub(crate) const BATCH: &str = "batch";

/// The option that gives the number of commits after which a checkpoint is made.
pub(crate) const EVERY: &str = "every";

/// The option that gives a port.
pub(crate) const PORT: &str = "port";

/// The option that gives a number of sessions.
pub(crate) const SESSIONS: &str = "sessions";

/// How many commands a batch may have, at most.
const MOST_BATCH: u32 = MOST_LETTERS as u32;

/// The least port at which sessions may be served. Those below it are kept for the system's own programs.
const LEAST_PORT: u16 = 1_024;

/// The greatest port that there is.
const MOST_PORT: u16 = u16::MAX;

/// How many sessions there may be, at most.
const MOST_SESSIONS: u8 = MOST_SEATS as u8;

/// The job that a command line asks for.
#[derive(Clone, Copy, Debug, PartialEq, Eq)]
pub enum Job<'a> {
    /// An auction in memory: a definition and lines from the input.
    Script,
    /// Make a file that keeps an auction, by the definition from the input. Given are the file's path, and the layout
    /// and number of frames of its journal. The number may be out of the layout's range.
    Format {
        file: &'a str,
        journal: JournalShape,
    },
    /// Show the auction that the file of this path keeps.
    Check {
        file: &'a str,
    },
    /// Run the auction that the file of this path keeps, with lines from the input. Given are the most commands that
    /// are committed together, and after how many commits a checkpoint is made, or 0 for never.
    Run {
        file: &'a str,
        batch: u32,
        every: u32,
    },
    /// Serve the auction that the file of this path keeps, with lines from connections. Given are the port of
    /// 127.0.0.1, from 1,024 on, and the number of sessions, from 1 to 32.
    Serve {
        file: &'a str,
        port: u16,
        sessions: u8,
    },
}

impl<'a> Job<'a> {
    /// The path of its file; a script has none.
    pub fn file(self) -> Option<&'a str>
        ensures path { option_map (λ file. file.now) result ≡ file_of self.entry }
        ensures some { MatchOption result (HasFile self.entry → ⊥) (λ _. HasFile self.entry) }
    {
        match self {
            Job::Script => None,
            Job::Format { file, .. }
            | Job::Check { file }
            | Job::Run { file, .. }
            | Job::Serve { file, .. } => Some(file),
        }
    }

    /// The journal that it asks for. Only `format` asks for one.
    pub fn journal(self) -> Option<JournalShape>
        ensures { result ≡ journal_of self.entry }
    {
        match self {
            Job::Format { journal, .. } => Some(journal),
            _ => None,
        }
    }
}

/// Why words ask for no job.
#[derive(Debug, Drop, Error)]
pub enum WordsFault {
    /// 90 `memory`: memory was refused.
    #[error("memory")]
    Memory,
    /// The words are wrong, or ask for help. The text is for the person who typed them. The status is the program's: 2
    /// for wrong words, and otherwise 0.
    #[error("{text}")]
    Refused { text: String, status: u8 },
}

impl From<AllocError> for WordsFault {
    ghost from_gives = { λ _ e. e ≡ Memory };

    fn from(_error: AllocError) -> WordsFault {
        WordsFault::Memory
    }
}

/// The job that a command line asks for. Its first word is the program's name.
pub fn read_words<'a, S: AsStr>(alloc: Global, words: &'a [S]) -> Result<Job<'a>, WordsFault>
    ensures status { IfErr result HasStatus }
    ensures asked { AsksFor (map S.text words.now) result }
    ensures ranges { IfOk result HasRanges }
{
    let command = command(alloc)?;
    match command.try_get_matches_from(words) {
        Ok(matches) => match check_values(&matches) {
            Ok(()) => Ok(job_of(&matches)),
            Err(fault) => Err(refused_value(alloc, fault)?),
        },
        Err(error) => Err(refused(alloc, &error, words)?),
    }
}

/// The job that matches of `clap` ask for.
fn job_of<'a>(matches: &ArgMatches<'a>) -> Job<'a>
    requires { HasKnownCommand (subcommand_rows_of matches.now) }
    ensures job { IsJobOf (subcommand_rows_of matches.now) result }
    ensures ranges { HasRanges result }
{
    match matches.subcommand() {
        None => Job::Script,
        Some((name, options)) => job_of_command(name, options),
    }
}

/// The job that a command asks for. `clap` takes words only with all options of their command, so none is missing here.
fn job_of_command<'a>(name: &str, options: &ArgMatches<'a>) -> Job<'a>
    requires { IsKnownName name.now }
    ensures job { IsJobOf (Some (name.now, rows_of (found_of options.now))) result }
    ensures ranges { HasRanges result }
{
    let file = options.get_str(FILE).unwrap_or("");
    if name == FORMAT {
        let frames = options.get_one::<u32>(JOURNAL).unwrap_or(0);
        let byte = options.get_one::<u8>(LAYOUT).unwrap_or(1);
        let layout = JournalLayout::of_byte(byte).unwrap_or(JournalLayout::Pages);
        let journal = JournalShape { layout, frames };
        Job::Format { file, journal }
    } else if name == RUN {
        let wanted = options.get_one::<u32>(BATCH).unwrap_or(1);
        let batch = wanted.clamp(1, MOST_BATCH);
        let every = options.get_one::<u32>(EVERY).unwrap_or(0);
        Job::Run { file, batch, every }
    } else if name == SERVE {
        let asked = options.get_one::<u16>(PORT).unwrap_or(LEAST_PORT);
        let port = asked.max(LEAST_PORT);
        let wanted = options.get_one::<u8>(SESSIONS).unwrap_or(1);
        let sessions = wanted.clamp(1, MOST_SESSIONS);
        Job::Serve {
            file,
            port,
            sessions,
        }
    } else {
        Job::Check { file }
    }
}

/// The fault of words with such a value.
fn refused_value(alloc: Global, fault: ValueFault<'_>) -> Result<WordsFault, AllocError>
    ensures { IfOk result IsWrong }
{
    let text = fault.to_string(alloc)?;
    Ok(WordsFault::Refused {
        text,
        status: WRONG_WORDS,
    })
}

/// The fault of words for which `clap` gives no matches.
fn refused<S: AsStr>(
    alloc: Global,
    error: &clap::Error,
    words: &[S],
) -> Result<WordsFault, AllocError>
    ensures status { IfOk result HasStatus }
    ensures told { IfOk result (IsTold (kind_of error.now)) }
{
    if error.kind() == ErrorKind::OutOfMemory {
        return Ok(WordsFault::Memory);
    }
    let text = said_of(alloc, error, words)?;
    let is_shown = error.kind() == ErrorKind::DisplayHelp
        || error.kind() == ErrorKind::DisplayVersion;
    let status = if is_shown { WELL } else { WRONG_WORDS };
    Ok(WordsFault::Refused { text, status })
}

/// The message of `clap` about words. If they have characters that a terminal obeys or doesn't show, it is the message
/// about the words with these escaped.
fn said_of<S: AsStr>(
    alloc: Global,
    error: &clap::Error,
    words: &[S],
) -> Result<String, AllocError> {
    if !words.iter().any(|word| has_escaped(word.as_str())) {
        return error.to_string(alloc);
    }
    let escaped = escaped_words(alloc, words)?;
    match command(alloc)?.try_get_matches_from(escaped.as_slice()) {
        Ok(_) => Ok(String::new(alloc)),
        Err(said) => said.to_string(alloc),
    }
}

fn has_escaped(word: &str) -> bool {
    word.chars().any(is_escaped)
}

fn escaped_words<S: AsStr>(alloc: Global, words: &[S]) -> Result<Vec<String>, AllocError> {
    let mut escaped = Vec::new(alloc);
    for word in words {
        escaped.push(EscapedWord(word.as_str()).to_string(alloc)?)?;
    }
    Ok(escaped)
}

fn command<'a>(alloc: Global) -> Result<Command<'a>, AllocError>
    ensures { IfOk result (λ command. app_of command ≡ hpb) }
{
    Command::new(alloc, "hpb")
        .version(VERSION)
        .override_usage(USAGE)
        .about(ABOUT)
        .after_help(HELP)
        .disable_help_subcommand(true)
        .subcommand(format_command(alloc)?)?
        .subcommand(check_command(alloc)?)?
        .subcommand(run_command(alloc)?)?
        .subcommand(serve_command(alloc)?)
}

fn format_command<'a>(alloc: Global) -> Result<Command<'a>, AllocError>
    ensures { IfOk result (IsCommandOf format_shape) }
{
    let journal = option(alloc, JOURNAL, "J", JOURNAL_HELP).required(true);
    let layout = option(alloc, LAYOUT, "L", LAYOUT_HELP).default_value("1");
    new_command(alloc, FORMAT, FORMAT_ABOUT, FORMAT_HELP)?
        .arg(journal.value_parser(value_parser!(u32)))?
        .arg(layout.value_parser(value_parser!(u8).range(1..=2)))
}

fn check_command<'a>(alloc: Global) -> Result<Command<'a>, AllocError>
    ensures { IfOk result (IsCommandOf check_shape) }
{
    new_command(alloc, CHECK, CHECK_ABOUT, CHECK_HELP)
}

fn run_command<'a>(alloc: Global) -> Result<Command<'a>, AllocError>
    ensures { IfOk result (IsCommandOf run_shape) }
{
    let batch = option(alloc, BATCH, "N", BATCH_HELP).default_value("1");
    let every = option(alloc, EVERY, "K", EVERY_HELP).default_value("0");
    new_command(alloc, RUN, RUN_ABOUT, RUN_HELP)?
        .arg(batch.value_parser(value_parser!(u32).range(1..=MOST_BATCH as i64)))?
        .arg(every.value_parser(value_parser!(u32)))
}

fn serve_command<'a>(alloc: Global) -> Result<Command<'a>, AllocError>
    ensures { IfOk result (IsCommandOf serve_shape) }
{
    let ports = value_parser!(u16).range(LEAST_PORT as i64..=MOST_PORT as i64);
    let counts = value_parser!(u8).range(1..=MOST_SESSIONS as i64);
    let port = option(alloc, PORT, "P", PORT_HELP).value_parser(ports);
    let sessions = option(alloc, SESSIONS, "N", SESSIONS_HELP).value_parser(counts);
    new_command(alloc, SERVE, SERVE_ABOUT, SERVE_HELP)?
        .arg(port.required(true))?
        .arg(sessions.required(true))
}

/// A command on a file, with the texts of help before and behind its options.
fn new_command<'a>(
    alloc: Global,
    name: &'a str,
    about: &'a str,
    help: &'a str,
) -> Result<Command<'a>, AllocError>
    ensures { IfOk result (IsCommandOf (file_shape name.now)) }
{
    let file = option(alloc, FILE, "F", "The path of the file").required(true);
    Command::new(alloc, name)
        .about(about)
        .after_help(help)
        .arg(file)
}

/// An option that is given by its name, with one value.
fn option<'a>(alloc: Global, name: &'a str, value: &'a str, help: &'a str) -> Arg<'a>
    ensures rule { rule_of result ≡ option_rule name.now }
    ensures local { result.global ≡ false }
{
    Arg::new(alloc, name)
        .long(name)
        .value_name(value)
        .help(help)
}
