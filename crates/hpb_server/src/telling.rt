//! Lines for people, beside the answers.
ghost use Rattle.std.specs.Prelude.{◌≡◌, true};
ghost use Rattle.hpb_define.specs.Fault.{refusal_of};
ghost use Rattle.hpb_server.specs.Desk.{LooksStay};
ghost use Rattle.hpb_server.specs.Telling.{Explains, ExplainsAt, Says, TellsOf, TellsReply, TellsShown, accepted_text, sentence, told_line};
ghost use Rattle.hpb_wire.specs.Reasons.{text_of};

use crate::desk::Desk;
use crate::output::send_bytes;
use hpb_auction::Auction;
use hpb_define::{DefineCause, DefineFault};
use hpb_rules::{Command, Refusal, Reply};
use hpb_wire::{Reason, reason_of};
use std::alloc::Global;
use std::fmt;
use std::io::Write;

/// The line for a terminal about an accepted definition.
pub(crate) const ACCEPTED: &str = "hpb: the definition is accepted: type commands and questions\n";

/// Writes a text, as far as the writer takes it. If the writer fails, the failure can't be reported anywhere.
#[tactic(auto, using(crate::proofs::Fronts::put_front))]
pub fn say<W: Write>(text: &[u8], writer: &mut W)
    ensures { Says (W.contents writer.old) (W.contents writer.new) text.now }
{
    let _ = send_bytes(writer, text);
}

/// Reports a refusal to people, by a line with its number, its word and a reason, as far as memory and standard errors
/// allow.
pub fn tell_people<E: Write>(alloc: Global, refusal: Refusal, reason: &str, errors: &mut E)
    ensures { Says (E.contents errors.old) (E.contents errors.new) (told_line refusal reason.now) }
{
    if let Ok(line) = (LineForPeople { refusal, reason }).to_string(alloc) {
        say(line.as_bytes(), errors);
    }
}

/// A refusal's line for people.
#[derive(Clone, Copy)]
struct LineForPeople<'a> {
    refusal: Refusal,
    reason: &'a str,
}

impl fmt::Display for LineForPeople<'_> {
    ghost use Rattle.std.specs.Prelude.{Some};

    ghost output = { λ line. Some (told_line line.refusal line.reason.now) };

    fn fmt<W: fmt::Write>(&self, f: &mut fmt::Formatter<W>) -> fmt::Result {
        let (number, word) = (self.refusal.number(), self.refusal.word());
        let reason = self.reason;
        write!(f, "hpb: {number} {word}: {reason}\n")
    }
}

/// Writes to a terminal that a definition was accepted.
pub(crate) fn greet<E: Write>(is_terminal: bool, errors: &mut E)
    ensures { Says (E.contents errors.old) (E.contents errors.new) (accepted_text is_terminal) }
{
    if is_terminal {
        say(ACCEPTED.as_bytes(), errors);
    }
}

/// The reason for a definition whose first line ends too early, and isn't the last line.
const ONE_LINE: &str =
    ": a script has the whole definition in its first line, as `jq -c . definition.json` writes it";

/// Reports to people why a script's definition is refused, unless memory was refused. Other lines may follow.
pub(crate) fn tell_reason<E: Write>(
    alloc: Global,
    fault: &DefineFault,
    has_lines: bool,
    errors: &mut E,
)
    ensures { TellsOf (E.contents errors.old) (E.contents errors.new) (refusal_of fault.now.cause) }
{
    if fault.cause == DefineCause::Memory {
        return;
    }
    let more = if has_lines && fault.ends_early() {
        ONE_LINE
    } else {
        ""
    };
    match format!(in alloc; "{}{more}", fault.said()) {
        Ok(reason) => tell_people(alloc, fault.refusal(), reason.as_str(), errors),
        Err(_) => tell_people(alloc, fault.refusal(), fault.said(), errors),
    }
}

/// At a terminal, reports the number that would do in place of a command whose reply is a refusal.
pub(crate) fn explain<E: Write, D: Desk>(
    alloc: Global,
    is_terminal: bool,
    desk: &mut D,
    command: &Command,
    reply: Reply,
    errors: &mut E,
)
    requires stays { is_terminal ≡ true → LooksStay D.ways }
    ensures told { is_terminal ≡ true → (state : D.State) → D.is_at desk.old state → TellsReply D.ways state command.now reply (E.contents errors.old) (E.contents errors.new) }
    ensures explained { ExplainsAt is_terminal (E.contents errors.old) (E.contents errors.new) }
    ensures kept { (state : D.State) → D.is_at desk.old state → D.is_at desk.new state }
    ensures rules { D.rules desk.new ≡ D.rules desk.old }
{
    if !is_terminal {
        return;
    }
    match reply {
        Reply::Ok(_) => {}
        Reply::Refused(refusal) => explain_refusal(alloc, desk, command, refusal, errors),
    }
}

/// Reports the number that would do in place of a refused command, by the auction that the desk shows.
fn explain_refusal<E: Write, D: Desk>(
    alloc: Global,
    desk: &mut D,
    command: &Command,
    refusal: Refusal,
    errors: &mut E,
)
    requires stays { LooksStay D.ways }
    ensures told { (state : D.State) → D.is_at desk.old state → TellsShown D.ways state command.now refusal (E.contents errors.old) (E.contents errors.new) }
    ensures explained { Explains (E.contents errors.old) (E.contents errors.new) }
    ensures kept { (state : D.State) → D.is_at desk.old state → D.is_at desk.new state }
    ensures rules { D.rules desk.new ≡ D.rules desk.old }
{
    match desk.look() {
        Some(auction) => tell_refused(alloc, auction, command, refusal, errors),
        None => {}
    }
}

/// Reports to people the number that would do in place of a refused command, by an auction as it stands, as far as
/// memory and standard errors allow. If no number would do, nothing is written.
#[tactic(auto, using(crate::proofs::Explained::said_none))]
pub(crate) fn tell_refused<E: Write>(
    alloc: Global,
    auction: &Auction,
    command: &Command,
    refusal: Refusal,
    errors: &mut E,
)
    ensures { Says (E.contents errors.old) (E.contents errors.new) (sentence auction.now command.now refusal) }
{
    match reason_of(auction, command, refusal) {
        Some(reason) => tell_number(alloc, refusal, reason, errors),
        None => {}
    }
}

/// Reports a refusal to people with the number that would do.
#[tactic(auto, using(crate::proofs::Explained::said_none))]
fn tell_number<E: Write>(alloc: Global, refusal: Refusal, reason: Reason<'_>, errors: &mut E)
    ensures { Says (E.contents errors.old) (E.contents errors.new) (told_line refusal (text_of reason.entry)) }
{
    match reason.to_string(alloc) {
        Ok(text) => tell_people(alloc, refusal, text.as_str(), errors),
        Err(_) => {}
    }
}
