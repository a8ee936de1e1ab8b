ghost use Rattle.std.specs.Prelude.{◌≡◌, suc, IfSome, None};
ghost use Rattle.hpb_rules.specs.Answer.{repeated};
ghost use Rattle.hpb_rules.specs.History.{ticket_of, ticket_of_last};
ghost use Rattle.hpb_auction.specs.Verdicts.{reply_of, read_last, number_of_last, ticket_reply, reply_told, IfNew, IfRepeat};

use crate::sender::{last_ticket, ticket};
use hpb_rules::{Accepted, Command, Refusal, Reply};

/// The decision on a command.
#[derive(Clone, Copy, Debug, PartialEq, Eq)]
pub(crate) enum Verdict {
    /// Newly accepted, under this number.
    New(u32),
    /// A repeat of the sender's last command, which has this number.
    Repeat(u32),
    /// Refused: the command changes nothing.
    Refused(Refusal),
}

impl Verdict {
    /// The reply to the sender.
    #[inline(always)]
    pub(crate) fn reply(self) -> Reply
        ensures { result ≡ reply_of self }
    {
        match self {
            Verdict::New(number) | Verdict::Repeat(number) => Reply::Ok(number),
            Verdict::Refused(refusal) => Reply::Refused(refusal),
        }
    }
}

/// The verdict on a command by its ticket, given its sender's last command. `None` if the ticket is the next.
#[inline(always)]
pub(crate) fn by_ticket(command: &Command, last: Option<&Accepted>) -> Option<Verdict>
    ensures reply { reply_told result ≡ ticket_reply command.now (read_last last.entry) }
    ensures never_new { IfSome result (λ verdict. IfNew verdict (λ _. ⊥)) }
    ensures repeat { IfSome result (λ verdict. IfRepeat verdict (λ number. number ≡ number_of_last (read_last last.entry))) }
    ensures next { result ≡ None → ticket_of command.now ≡ suc (ticket_of_last (read_last last.entry)) }
{
    let given = ticket(command);
    let before = last_ticket(last);
    if given == 0 || given < before {
        return Some(Verdict::Refused(Refusal::Old));
    }
    if given == before {
        return Some(by_repeat(command, last));
    }
    if given - before > 1 {
        return Some(Verdict::Refused(Refusal::Gap));
    }
    None
}

/// The verdict on a command with its sender's last ticket.
#[inline(always)]
fn by_repeat(command: &Command, last: Option<&Accepted>) -> Verdict
    ensures reply { reply_of result ≡ repeated command.now (read_last last.entry) }
    ensures never_new { IfNew result (λ _. ⊥) }
    ensures repeat { IfRepeat result (λ number. number ≡ number_of_last (read_last last.entry)) }
{
    match last {
        Some(accepted) if accepted.command == *command => Verdict::Repeat(accepted.number),
        Some(_) => Verdict::Refused(Refusal::Ticket),
        None => Verdict::Refused(Refusal::Old),
    }
}
