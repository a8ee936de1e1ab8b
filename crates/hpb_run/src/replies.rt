//! Commands as letters, and the replies to them.
ghost use Rattle.std.specs.Prelude.{◌≡◌, ◌<◌, ◌≤◌, ◌++◌, ◌∷◌, [], Some, None, length, map};
ghost use Rattle.hpb_rules.specs.declared.limits.TheConstants.{MOST_LETTERS};
ghost use Rattle.hpb_engine.specs.declared.step.Fault.{Fault as Told};
ghost use Rattle.hpb_engine.specs.Steps.{refusal_of};
ghost use Rattle.hpb_run.specs.Standing.{letter_of, refused, reply_of};

use hpb_engine::Fault;
use hpb_rules::{Answer, Blank, Commands, Few, Letter, Letters, Refusal, Replies, Reply};

/// The seat of all letters of a session.
const SEAT: u8 = 0;

/// Appends an item.
fn put<T: Blank>(items: &mut Few<T>, item: T)
    requires { length items.old < MOST_LETTERS }
    ensures { items.new ≡ items.old ++ item ∷ [] }
{
    let _ = items.push(item);
}

/// The commands as letters of the session's seat.
pub(crate) fn letters_of(commands: &Commands) -> Letters
    ensures { result ≡ map letter_of commands.now }
{
    let mut letters = Letters::new();
    for command in commands.as_slice() {
        let letter = Letter {
            seat: SEAT,
            command: *command,
        };
        put(&mut letters, letter);
    }
    letters
}

/// The replies in these answers.
fn replies_of(answers: &[Answer]) -> Replies
    ensures { length answers.now ≤ MOST_LETTERS → result ≡ map reply_of answers.now }
{
    let mut replies = Replies::new();
    for answered in answers {
        let _ = replies.push(answered.reply);
    }
    replies
}

/// The same refusal for each of `count` commands.
pub(crate) fn all_refused(count: usize, refusal: Refusal) -> Replies
    requires { count ≤ MOST_LETTERS }
    ensures { result ≡ refused count refusal }
{
    let mut replies = Replies::new();
    for _ in 0..count {
        put(&mut replies, Reply::Refused(refusal));
    }
    replies
}

/// The replies to `count` commands that were to be committed together: those of the answers, or the fault's refusal for
/// each.
pub(crate) fn replies_to(fault: Option<Fault>, answers: &[Answer], count: usize) -> Replies
    requires { count ≤ MOST_LETTERS }
    ensures answered { fault ≡ None → length answers.now ≤ MOST_LETTERS → result ≡ map reply_of answers.now }
    ensures refused { (told : Told) → fault ≡ Some told → result ≡ refused count (refusal_of told) }
{
    match fault {
        None => replies_of(answers),
        Some(fault) => all_refused(count, fault.refusal()),
    }
}
