ghost use Rattle.std.specs.Prelude.{◌≡◌, ◌+◌, ◌<◌, ◌≤◌, ◌++◌, List, [], ◌∷◌, None, length};
ghost use Rattle.std.specs.List.{AllByRecursion};
ghost use Rattle.hpb_rules.specs.declared.command.Command.{Command};
ghost use Rattle.hpb_rules.specs.declared.limits.TheConstants.{MOST_LETTERS};
ghost use Rattle.hpb_rules.specs.AcceptedRuns.{AllAccepted};
ghost use Rattle.hpb_rules.specs.Answer.{unknown};
ghost use Rattle.hpb_rules.specs.AuctionValue.{Shows};
ghost use Rattle.hpb_rules.specs.Letters.{judged, new_commands};
ghost use Rattle.hpb_rules.specs.Values.{next_value, value_after};
ghost use Rattle.hpb_rules.specs.Rounds.{HasTicket};
ghost use Rattle.hpb_rules.specs.Judging.{answer_in, judged_in};

use crate::Auction;
use crate::reply::is_new;
use hpb_rules::{Answer, Answers, Commands, Letter, Letters};

/// The result of judging letters.
#[derive(Drop)]
pub struct Judged {
    /// One answer for each letter, in their order.
    pub answers: Answers,
    /// The newly accepted commands, in the order of their acceptance.
    pub commands: Commands,
}

/// Answers letters one after another. The auction takes in each command that is newly accepted. Refused letters and
/// repeats change nothing.
///
/// The answers are those that the rules give after each history that the auction shows. The auction then shows that
/// history with the new commands at its end. Refusals are those of `Auction::judge`.
pub fn judge_letters(auction: &mut Auction, letters: &Letters) -> Judged
    ensures value { result.answers ≡ judged_in auction.old letters.now }
    ensures answers { (history : List Command) → Shows auction.old history → result.answers ≡ judged auction.old.rules history letters.now }
    ensures commands { result.commands ≡ new_commands result.answers }

    // The auction after the letters.
    ensures accepted { AllAccepted auction.old result.commands }
    ensures after { auction.new ≡ value_after auction.old result.commands }
    ensures shown { (history : List Command) → Shows auction.old history → Shows auction.new (history ++ result.commands) }
    ensures none { result.commands ≡ [] → auction.new ≡ auction.old }
    ensures rules { auction.new.rules ≡ auction.old.rules }
    ensures counted { auction.new.count ≡ auction.old.count + length result.commands }

    // If there is at least one command, they may be kept as a batch.
    ensures tickets { AllByRecursion HasTicket result.commands }
    ensures known { AllByRecursion (λ command. unknown auction.old.rules command ≡ None) result.commands }
    ensures each { length result.answers ≡ length letters.now }
    ensures most_answers { length result.answers ≤ MOST_LETTERS }
    ensures most_commands { length result.commands ≤ MOST_LETTERS }
{
    let mut answers = Answers::new();
    let mut commands = Commands::new();
    for letter in letters.as_slice() {
        judge_letter(auction, *letter, &mut answers, &mut commands);
    }
    Judged { answers, commands }
}

/// Answers a letter, and adds its command to the others if it is newly accepted.
fn judge_letter(
    auction: &mut Auction,
    letter: Letter,
    answers: &mut Answers,
    commands: &mut Commands,
)
    requires room { length answers.old < MOST_LETTERS }
    requires more_room { length commands.old < MOST_LETTERS }
    ensures value { auction.new ≡ next_value auction.old letter.command }
    ensures answered { answers.new ≡ answers.old ++ answer_in auction.old letter ∷ [] }
    ensures accepted { commands.new ≡ commands.old ++ new_commands (answer_in auction.old letter ∷ []) }
{
    let at = auction.count();
    let reply = auction.apply(&letter.command);
    let _ = answers.push(Answer { letter, at, reply });
    if is_new(at, reply) {
        let _ = commands.push(letter.command);
    }
}
