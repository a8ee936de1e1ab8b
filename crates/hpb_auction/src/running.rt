ghost use Rattle.std.specs.Prelude.{◌≡◌, ◌++◌, [], List, IfOk};
ghost use Rattle.hpb_rules.specs.declared.command.Command.{Command};
ghost use Rattle.hpb_rules.specs.Answer.{replies_from};
ghost use Rattle.hpb_rules.specs.Values.{first_value, value_after, replies_in};
ghost use Rattle.hpb_rules.specs.ValueLaws.{IsBestChoice};

use crate::auction::Auction;
use hpb_rules::{Command, Reply};
use hpb_tree::Definition;
use std::alloc::{AllocError, Global};

/// An auction after commands, with the reply to each of them.
#[derive(Drop)]
pub struct Run {
    /// The auction after all commands.
    pub auction: Auction,
    /// One reply for each command, in their order.
    pub replies: Vec<Reply>,
}

/// Runs an auction from its beginning, by commands one after another. Fails only if memory is refused.
///
/// The replies are those of the rules. At each point of the run the provisional winners are disjoint high bids of
/// closed rounds, with the greatest sum that such bids can have. The prices prove it.
pub fn run_commands(
    alloc: Global,
    definition: &Definition,
    commands: &[Command],
) -> Result<Run, AllocError>
    ensures value { IfOk result (λ run. run.auction ≡ value_after (first_value definition.now) commands.now) }
    ensures replies { IfOk result (λ run. run.replies.items ≡ replies_in (first_value definition.now) commands.now) }
    ensures history { IfOk result (λ run. run.replies.items ≡ replies_from definition.now [] commands.now) }
    ensures best { IfOk result (λ _. (front rest : List Command) → commands.now ≡ front ++ rest → IsBestChoice (value_after (first_value definition.now) front)) }
{
    definition.is_accepted_draft();
    let mut auction = Auction::new(alloc, definition)?;
    let mut replies = Vec::with_capacity(alloc, commands.len())?;
    for command in commands {
        replies.push(auction.apply(command))?;
    }
    Ok(Run { auction, replies })
}
