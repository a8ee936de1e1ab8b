//! The laws of lower crates on which an engine's steps rest.
ghost use Rattle.hpb_engine.specs.Laws.{Laws};

use hpb_journal::shapes_are_journal;
use hpb_rules::{accepted_are_counted, front_is_history, rest_is_accepted, rest_is_shown};
use hpb_slots::{chunks_are_whole, holds_one, open_or_closed, slots_stay};

/// Gives all laws on which an engine's steps rest, by one call: those of the journal, the slots and accepted commands.
pub fn laws_below()
    ensures { Laws }
{
    shapes_are_journal();
    slots_stay();
    holds_one();
    open_or_closed();
    chunks_are_whole();
    rest_is_accepted();
    rest_is_shown();
    accepted_are_counted();
    front_is_history();
}
