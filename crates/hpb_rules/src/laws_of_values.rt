ghost use Rattle.hpb_rules.specs.ValueLaws.{ReplyIsAnswer, NextIsShown, RunIsShown, TextIsShown, ValueIsBestChoice};

/// A value that shows a history answers each command as the history does.
pub fn reply_is_answer()
    ensures { ReplyIsAnswer }
{}

/// After a command a value shows the history with that command if it was newly accepted, else the same history.
pub fn next_is_shown()
    ensures { NextIsShown }
{}

/// Over a whole run from a value on the replies are those of the history that it shows. At the end the value shows the
/// longer history.
pub fn run_is_shown()
    ensures { RunIsShown }
{}

/// The text of an input from a value on is its text after the history that the value shows.
pub fn text_is_shown()
    ensures { TextIsShown }
{}

/// In every value under a definition that isn't refused, the winners are disjoint high bids with the greatest sum, and
/// the prices prove it.
pub fn value_is_best_choice()
    ensures { ValueIsBestChoice }
{}
