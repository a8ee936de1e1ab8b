ghost use Rattle.hpb_rules.specs.HistoryLaws.{AcceptedIsNew, BidsMeetRules, TicketsCount, LastStands, SameIsEqual, PercentageIsKnown, HistoryGrows, FrontIsHistory, RepeatChangesNothing, AnswerIsShown, ShownIsOne};
ghost use Rattle.hpb_rules.specs.Order.{AnswerIsFirst};

/// A command is accepted under the next number exactly if it is new. It is new if its names are known, its ticket is
/// its sender's next, there is room, the auction isn't over, and it has no fault.
pub fn accepted_is_new()
    ensures { AcceptedIsNew }
{}

/// A command is answered by the first test that applies in the order of refusals. If none does, it is accepted under
/// the next number.
pub fn answer_is_first()
    ensures { AnswerIsFirst }
{}

/// Each bid's bidder and node are the definition's. Its amount is a multiple of the step, at least the node's opening,
/// more than 0, and at most the greatest amount.
pub fn bids_meet_rules()
    ensures { BidsMeetRules }
{}

/// A sender's tickets count its commands: each is one more than the last ticket before it.
pub fn tickets_count()
    ensures { TicketsCount }
{}

/// A sender's last command stands in the history under its number, and no later one is the sender's.
pub fn last_stands()
    ensures { LastStands }
{}

/// Two commands are the same exactly if they are equal, and so are two senders.
pub fn same_is_equal()
    ensures { SameIsEqual }
{}

/// In a history of a definition that isn't refused the stage in force has a percentage from 50 to 100.
pub fn percentage_is_known()
    ensures { PercentageIsKnown }
{}

/// A history with a newly accepted command at its end is a history.
pub fn history_grows()
    ensures { HistoryGrows }
{}

/// Each front of a history is a history.
pub fn front_is_history()
    ensures { FrontIsHistory }
{}

/// A sender's last command, sent again, gets its number again and changes nothing.
pub fn repeat_changes_nothing()
    ensures { RepeatChangesNothing }
{}

/// After histories an answer depends on nothing but the value.
pub fn answer_is_shown()
    ensures { AnswerIsShown }
{}

/// Two values of one definition that show the same history are equal.
pub fn shown_is_one()
    ensures { ShownIsOne }
{}
