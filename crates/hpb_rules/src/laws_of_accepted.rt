ghost use Rattle.hpb_rules.specs.AcceptedLaws.{RestIsAccepted, RestIsShown, AcceptedJoin, AcceptedAreCounted};

/// A value that shows the front of a list of commands accepts the rest exactly if the whole list is a history.
pub fn rest_is_accepted()
    ensures { RestIsAccepted }
{}

/// After accepting that rest the value shows the whole list.
pub fn rest_is_shown()
    ensures { RestIsShown }
{}

/// Commands followed by more are accepted exactly if the commands are, and then the others by the value after them.
pub fn accepted_join()
    ensures { AcceptedJoin }
{}

/// Each accepted command is counted, and the definition stays.
pub fn accepted_are_counted()
    ensures { AcceptedAreCounted }
{}
