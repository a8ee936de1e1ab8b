ghost use Rattle.hpb_rules.specs.LetterLaws.{HistoryAfterAppends, FitsGrow, JudgedJoin, JudgedIsAnswered, JudgedIsShown};

/// The history after a command is the history with it at the end if it is newly accepted, else the history as it was.
pub fn history_after_appends()
    ensures { HistoryAfterAppends }
{}

/// An answer that fits a list of accepted commands fits each longer list that begins with it.
pub fn fits_grow()
    ensures { FitsGrow }
{}

/// Letters followed by more get the answers of the letters, and then those of the others after the commands that the
/// first accept.
pub fn judged_join()
    ensures { JudgedJoin }
{}

/// Letters get the replies that their commands get one after another. The history with the commands that their answers
/// accept is the history after these commands.
pub fn judged_is_answered()
    ensures { JudgedIsAnswered }
{}

/// An auction's value answers letters as each history that it shows does.
pub fn judged_is_shown()
    ensures { JudgedIsShown }
{}
