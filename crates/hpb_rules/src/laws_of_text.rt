ghost use Rattle.hpb_rules.specs.TextLaws.{LinesTextJoins, LinesKeepHistory, ScriptTextIsOne, ScriptTextGrows, SpellingIsOne, NamesAreFound, NumberIsOne, RequestIsOne};
ghost use Rattle.hpb_rules.specs.Words.{WordsAre};

/// The text of whole lines with more behind them is the text of the lines, followed by that of the rest.
pub fn lines_text_joins()
    ensures { LinesTextJoins }
{}

/// Lines lead from a history to a history that continues it.
pub fn lines_keep_history()
    ensures { LinesKeepHistory }
{}

/// If the reading of its first line is a function, a script has exactly one text.
pub fn script_text_is_one()
    ensures { ScriptTextIsOne }
{}

/// The text of whole lines of a script is a front of the text of these lines with more behind them.
pub fn script_text_grows()
    ensures { ScriptTextGrows }
{}

/// A line spells a value exactly if it is the spelling of that value, and a line can spell the value.
pub fn spelling_is_one()
    ensures { SpellingIsOne }
{}

/// In a definition each name can stand in a line, and is found at its own place.
pub fn names_are_found()
    ensures { NamesAreFound }
{}

/// A word is a number exactly if it is the number's decimal.
pub fn number_is_one()
    ensures { NumberIsOne }
{}

/// A line asks for a request exactly if it is the one line of that request.
pub fn request_is_one()
    ensures { RequestIsOne }
{}

/// Each refusal has its written number and word, and no two have the same number or the same word.
pub fn words_are()
    ensures { WordsAre }
{}
