//! The laws of the program's words.
ghost use Rattle.hpb_words.specs.Limits.{LimitsAre};
ghost use Rattle.hpb_words.specs.Words.{WordsAskFor};

/// The results of `clap` for the program's words, in cases. No words and an end of options ask for a script. Others ask
/// for help or the version, and words that the program doesn't know are wrong.
pub fn words_ask_for()
    ensures { WordsAskFor }
{}

/// Each limit of the words is the one in the documents.
pub fn limits_are()
    ensures { LimitsAre }
{}
