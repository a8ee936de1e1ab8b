ghost use Rattle.hpb_server.specs.ScriptLaws.{InputIsText, SessionIsText};

/// An auction in memory that shows a history answers an input with the text of lines after it. It then shows the
/// history that the input leads to.
pub fn input_is_text()
    ensures { InputIsText }
{}

/// A session with an auction in memory answers all that it reads, with that text. At a fault a front of the text is
/// written, as much as the fault leaves.
pub fn session_is_text()
    ensures { SessionIsText }
{}
