//! Why a session gets no more answers of the rules.
ghost use Rattle.std.specs.Prelude.{◌≡◌};
ghost use Rattle.hpb_serve.specs.Stops.{refusal_of};

use hpb_rules::Refusal;

/// Why the commands of a session get no more answers of the rules.
#[derive(Clone, Copy, Debug, PartialEq, Eq)]
pub enum Stop {
    /// 93 `failed`: the client is halted, and one more look found no answer. Each later command is refused so too.
    Halted,
    /// 95 `order`: an answer came that isn't the one for which the client waits. The session is over.
    Order,
}

impl Stop {
    /// The refusal that the command gets.
    pub fn refusal(self) -> Refusal
        ensures { result ≡ refusal_of self }
    {
        match self {
            Stop::Halted => Refusal::Failed,
            Stop::Order => Refusal::Order,
        }
    }
}
