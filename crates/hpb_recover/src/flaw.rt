ghost use Rattle.std.specs.Prelude.{◌≡◌};
ghost use Rattle.hpb_recover.specs.Flaws.{refusal_of};

use hpb_rules::Refusal;
use thiserror::Error;

/// Why the image of a device is refused: the number and the word of the refusal, as in an `ERR` line. An image has at
/// most one flaw.
#[derive(Clone, Copy, Debug, PartialEq, Eq, Error)]
pub enum Flaw {
    /// 40 `unformatted`: it doesn't have whole pages, at least 17, or its head's gate isn't open, or the magic isn't
    /// there.
    #[error("unformatted")]
    Unformatted,
    /// 42 `layout`: its head, nodes or bidders aren't in the format, or it doesn't have the length for its layout.
    #[error("layout")]
    Layout,
    /// 44 `checkpoint`: no slot is open with a body that spells a state.
    #[error("checkpoint")]
    Checkpoint,
    /// 45 `frame`: a frame behind the checkpoint is open with its own index and doesn't continue the batches before it.
    #[error("frame")]
    Frame,
}

impl Flaw {
    /// The refusal that reports this flaw.
    pub fn refusal(self) -> Refusal
        ensures { result ≡ refusal_of self }
    {
        match self {
            Flaw::Unformatted => Refusal::Unformatted,
            Flaw::Layout => Refusal::Layout,
            Flaw::Checkpoint => Refusal::Checkpoint,
            Flaw::Frame => Refusal::Frame,
        }
    }
}
