//! The contents of a ring of letters.
ghost use Rattle.std.specs.Prelude.{◌≡◌};
ghost use Rattle.hpb_rings.specs.declared.slip.Slip.TheVariants.{Letter as Post};

use hpb_rules::Letter;

/// A letter, or the end mark, in a letter ring.
#[derive(Clone, Copy)]
pub enum Slip {
    /// A letter of the client.
    Letter(Letter),
    /// The end mark: no letter of the client comes after it.
    End,
}

impl Slip {
    /// A letter as a ring carries it.
    pub(crate) fn of(letter: &Letter) -> Slip
        ensures { result ≡ Post letter.now }
    {
        Slip::Letter(*letter)
    }
}
