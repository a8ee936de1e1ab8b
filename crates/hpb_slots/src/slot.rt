ghost use Rattle.std.specs.Prelude.{◌≡◌};

/// One of the two places for a checkpoint.
#[derive(Clone, Copy, Debug, PartialEq, Eq)]
pub enum Slot {
    First,
    Second,
}

impl Slot {
    ghost use Rattle.hpb_slots.specs.Slots.{place_of, other_of};

    /// The other slot.
    pub fn other(self) -> Slot
        ensures { result ≡ other_of self }
    {
        match self {
            Slot::First => Slot::Second,
            Slot::Second => Slot::First,
        }
    }

    /// 0 for the first, 1 for the second.
    pub(crate) fn place(self) -> usize
        ensures { result ≡ place_of self }
    {
        match self {
            Slot::First => 0,
            Slot::Second => 1,
        }
    }
}
