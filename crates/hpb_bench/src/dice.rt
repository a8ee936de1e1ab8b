//! Numbers that look random, the same for a seed each time.
ghost use Rattle.std.specs.Prelude.{◌<◌};

/// The xorshift generator of 64 bits.
#[derive(Drop)]
pub(crate) struct Dice {
    state: u64,
}

impl Dice {
    /// Dice with a seed. Seed 0 would give 0 each time, so it counts as 1.
    pub(crate) fn new(seed: u64) -> Dice {
        Dice { state: seed.max(1) }
    }

    /// The next number of 64 bits.
    pub(crate) fn roll(&mut self) -> u64 {
        let mut state = self.state;
        state ^= state << 13;
        state ^= state >> 7;
        state ^= state << 17;
        self.state = state;
        state
    }

    /// A number below a bound.
    pub(crate) fn below(&mut self, bound: usize) -> usize
        requires { 0 < bound }
        ensures { result < bound }
    {
        (self.roll() % bound as u64) as usize
    }

    /// Yes once in this many times.
    pub(crate) fn once_in(&mut self, times: usize) -> bool
        requires { 0 < times }
    {
        self.below(times) == 0
    }

    /// Fills bytes, eight by a roll.
    pub(crate) fn fill(&mut self, bytes: &mut [u8]) {
        for part in bytes.chunks_mut(8) {
            for (byte, given) in part.iter_mut().zip(self.roll().to_be_bytes()) {
                *byte = given;
            }
        }
    }
}
