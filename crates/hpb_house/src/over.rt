//! The proof that a house gets no more letters.
ghost use Rattle.std.specs.Prelude.{◌≡◌, All, true, vec_len};
ghost use Rattle.rtrb.specs.Ring.{received};
ghost use Rattle.hpb_rings.specs.Slips.{ends};

use crate::keeper::Halt;
use crate::naming::Naming;
use hpb_rings::Intake;
use std::marker::PhantomData;
use std::snapshot::Snapshot;

/// The proof that an end mark came out of as many rings as the house of this name has seats: no letter comes through
/// these any more.
///
/// No other crate can make one. In this crate only the committer does, in its last lines, from the rings that it was
/// given.
#[derive(Drop)]
pub struct Over<J: Naming> {
    intake: Snapshot<Intake<Halt>>,
    of: PhantomData<J>,
    ghost seats: { vec_len intake.value.rings ≡ J.eye.seats },
    ghost ended: { All (λ r. ends (received r.letters) ≡ true) intake.value.rings.items },
}

impl<J: Naming> Over<J> {
    /// Makes the proof from the committer's side of the rings.
    pub(crate) fn of(intake: &Intake<Halt>) -> Over<J>
        requires seats { vec_len intake.now.rings ≡ J.eye.seats }
        requires ended { All (λ r. ends (received r.letters) ≡ true) intake.now.rings.items }
    {
        Over {
            intake: Snapshot::of(intake),
            of: PhantomData,
        }
    }
}
