//! The values that the committer takes to its work, and those that it hands back.
ghost use Rattle.std.specs.Prelude.{◌≡◌, [], vec_len};
ghost use Rattle.hpb_rings.specs.Gathering.{gathered};
ghost use Rattle.hpb_house.specs.Owing.{IsOwed};

use crate::keeper::Halt;
use crate::naming::Naming;
use hpb_board::Front;
use hpb_rings::Intake;
use std::marker::PhantomData;
use std::thread::Promise;

/// The committer's share of the house of this name: the rings of all seats, and a front of the house's list. All
/// letters that came through these rings are on that list, each once.
#[derive(Drop)]
pub struct Incoming<J: Naming> {
    /// The committer's side of the rings.
    pub intake: Intake<Halt>,
    /// Its front of the list.
    pub front: Front,
    of: PhantomData<J>,
    pub ghost seats: { vec_len intake.rings ≡ J.eye.seats },
    pub ghost book: { front.trail.book ≡ J.eye.book },
    pub ghost none: { IsOwed (gathered intake.rings.items) front.trail.log [] },
}

impl<J: Naming> Incoming<J> {
    /// The rings and the front of the house, as one value.
    pub(crate) fn new(intake: Intake<Halt>, front: Front) -> Incoming<J>
        requires seats { vec_len intake.rings ≡ J.eye.seats }
        requires book { front.trail.book ≡ J.eye.book }
        requires none { IsOwed (gathered intake.rings.items) front.trail.log [] }
        ensures { (result.intake ≡ intake) × (result.front ≡ front) }
    {
        Incoming {
            intake,
            front,
            of: PhantomData,
        }
    }
}

/// The values that the committer hands back at its end.
#[derive(Drop)]
pub struct Settled {
    /// The committer's side of the rings.
    pub intake: Intake<Halt>,
    /// Its front of the list.
    pub front: Front,
}

/// The promise that the committer of this house ends as `IsSettled` says. Its thread is started with this promise, so
/// the thread that joins it may rely on it.
#[derive(Drop)]
pub struct Settles<J: Naming> {
    of: PhantomData<J>,
}

impl<J: Naming> Settles<J> {
    pub fn new() -> Settles<J> {
        Settles { of: PhantomData }
    }
}

impl<J: Naming> Promise<Settled> for Settles<J> {
    ghost use Rattle.hpb_house.specs.Committing.{IsSettled};

    ghost kept_by = { λ _ settled. IsSettled J.eye settled };
}
