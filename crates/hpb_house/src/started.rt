//! A house after its start: before it has a name, and under one.
ghost use Rattle.std.specs.Prelude.{◌≡◌, [], vec_len};
ghost use Rattle.hpb_rings.specs.Gathering.{gathered};
ghost use Rattle.hpb_house.specs.Owing.{IsOwed};

use crate::house::House;
use crate::incoming::Incoming;
use crate::keeper::{Halt, Keeper};
use crate::naming::Naming;
use crate::own::Own;
use hpb_board::{Front, Viewer};
use hpb_disk::Disk;
use hpb_rings::{Client, Intake};
use std::alloc::Global;
use std::sync::{Arc, Mutex, Wait};
use std::thread::Parker;

/// A house that has no name yet, with the parts that its threads need. Every letter that came through its rings is on
/// its list.
///
/// Its parts are public, so that a keeper can be driven without threads. The front is of the board of `eye` (`book`). A
/// name requires the same of keeper and clients (`own` and `begun` of `named`). It doesn't require that the intake has
/// the rings of these clients; `House::start` ensures that (`joined`).
#[derive(Drop)]
pub struct Started<D: Disk + Drop, W: Wait + Drop> {
    /// The keeper, not yet under its lock.
    pub keeper: Keeper<D, W>,
    /// A viewer that never views: it shows the opened auction.
    pub eye: Viewer,
    pub(crate) bell: Arc<Parker, Global>,
    /// The committer's front of the list.
    pub front: Front,
    /// The committer's side of the rings.
    pub intake: Intake<Halt>,
    /// A client for each seat, from 0 on.
    pub clients: Vec<Client<Halt>>,
    pub ghost seats: { vec_len intake.rings ≡ eye.seats },
    pub ghost book: { front.trail.book ≡ eye.book },
    pub ghost none: { IsOwed (gathered intake.rings.items) front.trail.log [] },
}

/// A house with the parts that its threads need.
#[derive(Drop)]
pub struct Ready<D: Disk + Drop, W: Wait + Drop, J: Naming> {
    pub house: House<D, W, J>,
    /// The committer's share.
    pub incoming: Incoming<J>,
    /// A client for each seat, from 0 on.
    pub clients: Vec<Client<Halt>>,
}

impl<D: Disk + Drop, W: Wait + Drop> Started<D, W> {
    ghost use Rattle.hpb_house.specs.Namings.{IsOf};
    ghost use Rattle.hpb_house.specs.Starts.{AreBegun};

    /// Gives the house its name, which no other house has.
    pub fn named<J: Naming>(self) -> Ready<D, W, J>
        requires eye { (self.eye ≡ J.eye) × (self.eye.list ≡ []) }
        requires own { IsOf D.device J.eye J.device self.keeper }
        requires clients { self.clients.items ≡ J.clients }
        requires begun { AreBegun self.eye self.clients.items self.eye.seats }
        ensures house { result.house ≡ self.eye }
        ensures incoming { (result.incoming.intake ≡ self.intake) × (result.incoming.front ≡ self.front) }
        ensures clients { result.clients ≡ self.clients }
    {
        let Started {
            keeper,
            eye,
            bell,
            front,
            intake,
            clients,
            ..
        } = self;
        Ready {
            house: House {
                keeper: Mutex::new(Own::new(keeper)),
                eye,
                committing: bell,
                checkpointing: Parker::new(),
                over: Mutex::new(None),
            },
            incoming: Incoming::new(intake, front),
            clients,
        }
    }
}
