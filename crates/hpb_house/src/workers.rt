//! The workers of a house, each in a thread of its own.
ghost use Rattle.hpb_house.specs.Committing.{IsSettled};

use crate::checkpointing::checkpointer;
use crate::committing::committer;
use crate::gate::{Gate, Gates};
use crate::house::House;
use crate::incoming::{Incoming, Settled, Settles};
use crate::keeper::Halt;
use crate::naming::Naming;
use crate::over::Over;
use hpb_disk::Disk;
use std::alloc::AllocError;
use std::sync::Wait;
use std::thread::{JoinHandle, PromisedHandle, Scope, Threads};

/// The two workers of a house, each in a thread of its own.
#[derive(Drop)]
pub struct Workers<J: Naming> {
    committing: PromisedHandle<Settled, Settles<J>>,
    checkpointing: JoinHandle<Result<Over<J>, Halt>>,
}

impl<J: Naming> Workers<J> {
    /// Starts the workers, each with a gate to which it reports the points that it passes.
    ///
    /// 90 `memory` if a thread is refused. If the committer was started before, it ends by itself once every client is
    /// finished.
    pub fn start<
        's,
        E,
        D: Disk + Drop + Send,
        W: Wait + Drop + Send,
        C: Gate + Drop + Send + 's,
        G: Gate + Drop + Send + 's,
        R: Threads + Wait + Sync,
    >(
        scope: &Scope<'s, E>,
        rt: &'s R,
        house: &'s House<D, W, J>,
        incoming: Incoming<J>,
        gates: Gates<C, G>,
    ) -> Result<Workers<J>, AllocError>
    where
        J: Send + Sync,
    {
        let Gates {
            commits,
            checkpoints,
        } = gates;
        let commit = move || committer(rt, house, incoming, &commits);
        let committing = scope.spawn_with(Settles::<J>::new(), commit)?;
        let checkpoint = move || checkpointer(rt, house, &checkpoints);
        let checkpointing = scope.spawn(checkpoint)?;
        Ok(Workers {
            committing,
            checkpointing,
        })
    }

    /// Waits until both have ended: returns the committer's remains, and why the checkpointer ended.
    pub fn join<R: Threads>(self, rt: &R) -> (Settled, Result<Over<J>, Halt>)
        ensures { IsSettled J.eye result.0 }
    {
        let Workers {
            committing,
            checkpointing,
        } = self;
        let settled = committing.join(rt);
        (settled, checkpointing.join(rt))
    }
}
