//! A house whose checkpointer gets no turn before all other threads have ended.
ghost use Rattle.std.specs.Prelude.{◌≡◌, []};
ghost use Rattle.std.specs.Thread.{IsSend, IsSync};
ghost use Rattle.hpb_house.specs.Namings.{IsOf};
ghost use Rattle.hpb_house.specs.Starts.{AreBegun};

use crate::harness::{Session, finish};
use hpb_disk::{Disk, MemoryDisk, OnceDisk};
use hpb_house::{
    Gate, Halt, House, Incoming, Naming, OpenGate, Ready, Started, checkpointer, committer,
};
use hpb_recover::Opened;
use hpb_rings::Client;
use std::alloc::{AllocError, Global};
use std::marker::Brand;
use std::sync::Wait;
use std::test::Fail;
use std::thread;
use std::thread::Threads;

/// Runs the session of a client beside the committer of its house, both to their ends.
fn run_committer<
    D: Disk + Drop + Send,
    W: Wait + Drop + Send,
    J: Naming + Send + Sync,
    S: Session,
    R: Threads + Wait + Sync,
>(
    rt: &R,
    house: &House<D, W, J>,
    incoming: Incoming<J>,
    client: Client<Halt>,
    session: &S,
) -> Result<(), AllocError> {
    thread::scope(
        thread::scope_env(),
        rt,
        move |scope| -> Result<(), AllocError>
            requires cross { IsSend D.row × IsSend W.row × IsSend J.row × IsSync J.row × IsSync R.row }
        {
            let committing = scope.spawn(move || committer(rt, house, incoming, &OpenGate))?;
            let _ = finish(rt, session.run(rt, client));
            let _ = committing.join(rt);
            Ok(())
        },
    )
}

/// Runs a house with the first of its clients. Its checkpointer starts once the committer has ended. Says whether the
/// checkpointer ends with a halt.
fn run_ready<
    D: Disk + Drop + Send,
    W: Wait + Drop + Send,
    J: Naming + Send + Sync,
    G: Gate,
    S: Session,
    R: Threads + Wait + Sync,
>(
    rt: &R,
    house: &House<D, W, J>,
    incoming: Incoming<J>,
    clients: Vec<Client<Halt>>,
    gate: &G,
    session: &S,
) -> Result<bool, Fail> {
    let mut clients = clients;
    let Some(client) = clients.pop() else {
        return Err(Fail::new("the house has no client"));
    };
    run_committer(rt, house, incoming, client, session)?;
    Ok(checkpointer(rt, house, gate).is_err())
}

/// Gives its name to a house that was started for one session, and runs it as `run_ready` does.
fn run_started<
    J: Naming + Send + Sync,
    D: Disk + Drop + Send,
    W: Wait + Drop + Send,
    G: Gate,
    S: Session,
    R: Threads + Wait + Sync,
>(rt: &R, started: Started<D, W>, gate: &G, session: &S) -> Result<bool, Fail>
    requires eye { (started.eye ≡ J.eye) × (started.eye.list ≡ []) }
    requires own { IsOf D.device J.eye J.device started.keeper }
    requires clients { started.clients.items ≡ J.clients }
    requires begun { AreBegun started.eye started.clients.items started.eye.seats }
{
    let Ready {
        house,
        incoming,
        clients,
    } = started.named::<J>();
    let is_halted = run_ready(rt, &house, incoming, clients, gate, session);
    drop(house);
    is_halted
}

/// Starts a house over an opened device, for one session. Its checkpointer starts once the committer has ended, and
/// reports its points to the gate. Says whether the checkpointer ends with a halt.
pub(crate) fn run_late<G: Gate, S: Session, R: Threads + Wait + Sync>(
    rt: &R,
    alloc: Global,
    opened: Box<Opened<OnceDisk<MemoryDisk>>>,
    gate: &G,
    session: &S,
) -> Result<bool, Fail> {
    let Ok(started) = House::start(rt, alloc, Box::into_inner(opened), 1) else {
        return Err(Fail::new("the house was not started"));
    };
    run_started::<Brand, OnceDisk<MemoryDisk>, &R, G, S, R>(rt, started, gate, session)
}
