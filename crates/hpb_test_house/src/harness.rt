//! A house with all its threads: the two workers, and one for each client.
ghost use Rattle.std.specs.Prelude.{◌≡◌, ◌≤◌, ◌⊎◌, [], true, IfOk, map};
ghost use Rattle.std.specs.Thread.{IsSend, IsSync};
ghost use Rattle.hpb_house.specs.Clients.{AreReportsOf, IsReportOf, SameClient};
ghost use Rattle.hpb_house.specs.Namings.{IsOf};
ghost use Rattle.hpb_house.specs.Starts.{AreBegun};
ghost use Rattle.hpb_rules.specs.declared.limits.TheConstants.{MOST_SEATS};

use hpb_disk::{Disk, MemoryDisk, OnceDisk};
use hpb_house::{
    CloseFault, Closing, Gate, Gates, Halt, House, Incoming, Naming, Ready, Started, Workers,
};
use hpb_recover::Opened;
use hpb_rings::{Client, Report};
use std::alloc::{AllocError, Global};
use std::marker::Brand;
use std::snapshot::Snapshot;
use std::sync::Wait;
use std::test::Fail;
use std::thread;
use std::thread::{Promise, PromisedHandle, Scope, Threads};

/// The work of a house's clients while it is open. Each call runs in a thread of its own.
pub(crate) trait Session {
    ghost use Rattle.hpb_house.specs.Clients.{SameClient};

    fn run<R: Wait>(&self, rt: &R, client: Client<Halt>) -> Client<Halt>
        ensures same { SameClient client result };
}

/// The result of a house that was closed.
#[derive(Clone, Copy, Debug, PartialEq, Eq)]
pub(crate) struct Outcome {
    /// Whether the counts were equal.
    pub(crate) is_closed: bool,
    /// How many commands were committed since the opening.
    pub(crate) committed: u64,
    /// How many answers the clients took.
    pub(crate) taken: u64,
    /// How many of these newly accepted a command.
    pub(crate) accepted: u64,
}

/// A house that was closed, with its device.
#[derive(Drop)]
pub(crate) struct Run<D: Disk + Drop> {
    pub(crate) outcome: Outcome,
    pub(crate) disk: D,
}

/// The proof that a report is this client's.
#[derive(Drop)]
struct OfClient {
    client: Snapshot<Client<Halt>>,
}

impl Promise<Report> for OfClient {
    ghost use Rattle.hpb_house.specs.Clients.{IsReportOf};

    ghost kept_by = { λ promise report. IsReportOf promise.client.value report };
}

/// Takes answers until no letter waits, or the client is halted.
fn settle<R: Wait>(rt: &R, client: &mut Client<Halt>)
    ensures same { SameClient client.old client.new }
    ensures settled { (client.new.waiting.items ≡ []) ⊎ (client.new.is_halted ≡ true) }
{
    for _ in rt.forever() {
        if client.outstanding() == 0 || client.halted() {
            return;
        }
        let _ = client.poll();
        match client.take() {
            Ok(Some(_)) => {}
            Ok(None) | Err(_) => client.wait(rt),
        }
    }
    unreachable!()
}

/// Takes the answers that are left, and finishes the client.
pub(crate) fn finish<R: Wait>(rt: &R, client: Client<Halt>) -> Report
    ensures { IsReportOf client result }
{
    let mut client = client;
    settle(rt, &mut client);
    for _ in rt.forever() {
        match client.finish() {
            Ok(report) => return report,
            Err(back) => client = back,
        }
        // Its bell rings when its letters are taken out of the ring.
        client.wait(rt);
    }
    unreachable!()
}

/// A client's thread.
fn serve<S: Session, R: Wait>(rt: &R, session: &S, client: Client<Halt>) -> Report
    ensures { IsReportOf client result }
{
    finish(rt, session.run(rt, client))
}

/// Starts a thread for each client. They go into a list that is empty, and whose room was made before.
fn start_clients<'s, E, S: Session + Sync, R: Threads + Wait + Sync>(
    scope: &Scope<'s, E>,
    rt: &'s R,
    session: &'s S,
    clients: Vec<Client<Halt>>,
    threads: Vec<PromisedHandle<Report, OfClient>>,
) -> Result<Vec<PromisedHandle<Report, OfClient>>, AllocError>
    requires { threads.items ≡ [] }
    ensures { IfOk result (λ started. map (λ thread. thread.promise.client.value) started.items ≡ clients.items) }
{
    let mut threads = threads;
    for client in clients {
        let promise = OfClient {
            client: Snapshot::of(&client),
        };
        threads.push(scope.spawn_with(promise, move || serve(rt, session, client))?)?;
    }
    Ok(threads)
}

/// Runs the threads of a house to their ends. The checkpointer reports its points to the gate.
fn run_threads<
    D: Disk + Drop + Send,
    W: Wait + Drop + Send,
    J: Naming + Send + Sync,
    G: Gate + Sync,
    S: Session + Sync,
    R: Threads + Wait + Sync,
>(
    rt: &R,
    alloc: Global,
    house: &House<D, W, J>,
    incoming: Incoming<J>,
    clients: Vec<Client<Halt>>,
    gate: &G,
    session: &S,
) -> Result<Vec<Report>, AllocError>
    ensures { IfOk result (λ reports. AreReportsOf clients.items reports.items) }
{
    thread::scope(
        thread::scope_env(),
        rt,
        move |scope| -> Result<Vec<Report>, AllocError>
            requires cross { IsSend D.row × IsSend W.row × IsSend J.row × IsSync J.row × IsSync G.row × IsSync S.row × IsSync R.row }
            ensures { IfOk result (λ reports. AreReportsOf clients.items reports.items) }
        {
            let room = Vec::with_capacity(alloc, clients.len())?;
            let gates = Gates {
                commits: gate,
                checkpoints: gate,
            };
            let workers = Workers::start(scope, rt, house, incoming, gates)?;
            let threads = start_clients(scope, rt, session, clients, room)?;
            let reports = thread::join_promised(rt, threads)?;
            let _ = workers.join(rt);
            Ok(reports)
        },
    )
}

/// How many answers were taken, and how many of these newly accepted a command.
fn sums(reports: &[Report]) -> (u64, u64) {
    let mut taken = 0u64;
    let mut accepted = 0u64;
    for report in reports {
        taken = taken.saturating_add(report.taken);
        accepted = accepted.saturating_add(report.accepted);
    }
    (taken, accepted)
}

/// The result of a house, by its closing and by the answers that its clients took.
fn ended<D: Disk + Drop>(
    closed: Result<Closing<D>, CloseFault<D>>,
    opened: u32,
    sums: (u64, u64),
) -> Run<D> {
    let (taken, accepted) = sums;
    match closed {
        Ok(Closing { disk, auction, .. }) => Run {
            outcome: Outcome {
                is_closed: true,
                committed: u64::from(auction.count().saturating_sub(opened)),
                taken,
                accepted,
            },
            disk,
        },
        Err(CloseFault { left, counts }) => Run {
            outcome: Outcome {
                is_closed: false,
                committed: counts.committed,
                taken,
                accepted,
            },
            disk: left.disk,
        },
    }
}

/// Runs all threads of a house that was started, gives the house its name, and closes it. `before` commands were
/// accepted when it was opened.
fn run_started<
    J: Naming + Send + Sync,
    D: Disk + Drop + Send,
    W: Wait + Drop + Send,
    G: Gate + Sync,
    S: Session + Sync,
    R: Threads + Wait + Sync,
>(
    rt: &R,
    alloc: Global,
    started: Started<D, W>,
    before: u32,
    gate: &G,
    session: &S,
) -> Result<Run<D>, Fail>
    requires eye { (started.eye ≡ J.eye) × (started.eye.list ≡ []) }
    requires own { IsOf D.device J.eye J.device started.keeper }
    requires clients { started.clients.items ≡ J.clients }
    requires begun { AreBegun started.eye started.clients.items started.eye.seats }
{
    let Ready {
        house,
        incoming,
        clients,
    } = started.named::<J>();
    let mut reports = run_threads(rt, alloc, &house, incoming, clients, gate, session)?;
    let sums = sums(&reports);
    let closed = house.close(&mut reports);
    Ok(ended(closed, before, sums))
}

/// Starts a house over an opened device, with a client for each of these sessions, runs all its threads and closes it.
fn run_house<D: Disk + Drop + Send, G: Gate + Sync, S: Session + Sync, R: Threads + Wait + Sync>(
    rt: &R,
    alloc: Global,
    opened: Box<Opened<D>>,
    sessions: u8,
    gate: &G,
    session: &S,
) -> Result<Run<D>, Fail>
    requires { (1 ≤ sessions) × (sessions ≤ MOST_SEATS) }
{
    let before = opened.auction().count();
    let Ok(started) = House::start(rt, alloc, Box::into_inner(opened), sessions) else {
        return Err(Fail::new("the house was not started"));
    };
    run_started::<Brand, D, &R, G, S, R>(rt, alloc, started, before, gate, session)
}

/// `run_house` over a device in memory.
pub(crate) fn run_in_memory<G: Gate + Sync, S: Session + Sync, R: Threads + Wait + Sync>(
    rt: &R,
    alloc: Global,
    opened: Box<Opened<MemoryDisk>>,
    sessions: u8,
    gate: &G,
    session: &S,
) -> Result<Run<MemoryDisk>, Fail>
    requires { (1 ≤ sessions) × (sessions ≤ MOST_SEATS) }
{
    run_house(rt, alloc, opened, sessions, gate, session)
}

/// `run_house` over a device in memory with one call that fails.
pub(crate) fn run_with_fault<G: Gate + Sync, S: Session + Sync, R: Threads + Wait + Sync>(
    rt: &R,
    alloc: Global,
    opened: Box<Opened<OnceDisk<MemoryDisk>>>,
    sessions: u8,
    gate: &G,
    session: &S,
) -> Result<Run<OnceDisk<MemoryDisk>>, Fail>
    requires { (1 ≤ sessions) × (sessions ≤ MOST_SEATS) }
{
    run_house(rt, alloc, opened, sessions, gate, session)
}
