//! The threads of a house: its two workers, and one for each session.
ghost use Rattle.std.specs.Prelude.{◌≡◌, [], All, IfErr, IfOk, map};
ghost use Rattle.std.specs.Thread.{IsSend, IsSync};
ghost use Rattle.hpb_house.specs.Boards.{SameBoard};
ghost use Rattle.hpb_house.specs.Clients.{AreReportsOf};
ghost use Rattle.hpb_serve.specs.Ended.{LeavesOne};
ghost use Rattle.hpb_serve.specs.declared.fault.ThreadsFault.TheVariants.{Memory};

use crate::connection::{Idle, serve_connection};
use crate::ends::{OfClient, join_sessions};
use crate::fault::ThreadsFault;
use crate::hall::Hall;
use crate::watching::{Rounds, Watch, look_last};
use crate::{SessionEnd, finish_client};
use hpb_disk::Disk;
use hpb_house::{Gates, Halt, House, Incoming, Naming, OpenGate, Workers};
use hpb_rings::{Client, Report};
use std::snapshot::Snapshot;
use std::sync::Wait;
use std::thread;
use std::thread::{PromisedHandle, Scope, Threads};

/// Finishes clients that have no session.
fn finish_clients<R: Wait>(rt: &R, clients: Vec<Client<Halt>>)
    requires { All (λ client. client.waiting.items ≡ []) clients.items }
{
    for client in clients {
        finish_client(rt, client);
    }
}

/// Starts a session for each client, in a thread of its own, before any of them takes a connection.
///
/// 90 `memory` if a thread is refused. The sessions that have one are served all the same, and the other clients are
/// finished.
fn start_sessions<'s, E, R: Threads + Wait + Sync, V: Watch + Sync>(
    scope: &Scope<'s, E>,
    rt: &'s R,
    clients: Vec<Client<Halt>>,
    hall: Hall<'s, V>,
    threads: Vec<PromisedHandle<SessionEnd<Halt>, OfClient>>,
) -> Result<Vec<PromisedHandle<SessionEnd<Halt>, OfClient>>, ThreadsFault>
    requires idle { All (λ client. client.waiting.items ≡ []) clients.items }
    requires none { threads.items ≡ [] }
    ensures clients { IfOk result (λ started. map (λ thread. thread.promise.client.value) started.items ≡ clients.items) }
    ensures fault { IfErr result (λ fault. fault ≡ Memory) }
{
    let Hall { alloc, door, watch } = hall;
    let shut = door.hold(rt);
    let sessions = clients.len();
    let mut threads = threads;
    let mut is_whole = true;
    for client in clients {
        if !is_whole {
            finish_client(rt, client);
            continue;
        }
        let promise = OfClient {
            client: Snapshot::of(&client),
        };
        let idle = Idle::new(client, threads.len(), sessions);
        let session = move || serve_connection(rt, Hall { alloc, door, watch }, idle);
        match scope.spawn_with(promise, session) {
            Ok(thread) => {
                if threads.push(thread).is_err() {
                    is_whole = false;
                    // This session runs, and is the last.
                    door.admit(threads.len().saturating_add(1));
                }
            }
            Err(refused) => {
                watch.refused_thread();
                is_whole = false;
                // This session has no thread in which to wait: the door won't admit it, and its client is finished.
                door.admit(threads.len());
                let session = refused.value;
                session();
            }
        }
    }
    drop(shut);
    if is_whole {
        Ok(threads)
    } else {
        Err(ThreadsFault::Memory)
    }
}

/// Runs the workers of a house and a session for each client, and waits for all of them. Returns the report of each
/// client.
///
/// 90 `memory` if memory or a thread is refused. 95 `order` if a session left its client, which is handed back. Each
/// client that has no session is finished, so that the committer ends.
///
/// A watch gets reports of each place that is taken or ends, of accepts that fail, and of a thread that is refused. It
/// also gets those of a device that fails or that somebody else has written. It looks at each checkpoint, and at the
/// end unless a thread was refused.
pub(crate) fn run_threads<
    D: Disk + Drop + Send,
    W: Wait + Drop + Send,
    J: Naming + Send + Sync,
    R: Threads + Wait + Sync,
    V: Watch + Sync,
>(
    rt: &R,
    house: &House<D, W, J>,
    incoming: Incoming<J>,
    clients: Vec<Client<Halt>>,
    hall: Hall<'_, V>,
) -> Result<Vec<Report>, ThreadsFault>
    requires ready { All (λ client. SameBoard house.now client.viewer × (client.waiting.items ≡ [])) clients.items }
    ensures reports { IfOk result (λ reports. AreReportsOf clients.items reports.items) }
    ensures left { IfErr result (LeavesOne house.now.opened (map (λ client. client.seat) clients.items)) }
{
    let Hall { alloc, door, watch } = hall;
    thread::scope(
        thread::scope_env(),
        rt,
        move |scope| -> Result<Vec<Report>, ThreadsFault>
            requires cross { IsSend D.row × IsSend W.row × IsSend J.row × IsSync J.row × IsSync R.row × IsSync V.row }
            requires ready { All (λ client. SameBoard house.now client.viewer × (client.waiting.items ≡ [])) clients.items }
            ensures reports { IfOk result (λ reports. AreReportsOf clients.items reports.items) }
            ensures left { IfErr result (LeavesOne house.entry.now.opened (map (λ client. client.seat) clients.items)) }
        {
            let reports = Vec::with_capacity(alloc, clients.len())?;
            let room = Vec::with_capacity(alloc, clients.len())?;
            let gates = Gates {
                commits: OpenGate,
                checkpoints: Rounds::new(house, watch),
            };
            let Ok(workers) = Workers::start(scope, rt, house, incoming, gates) else {
                watch.refused_thread();
                finish_clients(rt, clients);
                return Err(ThreadsFault::Memory);
            };
            let threads = start_sessions(scope, rt, clients, Hall { alloc, door, watch }, room)?;
            let joined = join_sessions(rt, house, threads, reports);
            let _ = workers.join(rt);
            look_last(rt, house, watch);
            joined
        },
    )
}
