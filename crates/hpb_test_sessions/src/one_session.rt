//! A house with its two workers, and a session with its only client.
ghost use Rattle.std.specs.Prelude.{◌≡◌, [], ◌∷◌, IfOk, IfSome, length};
ghost use Rattle.std.specs.Thread.{IsSend, IsSync};
ghost use Rattle.hpb_house.specs.Clients.{AreReportsOf, IsReportOf};
ghost use Rattle.hpb_house.specs.Namings.{IsOf};
ghost use Rattle.hpb_house.specs.Starts.{AreBegun};
ghost use Rattle.hpb_rings.specs.declared.report.Report.{Report};
ghost use Rattle.hpb_serve.specs.declared.end.SessionEnd.TheVariants.{Finished};

use crate::devices::{faulty_opened, new_opened};
use anyhow::{Result, bail};
use hpb_codec::JournalShape;
use hpb_disk::Disk;
use hpb_house::{Gates, Halt, House, Incoming, Naming, OpenGate, Ready, Started, Workers};
use hpb_recover::Opened;
use hpb_rings::Client;
use hpb_serve::{HouseDesk, Session, SessionEnd, run_session};
use hpb_server::SessionFault;
use std::alloc::{AllocError, Global};
use std::io::Write;
use std::marker::Brand;
use std::sync::Wait;
use std::thread;
use std::thread::Threads;

/// The result of a session, and of its house when that was closed.
#[derive(Clone, Copy, Debug, PartialEq, Eq)]
pub(crate) struct Outcome {
    /// The fault that ended the session before the end of its input, if one did.
    pub(crate) fault: Result<(), SessionFault>,
    /// How many answers its client took.
    pub(crate) taken: u64,
    /// How many commands are accepted in all.
    pub(crate) count: u32,
    /// Whether a call of the device has failed.
    pub(crate) has_failed: bool,
}

/// Runs a session on these lines beside the two workers of its house, until all have ended.
fn run_threads<
    D: Disk + Drop + Send,
    W: Wait + Drop + Send,
    J: Naming + Send + Sync,
    R: Threads + Wait + Sync,
    O: Write,
>(
    rt: &R,
    alloc: Global,
    house: &House<D, W, J>,
    incoming: Incoming<J>,
    client: Client<Halt>,
    lines: &[u8],
    output: &mut O,
) -> Result<Session<Halt>, AllocError>
    requires idle { client.waiting.items ≡ [] }
    ensures { IfOk result (λ session. (report : Report) → session.end ≡ Finished report → IsReportOf client report) }
{
    thread::scope(
        thread::scope_env(),
        rt,
        move |scope| -> Result<Session<Halt>, AllocError>
            requires cross { IsSend D.row × IsSend W.row × IsSend J.row × IsSync J.row × IsSync R.row }
            requires idle { client.waiting.items ≡ [] }
            ensures { IfOk result (λ session. (report : Report) → session.end ≡ Finished report → IsReportOf client report) }
        {
            let gates = Gates {
                commits: OpenGate,
                checkpoints: OpenGate,
            };
            let workers = Workers::start(scope, rt, house, incoming, gates)?;
            let mut input = lines;
            let session = run_session(alloc, &mut input, output, HouseDesk::new(rt, client));
            let _ = workers.join(rt);
            Ok(session)
        },
    )
}

/// The only client of a house.
fn only_client(clients: Vec<Client<Halt>>) -> Option<Client<Halt>>
    requires { length clients.items ≡ 1 }
    ensures { IfSome result (λ client. clients.items ≡ client ∷ []) }
{
    let mut clients = clients;
    clients.pop()
}

/// Closes a house whose only session has ended.
fn close_house<D: Disk + Drop, W: Wait + Drop, J: Naming>(
    house: House<D, W, J>,
    session: Session<Halt>,
) -> Result<Outcome>
    requires { (report : Report) → session.end ≡ Finished report → AreReportsOf J.clients (report ∷ []) }
{
    let Session { end, fault } = session;
    let SessionEnd::Finished(report) = end else {
        bail!("the client has not finished");
    };
    let taken = report.taken;
    match house.close(&mut [report]) {
        Ok(closing) => Ok(Outcome {
            fault,
            taken,
            count: closing.auction.count(),
            has_failed: closing.has_failed,
        }),
        Err(_) => bail!("what the client took isn't what was committed"),
    }
}

/// Runs a session on these lines with the only client of a house that was started, gives the house its name, and closes
/// it.
fn run_started<
    J: Naming + Send + Sync,
    D: Disk + Drop + Send,
    W: Wait + Drop + Send,
    R: Threads + Wait + Sync,
    O: Write,
>(rt: &R, alloc: Global, started: Started<D, W>, lines: &[u8], output: &mut O) -> Result<Outcome>
    requires eye { (started.eye ≡ J.eye) × (started.eye.list ≡ []) }
    requires own { IsOf D.device J.eye J.device started.keeper }
    requires clients { started.clients.items ≡ J.clients }
    requires seats { started.eye.seats ≡ 1 }
    requires begun { AreBegun started.eye started.clients.items started.eye.seats }
{
    let Ready {
        house,
        incoming,
        clients,
    } = started.named::<J>();
    let Some(client) = only_client(clients) else {
        bail!("the house has no client");
    };
    let session = run_threads(rt, alloc, &house, incoming, client, lines, output)?;
    close_house(house, session)
}

/// Starts a house over an opened device, runs a session on these lines with its only client, and closes it.
fn run_on_house<D: Disk + Drop + Send, R: Threads + Wait + Sync, O: Write>(
    rt: &R,
    alloc: Global,
    opened: Opened<D>,
    lines: &str,
    output: &mut O,
) -> Result<Outcome> {
    let Ok(started) = House::start(rt, alloc, opened, 1) else {
        bail!("the house was not started");
    };
    run_started::<Brand, D, &R, R, O>(rt, alloc, started, lines.as_bytes(), output)
}

/// Runs a session on a house over a new device in memory.
pub(crate) fn run_on_new_device<R: Threads + Wait + Sync, O: Write>(
    rt: &R,
    alloc: Global,
    shape: JournalShape,
    lines: &str,
    output: &mut O,
) -> Result<Outcome> {
    run_on_house(rt, alloc, new_opened(alloc, shape)?, lines, output)
}

/// The same over a device with one call that fails: the one of this number after the opening, counted from 1.
pub(crate) fn run_on_faulty_device<R: Threads + Wait + Sync, O: Write>(
    rt: &R,
    alloc: Global,
    shape: JournalShape,
    call: u64,
    lines: &str,
    output: &mut O,
) -> Result<Outcome> {
    run_on_house(rt, alloc, faulty_opened(alloc, shape, call)?, lines, output)
}
