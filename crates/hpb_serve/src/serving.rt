//! Serving an auction that was opened.
ghost use Rattle.std.specs.Prelude.{◌≡◌, ◌≤◌, [], IfErr, IfOk};
ghost use Rattle.hpb_house.specs.Namings.{IsOf};
ghost use Rattle.hpb_house.specs.Starts.{AreBegun};
ghost use Rattle.hpb_serve.specs.Announcing.{Announces, IsBehind, listening_line};
ghost use Rattle.hpb_serve.specs.Ended.{EndsAll, EndsIll};
ghost use Rattle.hpb_rules.specs.declared.limits.TheConstants.{MOST_SEATS};

use crate::announcing::announce;
use crate::door::Door;
use crate::fault::{Differing, ServeFault, ThreadsFault};
use crate::hall::Hall;
use crate::port::Port;
use crate::threads::run_threads;
use crate::watching::Watch;
use hpb_disk::Disk;
use hpb_house::{Closing, House, Naming, Ready, Started};
use hpb_recover::Opened;
use hpb_rings::Report;
use std::alloc::Global;
use std::io::Write;
use std::marker::Brand;
use std::net::{Net, TcpListener, TcpStream};
use std::sync::Wait;
use std::thread::Threads;

/// The result of sessions that have all ended.
#[derive(Drop)]
pub struct Served<D: Disk + Drop> {
    /// The remains of the house.
    pub closing: Closing<D>,
    /// The report of each session's client, from seat 0 on.
    pub reports: Vec<Report>,
}

/// Serves 1 to 32 sessions with an opened auction, over connections to the listener of a port.
///
/// Once the house is started, it writes `LISTENING` with the port's number. Then each session gets a thread of its own.
/// Once all have theirs, each accepts its connection, one after another; the last one closes the listener. It waits
/// until all sessions have ended, and closes the house.
///
/// An accept that fails counts as a session that ended. A fault that ends one session, 90 `memory` or 92 `stream`, ends
/// no other.
///
/// The port's watch gets reports of:
/// - each place that is taken, and each that ends;
/// - each accept that fails, after which none is tried for 100 milliseconds;
/// - a thread that is refused;
/// - the first call of the device that fails;
/// - a device that somebody else has written.
///
/// To find the last, it compares the whole device at each checkpoint, until it differs, and once all sessions have
/// ended. The watch itself looks at each checkpoint until it has warned somebody, and once all sessions have ended.
///
/// Refused:
/// - 90 `memory`: memory or a thread is refused, before the line or after it;
/// - 92 `stream`: the line wasn't written;
/// - 94 `place`: a session's place is refused, before anything is written;
/// - 95 `order`: a session left its client, which is handed back;
/// - 96 `counts`: the sessions' answers differ from the committed commands. Their reports are handed back with the
///   remains of the house.
pub fn serve_opened<
    H: Net<Listener = TcpListener, Stream = TcpStream> + Threads + Wait + Sync,
    D: Disk + Drop + Send,
    W: Write,
    V: Watch + Sync,
>(
    rt: &H,
    alloc: Global,
    opened: Opened<D>,
    port: Port<'_, V>,
    output: &mut W,
) -> Result<Served<D>, ServeFault<D>>
    requires { (1 ≤ port.sessions) × (port.sessions ≤ MOST_SEATS) }
    ensures written { Announces (listening_line port.entry.number) (W.contents output.old) (W.contents output.new) result }
    // All sessions have ended. The commands that they reported as newly accepted are those that were committed.
    ensures ended { IfOk result (λ served. EndsAll D.device (D.device opened.disk) opened.plan.auction port.entry.sessions served) }
    // A 95 hands back the client that a session left, for a reason. A 96 hands back the reports, and the device keeps
    // the committed commands.
    ensures ill { IfErr result (EndsIll D.device (D.device opened.disk) opened.plan.auction port.entry.sessions) }
{
    let Port {
        listener,
        number,
        sessions,
        watch,
    } = port;
    let started = match House::start(rt, alloc, opened, sessions) {
        Ok(started) => started,
        Err(fault) => return Err(ServeFault::Start(fault.cause())),
    };
    if let Err(fault) = announce::<D, W>(alloc, number, output) {
        return Err(fault);
    }
    serve_started::<Brand, D, &H, H, V>(rt, alloc, started, listener, watch)
}

/// Serves a session for each client of a house that was started, and gives the house its name.
fn serve_started<
    J: Naming + Send + Sync,
    D: Disk + Drop + Send,
    W: Wait + Drop + Send,
    R: Threads + Wait + Sync,
    V: Watch + Sync,
>(
    rt: &R,
    alloc: Global,
    started: Started<D, W>,
    listener: TcpListener,
    watch: &V,
) -> Result<Served<D>, ServeFault<D>>
    requires eye { (started.eye ≡ J.eye) × (started.eye.list ≡ []) }
    requires own { IsOf D.device J.eye J.device started.keeper }
    requires clients { started.clients.items ≡ J.clients }
    requires begun { AreBegun started.eye started.clients.items started.eye.seats }
    ensures ended { IfOk result (λ served. EndsAll D.device J.device started.eye.opened started.eye.seats served) }
    ensures ill { IfErr result (EndsIll D.device J.device started.eye.opened started.eye.seats) }
    ensures behind { IfErr result IsBehind }
{
    let Ready {
        house,
        incoming,
        clients,
    } = started.named::<J>();
    let door = Door::new(listener, clients.len());
    let hall = Hall {
        alloc,
        door: &door,
        watch,
    };
    let mut reports = match run_threads(rt, &house, incoming, clients, hall) {
        Ok(reports) => reports,
        Err(ThreadsFault::Memory) => return Err(ServeFault::Memory),
        Err(ThreadsFault::Order(client)) => return Err(ServeFault::Order(client)),
    };
    match house.close(&mut reports) {
        Ok(closing) => Ok(Served { closing, reports }),
        Err(fault) => Err(ServeFault::Counts(Differing { fault, reports })),
    }
}
