//! Serving sessions with the auction that a file keeps.
ghost use Rattle.std.specs.Prelude.{◌≡◌, ◌≤◌, [], IfOk, MatchResult, string_bytes};
ghost use Rattle.hpb_program.specs.Doubts.{TellsKept, TellsServing};
ghost use Rattle.hpb_program.specs.Jobs.{made_of_serving};
ghost use Rattle.hpb_program.specs.Serving.{ServesFile, ServesKept, ServesUnsaid, closed_line};
ghost use Rattle.hpb_messages.specs.Telling.{is_cut, IsTaken};
ghost use Rattle.hpb_server.specs.Writing.{Sends};
ghost use Rattle.hpb_rules.specs.declared.limits.TheConstants.{MOST_SEATS};

use crate::console::Console;
use crate::descriptors::look_for_descriptors;
use crate::lookout::Lookout;
use crate::opening::open_kept;
use crate::relay::Relay;
use hpb_auction::Auction;
use hpb_disk::{Disk, FileDisk};
use hpb_house::{Closing, StartCause};
use hpb_messages::{JobFault, Meddling, Noted};
use hpb_rings::Report;
use hpb_serve::{Port, ServeFault, Served, Unwatched, Watch, serve_opened};
use hpb_server::SessionFault;
use std::alloc::{AllocError, Global};
use std::fs::{File, Files};
use std::io;
use std::io::{Read, Write};
use std::net::{Ipv4Addr, Net, TcpListener, TcpStream};
use std::snapshot::Snapshot;
use std::sync::Wait;
use std::thread::Threads;

/// How many bytes the last line may have: the number of commands has 32 bits, so ten digits at most.
const CLOSED_BYTES: usize = 18;

/// How many sessions are served, and at which port of 127.0.0.1.
#[derive(Clone, Copy, Debug)]
pub struct Seats {
    pub port: u16,
    pub sessions: u8,
}

/// The same, with a watch over them.
#[derive(Drop)]
struct WatchedSeats<'a, V> {
    seats: Seats,
    watch: &'a V,
}

/// The end of serving a device that had begun.
#[derive(Drop)]
pub struct ServeEnd<D: Disk + Drop> {
    /// The sessions' reports, and the remains of the house.
    pub served: Served<D>,
    /// Whether the last line was written.
    pub said: Result<(), SessionFault>,
}

/// The end of serving a file that had begun. The file is closed.
#[derive(Drop)]
pub struct FileEnd {
    /// The disk in the file when it was opened. Only clauses read it.
    pub opened: Snapshot<FileDisk>,
    /// The remains of the house, with the disk before it was closed. Only clauses read them.
    pub left: Snapshot<Closing<FileDisk>>,
    /// The committed auction.
    pub auction: Auction,
    /// Whether a call of the disk has failed (91 `device`).
    pub has_failed: bool,
    /// The system's number of the write or the sync that failed, if the system gave one.
    pub code: Option<i32>,
    /// What somebody else was seen to have done to the file's bytes or length while it was served.
    pub meddling: Option<Meddling>,
    /// The report of each session's client, from seat 0 on.
    pub reports: Vec<Report>,
    /// Whether the last line was written.
    pub said: Result<(), SessionFault>,
}

/// The end of serving, before the last line is written.
#[derive(Drop)]
struct Unsaid<D: Disk + Drop> {
    served: Served<D>,
    /// Room for the last line.
    room: String,
}

/// Serves sessions with the auction that the file of a path keeps, as `serve_kept` does. Before that it checks that the
/// process may have as many connections at a time as that takes. The file is closed before the last line is written.
#[tactic(auto, using(crate::proofs::Served::of_device, crate::proofs::Served::unheld, crate::proofs::Served::unopened_file))]
pub(crate) fn serve_file<
    H: Files<File = File> + Net<Listener = TcpListener, Stream = TcpStream> + Threads + Wait + Sync,
    R: Read,
    W: Write,
    E: Write,
>(
    rt: &H,
    alloc: Global,
    file: &str,
    seats: Seats,
    console: &mut Console<R, W, E>,
) -> Result<FileEnd, JobFault>
    requires { (1 ≤ seats.sessions) × (seats.sessions ≤ MOST_SEATS) }
    ensures told { TellsServing console.old.errors console.new.errors result }
    ensures serves { ServesFile seats console.old.streams.contents console.new.streams.contents result }
    ensures taken { IfOk result (λ end. IsTaken console.new.is_cut end.said) }
    ensures unread { console.new.streams.remaining ≡ console.old.streams.remaining }
{
    let disk = match FileDisk::open(rt, alloc, file) {
        Ok(disk) => disk,
        Err(fault) => return Err(JobFault::from(fault)),
    };
    if let Err(fault) = look_for_descriptors(rt, alloc, seats.sessions) {
        return Err(fault);
    }
    let relay = Relay::start(rt, alloc);
    let lookout = match Lookout::new(rt, alloc, file, &disk, &relay) {
        Ok(lookout) => lookout,
        Err(fault) => return Err(JobFault::from(fault)),
    };
    let opened = Snapshot::of(&disk);
    let watched = WatchedSeats {
        seats,
        watch: &lookout,
    };
    let Unsaid { served, room } = match serve_device(rt, alloc, disk, watched, console) {
        Ok(unsaid) => unsaid,
        Err(fault) => return Err(fault),
    };
    let Served { closing, reports } = served;
    let left = Snapshot::of(&closing);
    let Closing {
        disk,
        auction,
        has_failed,
        ..
    } = closing;
    let code = disk.code();
    let meddling = lookout.meddling();
    // Anyone who reads the last line may open the file, so it is closed first.
    drop(disk);
    match say_closed(room, auction.count(), &mut console.output) {
        Ok(said) => Ok(FileEnd {
            opened,
            left,
            auction,
            has_failed,
            code,
            meddling,
            reports,
            said,
        }),
        Err(_) => Err(JobFault::Memory),
    }
}

/// Serves 1 to 32 sessions with the auction that a device keeps, over connections to a port of 127.0.0.1. `LISTENING`
/// with the port is written once clients can connect to it. `CLOSED` with the number of all accepted commands is
/// written once all sessions have ended.
///
/// If there are doubts about the device, signs of damage that no honest device shows, standard error gets them before
/// anything else. It asks for the port only once the device is opened.
///
/// Refused:
/// - 40 `unformatted`, 42 `layout`, 44 `checkpoint`, 45 `frame` or 91 `device`: the device wasn't opened, and nothing
///   is written;
/// - 92 `stream`: the port was refused, and nothing is written; or the line with the port wasn't written;
/// - 90 `memory` or 94 `place`: the house wasn't started;
/// - 95 `order`: a session took no answer;
/// - 96 `counts`: the sessions' answers differ from the commands that were kept.
///
/// The result has the device. It keeps the history for which it stood when it was opened, and then the commands that
/// the sessions reported as newly accepted.
pub fn serve_kept<
    H: Net<Listener = TcpListener, Stream = TcpStream> + Threads + Wait + Sync,
    D: Disk + Drop + Send,
    R: Read,
    W: Write,
    E: Write,
>(
    rt: &H,
    alloc: Global,
    disk: D,
    seats: Seats,
    console: &mut Console<R, W, E>,
) -> Result<ServeEnd<D>, JobFault>
    requires { (1 ≤ seats.sessions) × (seats.sessions ≤ MOST_SEATS) }
    ensures told { TellsKept (D.device disk).seen console.old.errors console.new.errors result }
    ensures serves { ServesKept D.device (D.device disk) seats console.old.streams.contents console.new.streams.contents result }
    ensures taken { IfOk result (λ end. IsTaken console.new.is_cut end.said) }
    ensures unread { console.new.streams.remaining ≡ console.old.streams.remaining }
{
    let watched = WatchedSeats {
        seats,
        watch: &Unwatched,
    };
    let Unsaid { served, room } = match serve_device(rt, alloc, disk, watched, console) {
        Ok(unsaid) => unsaid,
        Err(fault) => return Err(fault),
    };
    let said = match say_closed(room, served.closing.auction.count(), &mut console.output) {
        Ok(said) => said,
        Err(_) => return Err(JobFault::Memory),
    };
    Ok(ServeEnd { served, said })
}

/// Serves sessions as `serve_kept` does, up to the last line, and reports events beside them to a watch.
#[tactic(auto, using(crate::proofs::Served::unopened, crate::proofs::Doubting::told_not))]
fn serve_device<
    H: Net<Listener = TcpListener, Stream = TcpStream> + Threads + Wait + Sync,
    D: Disk + Drop + Send,
    R: Read,
    W: Write,
    E: Write,
    V: Watch + Sync,
>(
    rt: &H,
    alloc: Global,
    disk: D,
    watched: WatchedSeats<'_, V>,
    console: &mut Console<R, W, E>,
) -> Result<Unsaid<D>, JobFault>
    requires { (1 ≤ watched.seats.sessions) × (watched.seats.sessions ≤ MOST_SEATS) }
    ensures told { TellsKept (D.device disk).seen console.old.errors console.new.errors result }
    ensures serves { ServesUnsaid D.device (D.device disk) watched.entry.seats console.old.streams.contents console.new.streams.contents result }
    ensures unread { console.new.streams.remaining ≡ console.old.streams.remaining }
{
    let opened = open_kept(alloc, disk, &mut console.errors)?;
    // The room of the last line is taken first, so that a failed disk is reported even if memory is refused later.
    let room = String::with_capacity(alloc, CLOSED_BYTES)?;
    let WatchedSeats { seats, watch } = watched;
    let listener = match listen(rt, seats.port) {
        Ok(listener) => listener,
        Err(error) => {
            return Err(JobFault::Port {
                port: seats.port,
                error,
            });
        }
    };
    let port = Port {
        listener,
        number: seats.port,
        sessions: seats.sessions,
        watch,
    };
    let served = match serve_opened(rt, alloc, opened, port, &mut console.output) {
        Ok(served) => served,
        Err(fault) => return Err(fault_of_serving(fault)),
    };
    Ok(Unsaid { served, room })
}

/// The fault of a job whose file was not served, or not to its end.
fn fault_of_serving<D: Disk + Drop>(fault: ServeFault<D>) -> JobFault
    ensures { result ≡ made_of_serving fault }
{
    match fault {
        ServeFault::Memory | ServeFault::Start(StartCause::Memory) => JobFault::Memory,
        ServeFault::Writer => JobFault::Writer,
        ServeFault::Start(StartCause::Place) => JobFault::Place,
        ServeFault::Order(_) => JobFault::Order,
        ServeFault::Counts(_) => JobFault::Counts,
    }
}

/// Listens at a port of 127.0.0.1.
fn listen<H: Net<Listener = TcpListener, Stream = TcpStream>>(
    rt: &H,
    port: u16,
) -> io::Result<TcpListener> {
    TcpListener::bind(rt, (Ipv4Addr::LOCALHOST, port))
}

/// The line with the number of all accepted commands, written into an empty text.
fn closing_line(room: String, count: u32) -> Result<String, AllocError>
    requires { string_bytes room ≡ [] }
    ensures { IfOk result (λ line. string_bytes line ≡ closed_line count) }
{
    let mut line = room;
    write!(line, "CLOSED {count}\n")?;
    Ok(line)
}

/// Writes the line with the number of all accepted commands, by an empty room. Says whether it was written.
fn say_closed<W: Write>(
    room: String,
    count: u32,
    output: &mut Noted<W>,
) -> Result<Result<(), SessionFault>, AllocError>
    requires { string_bytes room ≡ [] }
    ensures sent { MatchResult result (λ said. Sends (W.contents output.old.stream) (W.contents output.new.stream) (closed_line count) said) (λ _. W.contents output.new.stream ≡ W.contents output.old.stream) }
    ensures taken { IfOk result (IsTaken (is_cut output.new)) }
{
    let line = closing_line(room, count)?;
    Ok(send_line(line.as_str(), output))
}

/// Writes a line, and flushes it.
fn send_line<W: Write>(line: &str, output: &mut Noted<W>) -> Result<(), SessionFault>
    ensures sent { Sends (W.contents output.old.stream) (W.contents output.new.stream) line.now result }
    ensures taken { IsTaken (is_cut output.new) result }
{
    match output.send(line.as_bytes()) {
        Ok(()) => Ok(()),
        Err(_) => Err(SessionFault::Writer),
    }
}
