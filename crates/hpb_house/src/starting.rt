//! Starting a house.
ghost use Rattle.std.specs.Prelude.{◌≡◌, ◌≤◌, ◌<◌, false, [], All, IfOk, IfErr, vec_len};
ghost use Rattle.hpb_rules.specs.Machine.{at_rest};
ghost use Rattle.hpb_engine.specs.Engines.{running_of};
ghost use Rattle.hpb_engine.specs.Starts.{IsStarted};
ghost use Rattle.rtrb.specs.Ring.{received};
ghost use Rattle.hpb_house.specs.Keepers.{KeepsEach};
ghost use Rattle.hpb_house.specs.Starts.{AreBegun, HasRing, HaveRings, IsBegun, IsViewOf};
ghost use Rattle.hpb_house.specs.Told.{cause_of, refusal_of};
ghost use Rattle.hpb_house.specs.declared.starting.StartPart.TheVariants as parts;
ghost use Rattle.hpb_rules.specs.declared.limits.TheConstants.{MOST_SEATS};

use crate::house::House;
use crate::keeper::{Halt, Keeper};
use crate::started::Started;
use hpb_auction::Auction;
use hpb_board::{Publisher, Viewer};
use hpb_disk::Disk;
use hpb_engine::Engine;
use hpb_recover::Opened;
use hpb_rings::{Client, Intake, Ring, seat_rings};
use hpb_rules::Refusal;
use std::alloc::Global;
use std::marker::Brand;
use std::snapshot::Snapshot;
use std::sync::{Arc, Wait};
use std::thread::Parker;
use thiserror::Error;

/// Why a house wasn't started. The words are those of an `ERR` line.
#[derive(Clone, Copy, Debug, PartialEq, Eq, Error)]
pub enum StartCause {
    /// 90 `memory`: memory was refused.
    #[error("memory")]
    Memory,
    /// 94 `place`: a ring or a viewer's place was refused.
    #[error("place")]
    Place,
}

impl StartCause {
    /// The refusal that an `ERR` line reports.
    pub fn refusal(self) -> Refusal
        ensures { result ≡ refusal_of self }
    {
        match self {
            StartCause::Memory => Refusal::Memory,
            StartCause::Place => Refusal::Place,
        }
    }
}

/// A part that a house needs at its start. Parts are made in this order, those from the viewer to the seat once for
/// each seat.
#[derive(Clone, Copy, Debug, PartialEq, Eq)]
pub enum StartPart {
    /// The board.
    Board,
    /// A place on the board for the viewer that shows the opened auction.
    Eye,
    /// The committer's bell.
    Bell,
    /// A place on the board for a client's viewer.
    Viewer,
    /// A seat's rings.
    Rings,
    /// A client's hold of the committer's bell, or room for one more client.
    Seat,
    /// The engine.
    Engine,
}

impl StartPart {
    /// Why a house isn't started if this part is refused: 94 `place` for a ring or a viewer's place, and otherwise 90
    /// `memory`.
    pub fn cause(self) -> StartCause
        ensures { result ≡ cause_of self }
    {
        match self {
            StartPart::Eye | StartPart::Viewer | StartPart::Rings => StartCause::Place,
            StartPart::Board | StartPart::Bell | StartPart::Seat | StartPart::Engine => {
                StartCause::Memory
            }
        }
    }
}

/// The error of a house that wasn't started: the opened device, and the part that was refused.
#[derive(Drop)]
pub struct StartFault<D: Disk + Drop> {
    /// The opened device, as it was handed over.
    pub opened: Opened<D>,
    pub part: StartPart,
}

impl<D: Disk + Drop> StartFault<D> {
    /// The refusal's number and word, by the part that was refused.
    pub fn cause(&self) -> StartCause
        ensures { result ≡ cause_of self.now.part }
    {
        self.part.cause()
    }
}

/// The parts that are made before the engine: the board with its viewers, the rings and the committer's bell.
#[derive(Drop)]
struct Setting<W: Wait + Drop> {
    publisher: Publisher<W>,
    eye: Viewer,
    bell: Arc<Parker, Global>,
    rings: Vec<Ring<Halt>>,
    clients: Vec<Client<Halt>>,
}

/// Makes the rings and the client of a seat, with this viewer.
fn seat_client(
    alloc: Global,
    viewer: Viewer,
    bell: &Arc<Parker, Global>,
    seat: u8,
) -> Result<(Ring<Halt>, Client<Halt>), StartPart>
    requires { seat < viewer.seats }
    ensures seat { IfOk result (λ made. made.1.seat ≡ seat) }
    ensures begun { IfOk result (λ made. IsBegun viewer made.1) }
    ensures ring { IfOk result (λ made. HasRing made.1 made.0) }
    ensures fresh { IfOk result (λ made. received made.0.letters ≡ []) }
{
    let Ok((ends, ring)) = seat_rings(alloc) else {
        return Err(StartPart::Rings);
    };
    let Ok(bell) = Arc::try_clone(bell) else {
        return Err(StartPart::Seat);
    };
    Ok((ring, Client::new(seat, ends, viewer, bell)))
}

/// The rings and the clients of seats.
#[derive(Drop)]
struct Seats {
    rings: Vec<Ring<Halt>>,
    clients: Vec<Client<Halt>>,
}

/// Makes the rings and the clients of all seats.
fn seat_clients<W: Wait + Drop>(
    alloc: Global,
    publisher: &mut Publisher<W>,
    eye: &Viewer,
    bell: &Arc<Parker, Global>,
    sessions: u8,
) -> Result<Seats, StartPart>
    requires eye { IsViewOf publisher.old eye.now }
    requires seats { publisher.old.seats ≡ sessions }
    ensures same { publisher.new ≡ publisher.old }
    ensures rings { IfOk result (λ made. vec_len made.rings ≡ sessions) }
    ensures clients { IfOk result (λ made. AreBegun eye.now made.clients.items sessions) }
    ensures joined { IfOk result (λ made. HaveRings made.clients.items made.rings.items) }
    ensures fresh { IfOk result (λ made. All (λ ring. received ring.letters ≡ []) made.rings.items) }
{
    let mut rings = Vec::new(alloc);
    let mut clients = Vec::new(alloc);
    for seat in 0..sessions {
        let Ok(viewer) = publisher.introduce(alloc) else {
            return Err(StartPart::Viewer);
        };
        let (ring, client) = seat_client(alloc, viewer, bell, seat)?;
        match rings.push(ring) {
            Ok(()) => {}
            Err(_) => return Err(StartPart::Seat),
        }
        match clients.push(client) {
            Ok(()) => {}
            Err(_) => return Err(StartPart::Seat),
        }
    }
    Ok(Seats { rings, clients })
}

/// Makes all parts that are made before the engine.
fn make_setting<W: Wait + Drop>(
    rt: W,
    alloc: Global,
    auction: &Auction,
    sessions: u8,
) -> Result<Setting<W>, StartPart>
    ensures publisher { IfOk result (λ made. (made.publisher.opened ≡ auction.now) × (made.publisher.seats ≡ sessions) × (made.publisher.list ≡ []) × (made.publisher.pending ≡ [])) }
    ensures eye { IfOk result (λ made. (made.eye.opened ≡ auction.now) × IsViewOf made.publisher made.eye) }
    ensures rings { IfOk result (λ made. vec_len made.rings ≡ sessions) }
    ensures clients { IfOk result (λ made. AreBegun made.eye made.clients.items sessions) }
    ensures joined { IfOk result (λ made. HaveRings made.clients.items made.rings.items) }
    ensures fresh { IfOk result (λ made. All (λ ring. received ring.letters ≡ []) made.rings.items) }
{
    let readers = usize::from(sessions) + 1;
    let Ok(mut publisher) = Publisher::open(rt, alloc, auction, sessions, readers) else {
        return Err(StartPart::Board);
    };
    let Ok(eye) = publisher.introduce(alloc) else {
        return Err(StartPart::Eye);
    };
    let Ok(bell) = Arc::new(alloc, Parker::new()) else {
        return Err(StartPart::Bell);
    };
    let Seats { rings, clients } = seat_clients(alloc, &mut publisher, &eye, &bell, sessions)?;
    Ok(Setting {
        publisher,
        eye,
        bell,
        rings,
        clients,
    })
}

impl<D: Disk + Drop, W: Wait + Drop> House<D, W, Brand> {
    /// Starts a house over an opened device for 1 to 32 sessions: the house, the committer's side of the rings, and a
    /// client for each seat.
    ///
    /// 90 `memory`: memory was refused. 94 `place`: a ring or a viewer's place was refused. The error names the part
    /// that was refused (`StartPart::cause`), and hands the opened device back as it was.
    pub fn start(
        rt: W,
        alloc: Global,
        opened: Opened<D>,
        sessions: u8,
    ) -> Result<Started<D, W>, StartFault<D>>
        requires { (1 ≤ sessions) × (sessions ≤ MOST_SEATS) }
        // Every client begins with the opened auction. There is one for each seat, with the ring of that seat.
        ensures opened { IfOk result (λ made. (made.eye.opened ≡ opened.plan.auction) × (made.eye.list ≡ [])) }
        ensures seats { IfOk result (λ made. made.eye.seats ≡ sessions) }
        ensures clients { IfOk result (λ made. AreBegun made.eye made.clients.items sessions) }
        ensures rings { IfOk result (λ made. vec_len made.intake.rings ≡ sessions) }
        ensures joined { IfOk result (λ made. HaveRings made.clients.items made.intake.rings.items) }
        // The keeper publishes to these clients' viewers, and its device was opened as this one is.
        ensures board { IfOk result (λ made. IsViewOf made.keeper.board made.eye) }
        // Nothing has come or is on the list yet.
        ensures fresh { IfOk result (λ made. All (λ ring. received ring.letters ≡ []) made.intake.rings.items) }
        ensures empty { IfOk result (λ made. made.front.trail.log ≡ []) }
        ensures device { IfOk result (λ made. made.keeper.opened ≡ opened.disk) }
        ensures back { IfErr result (λ fault. (fault.opened.disk ≡ opened.disk) × (fault.opened.plan ≡ opened.plan)) }
    {
        let setting = match make_setting(rt, alloc, opened.auction(), sessions) {
            Ok(setting) => setting,
            Err(part) => return Err(StartFault { opened, part }),
        };
        let snapshot = Snapshot::of(&opened);
        let engine = match Engine::start(alloc, opened) {
            Ok(engine) => engine,
            Err(opened) => {
                return Err(StartFault {
                    opened,
                    part: StartPart::Engine,
                });
            }
        };
        Ok(assemble(engine, setting, sessions, snapshot))
    }
}

/// Puts a house together.
fn assemble<D: Disk + Drop, W: Wait + Drop>(
    engine: Engine<D>,
    setting: Setting<W>,
    sessions: u8,
    opened: Snapshot<Opened<D>>,
) -> Started<D, W>
    requires started { IsStarted engine.progress opened.value.plan }
    requires keeps { KeepsEach (D.device opened.value.disk) (running_of engine) at_rest }
    requires works { (engine.failed ≡ false) × (engine.disk ≡ opened.value.disk) }
    requires publisher { (setting.publisher.opened ≡ opened.value.plan.auction) × (setting.publisher.seats ≡ sessions) × (setting.publisher.list ≡ []) × (setting.publisher.pending ≡ []) }
    requires eye { IsViewOf setting.publisher setting.eye }
    requires rings { (vec_len setting.rings ≡ sessions) × (sessions ≤ MOST_SEATS) }
    requires fresh { All (λ ring. received ring.letters ≡ []) setting.rings.items }
    ensures eye { result.eye ≡ setting.eye }
    ensures board { result.keeper.board ≡ setting.publisher }
    ensures device { result.keeper.opened ≡ opened.value.disk }
    ensures front { result.front.trail.log ≡ [] }
    ensures intake { result.intake.rings ≡ setting.rings }
    ensures clients { result.clients ≡ setting.clients }
{
    let Setting {
        publisher,
        eye,
        bell,
        rings,
        clients,
    } = setting;
    let front = publisher.front();
    Started {
        keeper: Keeper::new(engine, publisher, sessions, opened),
        eye,
        bell,
        front,
        intake: Intake::new(rings),
        clients,
    }
}
