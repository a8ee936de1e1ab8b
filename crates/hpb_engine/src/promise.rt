//! A run of an engine over an opened device, and the device that is opened after a stop of the run.
ghost use Rattle.std.specs.Prelude.{◌≡◌, ◌+◌, ◌∷◌, List, IfOk, IfErr, IsErrAnd, MatchResult};
ghost use Rattle.hpb_rules.specs.declared.command.Command.{Command};
ghost use Rattle.hpb_rules.specs.AuctionValue.{Shows};
ghost use Rattle.hpb_rules.specs.ValueLaws.{IsBestChoice};
ghost use Rattle.hpb_recover.specs.declared.flaw.Flaw.{Flaw};
ghost use Rattle.hpb_recover.specs.Flaws.{HasFlaw};
ghost use Rattle.hpb_recover.specs.Standing.{Stands};
ghost use Rattle.hpb_recover.specs.Quiet.{IsQuiet, reads_in};
ghost use Rattle.hpb_recover.specs.Causes.{AsksMemory, IsCauseAt, IsMachine, IsUnlessMachine};
ghost use Rattle.hpb_engine.specs.Engines.{IsRunOf};
ghost use Rattle.hpb_engine.specs.Runs.{HasFailed};
ghost use Rattle.hpb_engine.specs.Points.{IsFound, IsLeft, Point, start_at};

use crate::{Driven, Engine, Event, drive};
use hpb_disk::Disk;
use hpb_recover::{OpenFault, Opened, open};
use hpb_rules::{fits_grow, rest_is_sound, run_is_moves, run_joins};
use std::alloc::Global;

/// Starts an engine over an opened device, and takes events in order, as `drive` does: up to the first at which a call
/// of the device fails (91 `device`).
///
/// 90 `memory` if memory is refused: no event is taken, and the device is handed back as it was opened.
pub fn drive_opened<D: Disk + Drop>(
    alloc: Global,
    opened: Opened<D>,
    events: &[Event],
) -> Result<Driven<D>, D>
    // Whenever a stop comes, no acknowledged command is lost, and each event is taken as the engine takes it. An offer
    // is dropped only if it can't be taken.
    ensures survives { (first : List Command) → Stands first (D.device opened.disk).seen → IfOk result (IsRunOf first opened events.now) }
    // The fault is 91 if and only if a call of the device failed in this run.
    ensures cause { IfOk result (λ driven. HasFailed driven.fault (D.device opened.disk) (D.device driven.engine.disk)) }
    ensures back { IfErr result (λ back. back ≡ opened.disk) }
{
    run_joins();
    run_is_moves();
    rest_is_sound();
    fits_grow();
    match Engine::start(alloc, opened) {
        Ok(engine) => match drive(alloc, engine, events) {
            Ok(driven) => Ok(driven),
            Err(back) => Err(back.finish()),
        },
        Err(back) => {
            let Opened { disk, .. } = back;
            Err(disk)
        }
    }
}

/// The result of [`drive_then_open`]: the run, and the device that was opened afterwards.
#[derive(Drop)]
pub struct Survived<D: Disk + Drop, E: Disk + Drop> {
    /// The run.
    pub driven: Driven<D>,
    /// The other device, opened, or why it isn't.
    pub found: Result<Opened<E>, OpenFault<E>>,
}

/// Takes events on an opened device, and then opens another one, which may have the bytes that a stop of the run left.
///
/// A stop may come before, between or within any calls of the device, for any commands and any order of steps. It
/// leaves bytes that open, and that show all commands acknowledged by then.
///
/// The other device is handed in before the run, and may be any device. The promise holds if its bytes are among those
/// that a stop may have left.
///
/// 90 `memory` if memory is refused before the first event: both devices are handed back. If the other device is
/// refused afterwards, `found` says why.
pub fn drive_then_open<D: Disk + Drop, E: Disk + Drop>(
    alloc: Global,
    opened: Opened<D>,
    events: &[Event],
    left: E,
) -> Result<Survived<D, E>, (D, E)>
    // Suppose the device stood for the first commands. Then the run survives, and each event is taken as the engine
    // takes it. Wherever the run is cut at a point, bytes that a stop left since then are opened, unless memory or a
    // call of the other device fails. They show all that was acknowledged at the point.
    ensures kept { (first : List Command) → Stands first (D.device opened.disk).seen → IfOk result (λ ended. (run : IsRunOf first opened events.now ended.driven)
        × ((before : List Point) (point : Point) (later : List Point)
        → IsLeft (start_at (D.device opened.disk) ∷ run.survives.points) before point later (D.device ended.driven.engine.disk) (E.device left).seen
        → MatchResult ended.found (λ again. IsFound opened.plan.auction.rules first point later again.plan.auction) (λ fault. IsMachine fault.cause))) }
    // The winners that it shows are disjoint bids of the greatest total, and its prices prove it.
    ensures best { IfOk result (λ ended. IfOk ended.found (λ again. IsBestChoice again.plan.auction)) }
    // The fault is 91 if and only if a call of the device failed in this run.
    ensures cause { IfOk result (λ ended. HasFailed ended.driven.fault (D.device opened.disk) (D.device ended.driven.engine.disk)) }
    // Opening the other device loses none of its bytes: it reads the same, and a crash leaves nothing that it couldn't
    // have left before.
    ensures quiet { IfOk result (λ ended. MatchResult ended.found
        (λ again. IsQuiet (1 + reads_in (E.device left).seen) (E.device left) (E.device again.disk))
        (λ fault. IsQuiet (1 + reads_in (E.device left).seen) (E.device left) (E.device fault.disk))) }
    // A flaw is reported only if the bytes have it. If they have one, it is reported, unless memory or a call of the
    // device fails. 91 is reported only if a call failed.
    ensures refused { IfOk result (λ ended. IfErr ended.found (λ fault. IsCauseAt (E.device left) (E.device fault.disk) fault.cause × AsksMemory (E.device left).seen fault.cause)) }
    ensures exact { (flaw : Flaw) → HasFlaw flaw (E.device left).seen → IfOk result (λ ended. IsErrAnd ended.found (λ fault. IsUnlessMachine flaw fault.cause)) }
    ensures works { IfOk result (λ ended. IfOk ended.found (λ again. (E.device again.disk).failures ≡ (E.device left).failures)) }
    ensures back { IfErr result (λ back. (back.0 ≡ opened.disk) × (back.1 ≡ left)) }
{
    match drive_opened(alloc, opened, events) {
        Ok(driven) => match open(alloc, left) {
            Ok(again) => {
                // The clause of this call says that the winners are the best choice.
                let _ = again.auction().revenue();
                Ok(Survived {
                    driven,
                    found: Ok(again),
                })
            }
            Err(fault) => Ok(Survived {
                driven,
                found: Err(fault),
            }),
        },
        Err(disk) => Err((disk, left)),
    }
}
