//! Starting an engine.
ghost use Rattle.std.specs.Prelude.{◌≡◌, ◌+◌, List, ℕ, None, false, length, IfOk, IfErr};
ghost use Rattle.hpb_rules.specs.declared.command.Command.{Command};
ghost use Rattle.hpb_rules.specs.Machine.{at_rest};
ghost use Rattle.hpb_recover.specs.Standing.{Stands};
ghost use Rattle.hpb_engine.specs.Engines.{Keeps};
ghost use Rattle.hpb_codec.specs.declared.state.TheConstants.{STATE_SIZE};
ghost use Rattle.hpb_engine.specs.Starting.{IsFresh};
ghost use Rattle.hpb_engine.specs.Starts.{IsStarted};

use crate::engine::Engine;
use crate::{Checkpoint, Commit, Progress, Retirement, Window, laws_below};
use hpb_auction::Auction;
use hpb_codec::{Batch, STATE_SIZE};
use hpb_disk::Disk;
use hpb_recover::{Opened, Plan};
use hpb_rules::{Answers, Commands};
use std::alloc::Global;

/// The progress over an opened device: nothing is in flight, and no checkpoint is begun.
fn fresh(plan: Plan, working: Auction, body: Vec<u8>) -> Progress
    requires copy { working ≡ plan.auction }
    requires room { length body.items ≡ STATE_SIZE }
    ensures { IsFresh result plan }
{
    Progress {
        committed: plan.auction,
        window: Window {
            frames: plan.frames,
            covered: plan.covered,
            next: plan.next,
            clean_end: plan.clean_end,
            opened_at: plan.covered,
            gates: plan.gates,
        },
        commit: Commit {
            busy: false,
            turns: 0,
            batch: Batch {
                index: 0,
                first: 0,
                commands: Commands::new(),
            },
            answers: Answers::new(),
            working,
        },
        checkpoint: Checkpoint {
            newest: plan.slot,
            other_open: plan.other_open,
            steps: 0,
            covers: 0,
            body,
        },
        retirement: Retirement {
            going: false,
            upto: plan.clean_end,
        },
    }
}

impl<D: Disk + Drop> Engine<D> {
    /// Starts an engine over an opened device. It allocates all memory that the engine will use: no step takes more.
    ///
    /// 90 `memory` if memory is refused: the opened device is handed back as it was.
    pub fn start(alloc: Global, opened: Opened<D>) -> Result<Engine<D>, Opened<D>>
        // If the device stands for a history, the engine keeps that history, with nothing in flight.
        ensures keeps { (history : List Command) → Stands history (D.device opened.disk).seen
            → IfOk result (λ engine. Keeps engine (at_rest history)) }
        ensures started { IfOk result (λ engine. IsStarted engine.progress opened.plan) }
        ensures works { IfOk result (λ engine. engine.failed ≡ false) }
        ensures disk { IfOk result (λ engine. engine.disk ≡ opened.disk) }
        ensures back { IfErr result (λ back. (back.disk ≡ opened.disk) × (back.plan ≡ opened.plan)) }
    {
        laws_below();
        let working = match opened.plan.auction.copy(alloc) {
            Ok(working) => working,
            Err(_) => return Err(opened),
        };
        let body = match vec![in alloc; 0; STATE_SIZE] {
            Ok(body) => body,
            Err(_) => return Err(opened),
        };
        let Opened { disk, plan } = opened;
        let progress = fresh(plan, working, body);
        Ok(Engine {
            disk,
            progress,
            failed: false,
        })
    }
}
