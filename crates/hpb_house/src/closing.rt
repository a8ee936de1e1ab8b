//! Closing a house.
ghost use Rattle.std.specs.Prelude.{◌≡◌, ◌≢◌, [], false, None, All, IfOk, IfErr, MatchResult, OnOk};
ghost use Rattle.hpb_rules.specs.declared.refusal.Refusal.TheVariants as refusals;
ghost use Rattle.hpb_board.specs.Publication.{auction_of};
ghost use Rattle.hpb_house.specs.Boards.{SameBoard};
ghost use Rattle.hpb_house.specs.Reports.{Agree, AreCounts, Viewed};
ghost use Rattle.hpb_house.specs.Clients.{AreReportsOf};
ghost use Rattle.hpb_house.specs.Closings.{Closed, GivesBack, Unsettled};
ghost use Rattle.hpb_house.specs.Keepers.{in_flight_of};

use crate::house::House;
use crate::keeper::{Keeper, Remains};
use crate::naming::Naming;
use crate::{Counts, compare, count, view_each, whole_trail};
use hpb_auction::Auction;
use hpb_board::{Trail, Viewer};
use hpb_disk::Disk;
use hpb_rings::Report;
use hpb_rules::{Answers, Refusal, judged_is_shown};
use std::sync::Wait;

/// The remains of a closed house.
#[derive(Drop)]
pub struct Closing<D: Disk + Drop> {
    /// The device, as the engine leaves it.
    pub disk: D,
    /// The committed auction.
    pub auction: Auction,
    /// Whether a call of the device has failed (91 `device`).
    pub has_failed: bool,
    /// The answers of the batch in flight, if there is one; none of them has left. There may be one after a failed
    /// call, and when a close is refused (96 `counts`). The device may keep its new commands.
    pub in_flight: Option<Answers>,
    /// The list of the published batches, which lead to the committed auction.
    pub published: Trail,
    /// The list that begins with the published batches, goes on with the batch in flight, and has all batches that a
    /// report has entered.
    pub whole: Trail,
}

/// 96 `counts`: the answers that the clients took don't match the committed commands, or a batch is in flight without a
/// failed call of the device.
#[derive(Drop)]
pub struct CloseFault<D: Disk + Drop> {
    /// The remains of the house, which is closed all the same.
    pub left: Closing<D>,
    /// How many of the answers taken newly accepted a command, and how many commands were committed since the opening.
    pub counts: Counts,
}

impl<D: Disk + Drop> CloseFault<D> {
    /// The refusal that an `ERR` line reports.
    pub fn refusal(&self) -> Refusal
        ensures { result ≡ refusals.Counts }
    {
        Refusal::Counts
    }
}

impl<D: Disk + Drop, W: Wait + Drop, J: Naming> House<D, W, J> {
    /// Closes the house: views each report once more, and compares it with the committed auction. The reports are those
    /// of the clients with which the house was started, one of each.
    ///
    /// 96 `counts` if and only if one of these holds:
    /// - the number of answers taken that newly accepted a command differs from the number of commands committed since
    ///   the opening;
    /// - a report shows another auction than the committed one;
    /// - a batch is in flight though no call of the device has failed.
    ///
    /// A report that can't be viewed any more keeps showing the same auction.
    pub fn close(self, reports: &mut [Report]) -> Result<Closing<D>, CloseFault<D>>
        requires clients { AreReportsOf J.clients reports.old }
        // A last view changes nothing that a report says was sent and taken, and only appends to the lists that were
        // seen.
        ensures viewed { Viewed reports.old reports.new }
        // All reports show the committed auction and have one history. Its commands are those of the newly accepted
        // answers, each once. The device keeps its opened history and then this one. If a call of it failed, it may
        // keep the batch in flight, too, and nothing else.
        ensures closed { IfOk result (λ closing. Closed D.device J.device self.opened closing reports.new) }
        // If it is refused with 96, too, the device keeps its opened history, and then the commands committed since.
        ensures unsettled { IfErr result (λ fault. Unsettled D.device J.device self.opened fault reports.new) }
        // The list that is handed back is the house's.
        ensures list { MatchResult result (λ closing. closing.whole.book ≡ self.book) (λ fault. fault.left.whole.book ≡ self.book) }
    {
        let House { keeper, eye, .. } = self;
        let keeper = keeper.into_inner().keeper();
        let settled = settle(reports, &keeper, &eye);
        let left = leave(keeper, reports);
        match settled {
            Ok(()) => Ok(left),
            Err(counts) => Err(CloseFault { left, counts }),
        }
    }
}

/// Takes a keeper apart at its end. The list goes on to all batches that these reports have entered.
fn leave<D: Disk + Drop, W: Wait + Drop>(keeper: Keeper<D, W>, reports: &[Report]) -> Closing<D>
    requires { All (λ r. r.viewer.book ≡ keeper.board.book) reports.now }
    ensures back { GivesBack D.device (D.device keeper.opened) keeper.board.opened result reports.now }
    ensures list { (result.published.log ≡ keeper.board.list) × (result.whole.book ≡ keeper.board.book) }
    ensures same { (result.auction ≡ keeper.progress.committed) × (result.has_failed ≡ keeper.failed) × (result.in_flight ≡ in_flight_of keeper.progress.commit) }
{
    keeper.facts();
    judged_is_shown();
    let has_failed = keeper.has_failed();
    let published = keeper.trail();
    let whole = whole_trail(reports, &keeper.front().trail);
    let Remains {
        disk,
        committed: auction,
        in_flight,
    } = keeper.finish();
    Closing {
        disk,
        auction,
        has_failed,
        in_flight,
        published,
        whole,
    }
}

/// Views reports once more, and compares them with the auction that a keeper has committed. The keeper must be at rest.
fn settle<D: Disk + Drop, W: Wait + Drop>(
    reports: &mut [Report],
    keeper: &Keeper<D, W>,
    eye: &Viewer,
) -> Result<(), Counts>
    requires board { All (λ r. SameBoard eye.now r.viewer) reports.old }
    requires fresh { eye.now.list ≡ [] }
    requires keeper { (keeper.now.board.book ≡ eye.now.book) × (keeper.now.board.opened ≡ eye.now.opened) }
    ensures viewed { Viewed reports.old reports.new }
    ensures rest { OnOk result (keeper.now.failed ≡ false → in_flight_of keeper.now.progress.commit ≡ None) }
    ensures agree { OnOk result (Agree eye.now.opened keeper.now.progress.committed keeper.now.board.list reports.new) }
    ensures counts { IfErr result (AreCounts eye.now.opened keeper.now.progress.committed keeper.now.board.list reports.new) }
    ensures only { IfErr result (λ counts. (keeper.now.failed ≡ false → in_flight_of keeper.now.progress.commit ≡ None)
        → All (λ r. auction_of r.viewer ≡ keeper.now.progress.committed) reports.new → counts.accepted ≢ counts.committed) }
{
    keeper.facts();
    let opened = eye.auction().count();
    if keeper.is_committing() && !keeper.has_failed() {
        view_each(reports);
        return Err(count(reports, keeper.committed(), opened));
    }
    compare(reports, keeper.committed(), &keeper.trail(), eye, opened)
}
