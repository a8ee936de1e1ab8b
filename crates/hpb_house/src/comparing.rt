//! Comparing reports with a committed auction.
ghost use Rattle.std.specs.Prelude.{◌≡◌, ◌≢◌, ◌-◌, ◌^◌, ◌<◌, ◌↔◌, min, All, OnOk, IfErr, IsTrue};
ghost use mathlib.Core.List.{IsPrefix};
ghost use Rattle.hpb_board.specs.Publication.{auction_of};
ghost use Rattle.hpb_rules.specs.Fronts.{joined};
ghost use Rattle.hpb_rules.specs.Judging.{value_by};
ghost use Rattle.hpb_house.specs.Boards.{SameBoard};
ghost use Rattle.hpb_house.specs.Reports.{Agree, AreCounts, Viewed, total};

use crate::sameness::same_auction;
use hpb_auction::Auction;
use hpb_board::{Trail, Viewer};
use hpb_rings::Report;
use hpb_rules::rest_is_shown;

/// Two numbers that are equal unless something went wrong.
#[derive(Clone, Copy, Debug)]
pub struct Counts {
    /// How many of the answers that clients took newly accepted a command, at most 2^64 - 1.
    pub accepted: u64,
    /// How many commands were committed since the opening, at most 1,000,000.
    pub committed: u64,
}

/// Views each report once more, and compares it with the committed auction and the other reports, as `agree` does. A
/// report whose publisher has ended keeps showing the same auction.
///
/// The reports are those of clients of one publisher, of which `eye` is a viewer. `opened` is how many commands the
/// auction had accepted when it was opened.
///
/// 96 `counts` if and only if a report shows another auction, or the two numbers differ; `Err` has the numbers.
///
/// Otherwise all reports have one history, which goes on from that of the opened auction to that of the committed one.
/// If no two reports are of one seat, each newly accepted answer was taken. The answers' commands then are those of the
/// history, each once.
pub fn compare(
    reports: &mut [Report],
    committed: &Auction,
    shown: &Trail,
    eye: &Viewer,
    opened: u32,
) -> Result<(), Counts>
    requires board { All (λ r. SameBoard eye.now r.viewer) reports.old }
    requires count { opened ≡ eye.now.opened.count }
    // This list of the same publisher leads to the committed auction.
    requires trail { shown.now.book ≡ eye.now.book }
    requires leads { committed.now ≡ value_by eye.now.opened (joined shown.now.log) }
    ensures viewed { Viewed reports.old reports.new }
    ensures agree { OnOk result (Agree eye.now.opened committed.now shown.now.log reports.new) }
    ensures counts { IfErr result (AreCounts eye.now.opened committed.now shown.now.log reports.new) }
    ensures only { IfErr result (λ c. All (λ r. auction_of r.viewer ≡ committed.now) reports.new → c.accepted ≢ c.committed) }
{
    view_each(reports);
    agree(reports, committed, shown, eye, opened)
}

/// Compares reports as they are, without a view. Each must show the committed auction, and the answers newly accepted
/// must be as many as the commands committed since the opening. 96 `counts` if and only if one of these doesn't hold.
pub fn agree(
    reports: &[Report],
    committed: &Auction,
    shown: &Trail,
    eye: &Viewer,
    opened: u32,
) -> Result<(), Counts>
    requires board { All (λ r. SameBoard eye.now r.viewer) reports.now }
    requires count { opened ≡ eye.now.opened.count }
    // This list of the same publisher leads to the committed auction.
    requires trail { shown.now.book ≡ eye.now.book }
    requires leads { committed.now ≡ value_by eye.now.opened (joined shown.now.log) }
    ensures agree { OnOk result (Agree eye.now.opened committed.now shown.now.log reports.now) }
    ensures counts { IfErr result (AreCounts eye.now.opened committed.now shown.now.log reports.now) }
    ensures only { IfErr result (λ c. All (λ r. auction_of r.viewer ≡ committed.now) reports.now → c.accepted ≢ c.committed) }
{
    let _all = whole_trail(reports, shown);
    let counts = count(reports, committed, opened);
    if !all_show(reports, committed) || counts.accepted != counts.committed {
        return Err(counts);
    }
    rest_is_shown();
    Ok(())
}

/// Views each report once more. One whose publisher has ended keeps showing the same auction.
pub fn view_each(reports: &mut [Report])
    ensures { Viewed reports.old reports.new }
{
    for i in 0..reports.len() {
        reports[i].view_again();
    }
}

/// Whether each report shows the committed auction.
fn all_show(reports: &[Report], committed: &Auction) -> bool
    requires { All (λ r. r.viewer.opened.rules ≡ committed.now.rules) reports.now }
    ensures { IsTrue result ↔ All (λ r. auction_of r.viewer ≡ committed.now) reports.now }
{
    for i in 0..reports.len() {
        if !shows(&reports[i], committed) {
            return false;
        }
    }
    true
}

/// Whether a report shows the committed auction.
fn shows(report: &Report, committed: &Auction) -> bool
    requires { report.now.viewer.opened.rules ≡ committed.now.rules }
    ensures { IsTrue result ↔ (auction_of report.now.viewer ≡ committed.now) }
{
    same_auction(report.viewer.auction(), committed)
}

/// One list that begins with all batches that each report has entered, and with those of this trail.
pub fn whole_trail(reports: &[Report], shown: &Trail) -> Trail
    requires { All (λ r. r.viewer.book ≡ shown.now.book) reports.now }
    ensures book { result.book ≡ shown.now.book }
    ensures each { All (λ r. IsPrefix r.viewer.list result.log) reports.now }
    ensures this { IsPrefix shown.now.log result.log }
{
    let mut all = shown.again();
    for i in 0..reports.len() {
        reports[i].viewer.teach(&mut all);
    }
    all
}

/// Counts the answers that newly accepted a command, by the reports, and the commands committed since the opening.
pub fn count(reports: &[Report], committed: &Auction, opened: u32) -> Counts
    ensures accepted { result.accepted ≡ min (total reports.now) (2 ^ 64 - 1) }
    ensures committed { result.committed ≡ committed.now.count - opened }
    ensures most { result.committed < 2 ^ 32 }
{
    Counts {
        accepted: sum(reports),
        committed: u64::from(committed.count().saturating_sub(opened)),
    }
}

/// How many of the answers taken newly accepted a command, at most 2^64 - 1.
fn sum(reports: &[Report]) -> u64
    ensures { result ≡ min (total reports.now) (2 ^ 64 - 1) }
{
    let mut sum = 0u64;
    for i in 0..reports.len() {
        sum = sum.saturating_add(reports[i].accepted);
    }
    sum
}
