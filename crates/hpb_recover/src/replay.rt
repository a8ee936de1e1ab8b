//! The batches after a checkpoint.
ghost use Rattle.std.specs.Prelude.{◌≡◌, ◌+◌, ◌≤◌, ◌∷◌, [], length, IfErr, IfOk, MatchBool, OnSome};
ghost use Rattle.hpb_rules.specs.declared.limits.TheConstants.{MOST_COMMANDS};
ghost use Rattle.hpb_rules.specs.Values.{value_after};
ghost use Rattle.hpb_rules.specs.AcceptedRuns.{AllAccepted};
ghost use Rattle.hpb_recover.specs.Replaying.{GoesOn, Replays};
ghost use Rattle.hpb_recover.specs.Causes.{HasCause, OnlyReads};

use crate::Cause;
use hpb_auction::Auction;
use hpb_codec::Batch;
use hpb_disk::Disk;
use hpb_journal::{Frame, Frames, kept_goes_on};
use hpb_rules::{Command, Reply};
use hpb_tree::Definition;

// Takes in a command. Returns whether it is newly accepted.
fn is_taken(auction: &mut Auction, command: &Command) -> bool
    ensures { MatchBool result
        (AllAccepted auction.old (command.now ∷ []) × (auction.new ≡ value_after auction.old (command.now ∷ [])))
        (AllAccepted auction.old (command.now ∷ []) → ⊥) }
{
    let number = auction.count() + 1;
    match auction.apply(command) {
        Reply::Ok(given) => given == number,
        Reply::Refused(_) => false,
    }
}

// Takes in commands one after another. Returns whether all are newly accepted.
fn are_taken(auction: &mut Auction, commands: &[Command]) -> bool
    ensures { MatchBool result
        (AllAccepted auction.old commands.now × (auction.new ≡ value_after auction.old commands.now))
        (AllAccepted auction.old commands.now → ⊥) }
{
    for command in commands {
        if !is_taken(auction, command) {
            return false;
        }
    }
    true
}

// Whether a batch continues the auction. If so, the auction has taken it in.
fn goes_on(auction: &mut Auction, batch: &Batch) -> bool
    ensures { MatchBool result
        (GoesOn auction.old batch.now.first batch.now.commands × (auction.new ≡ value_after auction.old batch.now.commands))
        (GoesOn auction.old batch.now.first batch.now.commands → ⊥) }
{
    if batch.first != u64::from(auction.count()) + 1 {
        return false;
    }
    are_taken(auction, batch.commands.as_slice())
}

/// Takes in batch after batch from the frames of a journal, and returns the index behind the last one. `None` if a
/// frame is open with its own index and doesn't continue. The gates of the frames that were read are added to `gates`.
pub(crate) fn replay<D: Disk, F: Frames>(
    disk: &mut D,
    frames: &F,
    covered: u64,
    auction: &mut Auction,
    gates: &mut Vec<bool>,
) -> Result<Option<u64>, Cause>
    requires most { covered ≤ MOST_COMMANDS }
    requires room { (F.layout frames.now).size ≤ length (D.device disk.old).seen }
    requires none { gates.old.items ≡ [] }
    ensures next { IfOk result (Replays (F.layout frames.now) covered auction.old (D.device disk.old).seen gates.new.items auction.new) }
    ensures reads { OnlyReads result (F.layout frames.now).count (D.device disk.old) (D.device disk.new) }
    // One read for each gate that is known.
    ensures each { IfOk result (λ next. OnSome next ((D.device disk.new).moment ≤ (D.device disk.old).moment + length gates.new.items)) }
    ensures cause { IfErr result (HasCause (D.device disk.old) (D.device disk.new)) }
{
    kept_goes_on(frames);
    frames.laws();
    let end = covered + u64::from(frames.count());
    for index in covered..end {
        match frames.read_frame(disk, index, auction.definition())? {
            Frame::Closed => {
                gates.push(false)?;
                return Ok(Some(index));
            }
            Frame::Other => {
                gates.push(true)?;
                return Ok(Some(index));
            }
            Frame::Damaged => return Ok(None),
            Frame::Batch(batch) => {
                gates.push(true)?;
                if !goes_on(auction, &batch) {
                    return Ok(None);
                }
            }
        }
    }
    Ok(Some(end))
}
