//! The bytes of a checkpoint.
ghost use Rattle.std.specs.Prelude.{◌≡◌, ◌≤◌, List, length};
ghost use Rattle.hpb_rules.specs.declared.command.Command.{Command};
ghost use Rattle.hpb_rules.specs.AuctionValue.{Shows};
ghost use Rattle.hpb_codec.specs.declared.state.TheConstants.{STATE_SIZE};
ghost use Rattle.hpb_engine.specs.Facts.{IsSnapshot};

use hpb_auction::Auction;
use hpb_codec::encode_state;
use hpb_rules::Saved;

/// Writes the state of an auction into `body`, as one that covers `covers` batches. These are at most as many as the
/// auction has commands.
pub(crate) fn take_snapshot(auction: &Auction, covers: u64, body: &mut Vec<u8>)
    requires { length body.old.items ≡ STATE_SIZE }
    ensures size { length body.new.items ≡ STATE_SIZE }
    ensures shows { (history : List Command) → Shows auction.now history → covers ≤ length history
        → IsSnapshot auction.now.rules body.new.items covers history }
{
    let mut saved = Saved::empty();
    auction.save(&mut saved);
    encode_state(&saved, covers, body);
}
