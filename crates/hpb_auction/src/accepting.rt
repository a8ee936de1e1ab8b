ghost use Rattle.std.specs.Prelude.{◌≡◌, ◌↔◌, List, [], false};
ghost use Rattle.hpb_rules.specs.declared.command.Command.{Command};
ghost use Rattle.hpb_rules.specs.Answer.{is_reply_new};
ghost use Rattle.hpb_rules.specs.AuctionValue.{Shows};
ghost use Rattle.hpb_rules.specs.Letters.{judged, new_commands};
ghost use Rattle.hpb_rules.specs.Values.{reply_in};
ghost use Rattle.hpb_rules.specs.Judging.{judged_in};

use crate::Auction;
use crate::reply::is_new;
use hpb_rules::{Letter, Letters};

/// Whether an auction would newly accept any of the letters if they were judged one after another. `false` if there is
/// none, or all would be refused or are repeats. Nothing changes.
// As long as none is new, nothing changes. So each can be judged by the auction as it is.
pub fn accepts_any(auction: &Auction, letters: &Letters) -> bool
    ensures value { result ≡ false ↔ new_commands (judged_in auction.now letters.now) ≡ [] }
    ensures history { (history : List Command) → Shows auction.now history
        → (result ≡ false ↔ new_commands (judged auction.now.rules history letters.now) ≡ []) }
{
    for letter in letters.as_slice() {
        if accepts(auction, letter) {
            return true;
        }
    }
    false
}

/// Whether an auction would newly accept a letter.
fn accepts(auction: &Auction, letter: &Letter) -> bool
    ensures { result ≡ is_reply_new auction.now.count (reply_in auction.now letter.now.command) }
{
    is_new(auction.count(), auction.judge(&letter.command))
}
