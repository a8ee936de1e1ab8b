//! Viewing once more.
ghost use Rattle.std.specs.Prelude.{◌≡◌, ℕ};
ghost use mathlib.Core.List.{IsPrefix};
ghost use Rattle.hpb_board.specs.Publication.{answers_of};

use hpb_board::Viewer;

/// Views. `false` if the publisher has ended. Each seat's answers stay, and more may stand behind them.
#[tactic(auto, using(crate::proofs::Later::later))]
pub(crate) fn view_again(viewer: &mut Viewer) -> bool
    ensures same { (viewer.new.book ≡ viewer.old.book) × (viewer.new.opened ≡ viewer.old.opened) × (viewer.new.seats ≡ viewer.old.seats) }
    ensures later { IsPrefix viewer.old.list viewer.new.list }
    ensures answers { (seat : ℕ) → IsPrefix (answers_of seat viewer.old) (answers_of seat viewer.new) }
{
    viewer.enter()
}
