//! The trail: one list of published batches, which only grows. It exists in proofs alone.
ghost use Rattle.std.specs.Prelude.{◌≡◌, ◌<◌, ◌^◌, ◌++◌, ◌∷◌, [], length, MatchBool};
ghost use mathlib.Core.List.{IsPrefix};
ghost use Rattle.hpb_board.specs.Trails.{head_of};

use hpb_rules::Letters;
use logbook::{Gain, Offer, Plain, Play, Rule, Seen, Start, Word};

/// The rule of the trail: one word counts the batches.
pub struct Batches;

impl Rule<Letters, u64> for Batches {
    ghost use Rattle.std.specs.Prelude.{[]};
    ghost use base.Fml.{ftrue};
    ghost use Rattle.hpb_board.specs.Trails.{IsKept};

    ghost holds = { λ cells log. IsKept cells log };

    ghost first = { [] };

    ghost hinted = { λ n log. Unit {0} };

    ghost shows = { λ log. [] };

    ghost keeps = { λ names log. ftrue };

    ghost moves = { λ ask before after answer. Unit {0} };
}

/// The knowledge gained by adding a batch: none.
pub struct Nothing;

impl Gain<Letters, u64> for Nothing {
    ghost use base.Fml.{ftrue};

    ghost after = { λ names about answer. ftrue };
}

/// The step that adds a batch.
pub struct Add;

impl Play<Letters, u64> for Add {
    ghost use Rattle.hpb_board.specs.Trails.{Adds};

    ghost then = { Adds };
}

impl Plain<Letters, Letters, u64> for Add {
    ghost use Rattle.std.specs.Prelude.{None};

    ghost ask = { λ batch. batch };

    ghost state = { λ batch. None };
}

/// A token without bytes: the list of a book had these batches. `again` copies it. `learn` makes it equal to another
/// token of the same book, if that one has more.
pub type Trail = Seen<Letters, u64, Batches>;

/// The word that counts the batches. The one publisher holds it.
#[derive(Drop)]
pub struct Head {
    word: Word<Letters, u64, Batches>,
}

/// A new trail, without a batch.
pub(crate) fn open() -> (Head, Trail)
    ensures head { result.0.word ≡ head_of result.1.book }
    ensures empty { result.1.log ≡ [] }
{
    let (trail, mut first, _second) = Seen::open(Start::alone(), 0, 0);
    let head = Head {
        word: Word::tracked(0, &mut first),
    };
    (head, trail)
}

/// Adds a batch to the trail's list. It isn't added if the list has grown beyond that.
pub(crate) fn append(head: &Head, trail: &mut Trail, number: u64, batch: &Letters) -> bool
    requires head { head.now.word ≡ head_of trail.old.book }
    requires number { (number ≡ length trail.old.log) × (number < 2 ^ 62) }
    ensures book { trail.new.book ≡ trail.old.book }
    ensures log { MatchBool result (trail.new.log ≡ trail.old.log ++ batch.now ∷ []) (IsPrefix trail.old.log trail.new.log) }
{
    let mut offer: Offer<Letters, u64, Batches, Nothing> = trail.plain::<Nothing, Letters, Add>(
        batch,
    );
    let mut pen = trail.no_pen();
    let found = head
        .word
        .compare_exchange::<Add, Nothing>(number, number + 1, trail, &mut offer, &mut pen);
    found == number
}
