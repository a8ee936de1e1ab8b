//! The rule between the publisher and the viewers.
use crate::board::{Board, Opening};
use crate::trail::Trail;
use atomic_table::{Join, Split};
use crossbeam_utils::rule::{Outcome, Protocol};

/// The knowledge of a publisher or of a viewer: the book of a trail, and the auction at the opening. No value of this
/// type is ever made.
#[derive(Drop)]
pub enum View {
    New,
    Of(Trail, Opening),
}

/// The published board follows, by its trail, from the opening.
pub struct Law;

impl Protocol<Board, View> for Law {
    ghost use Rattle.hpb_board.specs.Views.{Kept};
    ghost use Rattle.hpb_board.specs.declared.rule.View.TheVariants.{New};

    ghost holds = { Kept };

    ghost first = { New };
}

/// The step by which the publisher learns the book of its trail.
pub(crate) struct Opens;

impl Outcome<Board, View> for Opens {
    ghost use Rattle.std.specs.Prelude.{◌≡◌};
    ghost use Rattle.hpb_board.specs.Views.{opening};
    ghost use Rattle.hpb_board.specs.declared.rule.View.TheVariants.{Of};

    ghost then = { λ v x y w. w ≡ Of y.trail (opening y) };
}

/// A step that changes no view, and shows that the board fits.
pub(crate) struct Sees;

impl Outcome<Board, View> for Sees {
    ghost use Rattle.std.specs.Prelude.{◌≡◌};
    ghost use Rattle.hpb_board.specs.Views.{Fits};

    ghost then = { λ v x y w. (w ≡ v) × Fits x v };
}

/// A step that changes no view.
pub(crate) struct Stays;

impl Outcome<Board, View> for Stays {
    ghost use Rattle.std.specs.Prelude.{◌≡◌};

    ghost then = { λ v x y w. w ≡ v };
}

/// The publisher introduces a viewer.
pub(crate) struct Introduces;

impl Split<View> for Introduces {
    ghost left = { λ v. v };

    ghost right = { λ v. v };
}

impl Join<View> for Introduces {
    ghost use Rattle.hpb_board.specs.declared.rule.View.TheVariants.{New};

    ghost both = { λ v w. w };

    ghost spent = { New };
}
