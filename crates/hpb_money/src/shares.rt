ghost use Rattle.std.specs.Prelude.{◌≡◌, ◌<◌};
ghost use Rattle.hpb_money.specs.Shares.{part, shared};

use crate::Dollars;
use std::marker::Model;

/// Dollars shared out among places: each place gets the same, and the first few get one dollar more.
#[derive(Clone, Copy, Debug)]
pub struct Shares {
    each: Dollars,
    /// How many places, from the first on, get one dollar more.
    more: u64,
}

impl Model for Shares {
    ghost use Rattle.hpb_money.specs.Shares.{SharesView};

    ghost Value = { SharesView };

    ghost use Rattle.hpb_money.specs.Inside.{shares_inside, shares_view, HasRoom};

    ghost view = { shares_view };

    ghost invariant = { HasRoom };

    ghost inverse = { shares_inside };
}

impl Shares {
    /// Shares of 0 dollars: every place gets nothing.
    pub fn none() -> Shares
        ensures { result ≡ record { each = 0; more = 0 } }
    {
        Shares { each: 0, more: 0 }
    }

    /// Dollars shared out among `count` places as evenly as whole dollars allow. If there are fewer dollars than
    /// places, or two places, this takes no division by a variable.
    pub fn of(dollars: Dollars, count: u64) -> Shares
        requires { 0 < count }
        ensures { result ≡ shared dollars count }
    {
        if dollars < count {
            return Shares {
                each: 0,
                more: dollars,
            };
        }
        if count == 2 {
            return Shares {
                each: dollars / 2,
                more: dollars % 2,
            };
        }
        Shares {
            each: dollars / count,
            more: dollars % count,
        }
    }

    /// The dollars that fall to a place, from 0.
    pub fn at(self, place: u64) -> Dollars
        ensures { result ≡ part self place }
    {
        if place < self.more {
            self.each + 1
        } else {
            self.each
        }
    }
}
