//! Amounts in dollars: percentages, steps and shares.
#![tactic(auto)]

ghost use Rattle.std.specs.Prelude.{◌≡◌, ℕ, ◌+◌, ◌*◌, ◌^◌, ◌<◌, ◌≤◌, List, slice_index};
ghost use Rattle.hpb_rules.specs.Prices.{IsShares, share};

mod shares;

pub use shares::Shares;

/// An amount in whole dollars: 0 to `MOST_DOLLARS` in an auction. The type itself holds all numbers of 64 bits.
pub type Dollars = u64;

/// The greatest amount that an auction deals in.
pub const MOST_DOLLARS: Dollars = 1_000_000_000_000_000;

/// `percent` percent of an amount, rounded up to whole dollars. The percentage is 0 to 100.
pub fn ceil_percent(amount: Dollars, percent: u64) -> Dollars
    requires { percent ≤ 100 }
    ensures enough { amount * percent ≤ 100 * result }
    ensures least { (x : ℕ) → amount * percent ≤ 100 * x → result ≤ x }
    ensures most { result ≤ amount }
{
    // The hundreds and the rest apart, so that no product exceeds 64 bits.
    amount / 100 * percent + (amount % 100 * percent).div_ceil(100)
}

/// An amount rounded up to a multiple of the step, which is at least 1. Amount and step together must be below 2^64.
/// They are for every amount up to `MOST_DOLLARS` with every step of a definition, 1 to 1,000,000.
pub fn round_up(amount: Dollars, step: u64) -> Dollars
    requires step { 0 < step }
    requires fits { amount + step < 2 ^ 64 }
    ensures multiple { (q : ℕ) × (result ≡ q * step) }
    ensures enough { amount ≤ result }
    ensures least { (q : ℕ) → amount ≤ q * step → result ≤ q * step }
    ensures most { result < amount + step }
{
    if step == 1 {
        amount
    } else {
        amount.next_multiple_of(step)
    }
}

/// The dollars that fall to one of `count` places when an amount is shared out as evenly as whole dollars allow. The
/// first `dollars % count` places get one dollar more than the others. Places count from 0.
pub fn share(dollars: Dollars, count: u64, place: u64) -> Dollars
    requires { place < count }
    ensures value { result ≡ share dollars count place }
    ensures law { (xs : List ℕ) → IsShares dollars count xs → result ≡ slice_index xs place }
    ensures most { result ≤ dollars }
{
    Shares::of(dollars, count).at(place)
}

#[cfg(test)]
mod tests {
    use super::*;

    #[test]
    fn shares_of_two_in_three(rt: HostRuntime) {
        assert_eq!(rt; share(2, 3, 0), 1);
        assert_eq!(rt; share(2, 3, 1), 1);
        assert_eq!(rt; share(2, 3, 2), 0);
    }
}
