ghost use Rattle.std.specs.Prelude.{◌≡◌, ℕ, ◌<◌, ◌≤◌, ◌^◌};
ghost use Rattle.hpb_rules.specs.declared.limits.TheConstants.{MOST_NODES};
ghost use Rattle.hpb_rules.specs.Saved.{has_bit};
ghost use Rattle.hpb_winners.specs.Places.{IsGreatestTaken, IsTopPlace};

/// Takes the greatest set bit out of a mask and returns its place, if there is one. A loop over it walks the set bits
/// from the greatest down, and clear bits cost nothing.
pub fn take_greatest(mask: &mut u128) -> Option<usize>
    ensures { IsGreatestTaken mask.old result mask.new }
{
    let high = (*mask >> 64) as u64;
    if high > 0 {
        let place = greatest_place(high);
        *mask -= u128::from(1u64 << place) << 64;
        return Some(place + 64);
    }
    let low = *mask as u64;
    if low == 0 {
        return None;
    }
    let place = greatest_place(low);
    *mask -= u128::from(1u64 << place);
    Some(place)
}

/// The place of a word's greatest set bit.
fn greatest_place(word: u64) -> usize
    requires { 0 < word }
    ensures { IsTopPlace word result }
{
    (63 - word.leading_zeros()) as usize
}

/// The first `count` bits of a mask, without the others.
pub fn first_bits(mask: u128, count: usize) -> u128
    requires { count ≤ MOST_NODES }
    ensures bits { (place : ℕ) → place < count → has_bit result place ≡ has_bit mask place }
    ensures within { result < 2 ^ count }
{
    mask & ((1 << count) - 1)
}
