//! Reads the field that bytes begin with, and returns the bytes behind it.
ghost use Rattle.std.specs.Prelude.{◌≡◌, ◌≤◌, ◌+◌, ◌++◌, ◌↔◌, IsTrue, length};
ghost use Rattle.hpb_codec.specs.Numbers.{before, leading, number, rest, zeros};

/// The first byte, and the bytes behind it.
#[tactic(auto, using(crate::proofs::Numbers::value_1), unfolding(crate::specs::Numbers::rest))]
pub fn front_u8(bytes: &[u8]) -> (u8, &[u8])
    requires { 1 ≤ length bytes.now }
    ensures value { result.0 ≡ leading 1 bytes.now }
    ensures whole { bytes.now ≡ number 1 result.0 ++ result.1.now }
    ensures rest { result.1.now ≡ rest 1 bytes.now }
    ensures left { length result.1.now + 1 ≡ length bytes.now }
{
    (bytes[0], &bytes[1..])
}

/// The number in the first two bytes, and the bytes behind them.
#[tactic(auto, using(crate::proofs::Numbers::value_2), unfolding(crate::specs::Numbers::rest))]
pub fn front_u16(bytes: &[u8]) -> (u16, &[u8])
    requires { 2 ≤ length bytes.now }
    ensures value { result.0 ≡ leading 2 bytes.now }
    ensures whole { bytes.now ≡ number 2 result.0 ++ result.1.now }
    ensures rest { result.1.now ≡ rest 2 bytes.now }
    ensures left { length result.1.now + 2 ≡ length bytes.now }
{
    let (front, rest) = bytes.split_at(2);
    (u16::from_be_bytes([front[0], front[1]]), rest)
}

/// The number in the first four bytes, and the bytes behind them.
#[tactic(auto, using(crate::proofs::Numbers::value_4), unfolding(crate::specs::Numbers::rest))]
pub fn front_u32(bytes: &[u8]) -> (u32, &[u8])
    requires { 4 ≤ length bytes.now }
    ensures value { result.0 ≡ leading 4 bytes.now }
    ensures whole { bytes.now ≡ number 4 result.0 ++ result.1.now }
    ensures rest { result.1.now ≡ rest 4 bytes.now }
    ensures left { length result.1.now + 4 ≡ length bytes.now }
{
    let (front, rest) = bytes.split_at(4);
    (
        u32::from_be_bytes([front[0], front[1], front[2], front[3]]),
        rest,
    )
}

/// The number in the first eight bytes, and the bytes behind them.
#[tactic(auto, using(crate::proofs::Numbers::value_8), unfolding(crate::specs::Numbers::rest))]
pub fn front_u64(bytes: &[u8]) -> (u64, &[u8])
    requires { 8 ≤ length bytes.now }
    ensures value { result.0 ≡ leading 8 bytes.now }
    ensures whole { bytes.now ≡ number 8 result.0 ++ result.1.now }
    ensures rest { result.1.now ≡ rest 8 bytes.now }
    ensures left { length result.1.now + 8 ≡ length bytes.now }
{
    let (f, rest) = bytes.split_at(8);
    let number = u64::from_be_bytes([f[0], f[1], f[2], f[3], f[4], f[5], f[6], f[7]]);
    (number, rest)
}

/// The number in the first sixteen bytes, and the bytes behind them.
#[tactic(auto, using(crate::proofs::Numbers::leading_16), unfolding(crate::specs::Numbers::rest))]
pub fn front_u128(bytes: &[u8]) -> (u128, &[u8])
    requires { 16 ≤ length bytes.now }
    ensures value { result.0 ≡ leading 16 bytes.now }
    ensures rest { result.1.now ≡ rest 16 bytes.now }
    ensures left { length result.1.now + 16 ≡ length bytes.now }
{
    let (high, rest) = front_u64(bytes);
    let (low, rest) = front_u64(rest);
    (u128::from(high) * (1 << 64) + u128::from(low), rest)
}

/// The first `count` bytes, and the bytes behind them.
#[tactic(auto, unfolding(crate::specs::Numbers::rest, crate::specs::Numbers::before))]
pub fn front_bytes(bytes: &[u8], count: usize) -> (&[u8], &[u8])
    requires { count ≤ length bytes.now }
    ensures front { result.0.now ≡ before count bytes.now }
    ensures whole { bytes.now ≡ result.0.now ++ result.1.now }
    ensures size { length result.0.now ≡ count }
    ensures rest { result.1.now ≡ rest count bytes.now }
    ensures left { length result.1.now + count ≡ length bytes.now }
{
    bytes.split_at(count)
}

/// Whether all bytes are zero.
#[tactic(auto, using(crate::proofs::Numbers::zeros_are, crate::proofs::Numbers::zero_each))]
pub fn is_zero(bytes: &[u8]) -> bool
    ensures { IsTrue result ↔ bytes.now ≡ zeros (length bytes.now) }
{
    // Without an early exit the compiler can vectorize the loop.
    let mut greatest = 0;
    for byte in bytes {
        greatest = (*byte).max(greatest);
    }
    greatest == 0
}

/// Whether two slices have the same bytes.
pub fn is_same(left: &[u8], right: &[u8]) -> bool
    ensures { IsTrue result ↔ left.now ≡ right.now }
{
    left == right
}
