//! Maps the places of a byte among the first bytes to a number: bit i is set if byte i is that byte.
ghost use Rattle.std.specs.Prelude.{◌≡◌, ◌+◌, ◌≤◌, ◌<◌, ◌^◌, length, take, drop};
ghost use Rattle.hpb_wire.specs.ByteMaps.{map_of};

use std::simd::prelude::*;

/// How many bytes `byte_map` reads.
pub(crate) const MAPPED_BYTES: usize = 32;

/// How many bytes are compared together.
const LANES: usize = 16;

/// The map of the places of a byte among the first bytes.
#[inline(always)]
pub(crate) fn byte_map(bytes: &[u8], byte: u8) -> u64
    requires { 32 ≤ length bytes.now }
    ensures { result ≡ map_of byte (take 32 bytes.now) }
{
    map_at(bytes, 0, byte) + (map_at(bytes, LANES, byte) << LANES)
}

#[inline(always)]
fn map_at(bytes: &[u8], at: usize, byte: u8) -> u64
    requires { at + 16 ≤ length bytes.now }
    ensures value { result ≡ map_of byte (take 16 (drop at bytes.now)) }
    ensures bound { result < 2 ^ 16 }
{
    u8x16::from_slice(&bytes[at..])
        .simd_eq(u8x16::splat(byte))
        .to_bitmask()
}
