ghost use Rattle.std.specs.Prelude.{◌≡◌, ℕ, ◌-◌, ◌^◌, ◌≤◌, ◌<◌, List, ◌++◌, map, length, take, replicate, nat_le, IfSome, Some};
ghost use Rattle.std.specs.List.{list_any};
ghost use Rattle.std.specs.Int.Digits.{number_from_digits};
ghost use Rattle.std.specs.Simd.Lanes.{number_l};
ghost use Rattle.core.specs.Dec2flt.Digits.{less_zero, IsEightBytes, IsEightDigits};
ghost use Rattle.hpb_rules.specs.Lines.{number_up_to};
ghost use Rattle.hpb_wire.specs.Words.{bytes_of};
ghost use Rattle.hpb_wire.specs.Numbers.{number_of_digits, digits_number, digit_number, has_front_zero};

use crate::decimal::MOST_DIGITS;
use crate::word::Word;

/// How many bytes are read together.
const LANES: usize = 8;

/// The digit 0 in each of eight bytes.
const ZEROS: u64 = 0x3030_3030_3030_3030;

/// The high bit of each of eight bytes.
const HIGH_BITS: u64 = 0x8080_8080_8080_8080;

/// The number that, added to each of eight bytes, sets the high bit of those from ten on.
const TEN_TO_HIGH: u64 = 0x7676_7676_7676_7676;

/// The number up to `most` that a word spells in decimal, without a sign and without a zero in front of another digit.
#[inline(always)]
pub(crate) fn number(word: Word<'_>, most: u64) -> Option<u64>
    ensures value { result ≡ number_up_to most (bytes_of word.entry) }
    ensures bound { IfSome result (λ n. n ≤ most) }
{
    match short_number(word) {
        Some(number) if number <= most => Some(number),
        _ => number_of_text(word.text(), most),
    }
}

/// The number that a word of up to eight digits spells, read at once with the bytes behind it. `None` says nothing
/// about the word.
#[inline(always)]
pub(crate) fn short_number(word: Word<'_>) -> Option<u64>
    ensures value { IfSome result (λ n. (most : ℕ) → n ≤ most → number_up_to most (bytes_of word.entry) ≡ Some n) }
    ensures bound { IfSome result (λ n. n < 2 ^ 32) }
{
    if word.size == 0 || word.size > LANES || word.bytes.len() < LANES {
        return None;
    }
    let lanes = lanes(word.bytes);
    let digits = keep_first(lanes, word.size);
    // The lowest byte is the first of the word.
    if has_others(digits) || (lanes % 256 == 0 && word.size > 1) {
        return None;
    }
    Some(value_of_eight(digits))
}

/// The first eight bytes as one number, the first of them lowest. A digit becomes its value, and any other byte ten or
/// more.
#[inline(always)]
fn lanes(bytes: &[u8]) -> u64
    requires { 8 ≤ length bytes.now }
    ensures bytes { IsEightBytes (take 8 bytes.now) }
    ensures value { result ≡ number_l 256 (map less_zero (take 8 bytes.now)) }
{
    let word = u64::from_le_bytes([
        bytes[0], bytes[1], bytes[2], bytes[3], bytes[4], bytes[5], bytes[6], bytes[7],
    ]);
    word ^ ZEROS
}

/// The first `count` of eight bytes, moved up to the end, with zeros in front.
#[inline(always)]
fn keep_first(word: u64, count: usize) -> u64
    requires some { 0 < count }
    requires most { count ≤ 8 }
    ensures { (bytes : List ℕ) → IsEightBytes bytes → word ≡ number_l 256 bytes → result ≡ number_l 256 (replicate (8 - count) 0 ++ take count bytes) }
{
    word << (8 * (LANES - count))
}

/// Whether one of eight bytes is ten or more. No sum carries into the next byte.
#[inline(always)]
fn has_others(word: u64) -> bool
    ensures { (bytes : List ℕ) → IsEightBytes bytes → word ≡ number_l 256 bytes → result ≡ list_any (nat_le 10) bytes }
{
    ((word & !HIGH_BITS) + TEN_TO_HIGH | word) & HIGH_BITS != 0
}

/// The first and the fifth of eight bytes.
const TWO_PAIRS: u64 = 0x0000_00ff_0000_00ff;

/// The number that eight digits spell, the first of them in the lowest byte.
#[inline(always)]
fn value_of_eight(word: u64) -> u64
    ensures value { (digits : List ℕ) → IsEightDigits digits → word ≡ number_l 256 digits → result ≡ number_from_digits 10 digits }
    ensures bound { result < 2 ^ 32 }
{
    // Each second byte is a pair of digits. The first and the third pair stand under the mask, and the others do once
    // they are moved down. The values of all pairs add up in the upper half.
    let pairs = word.wrapping_mul(10).wrapping_add(word >> 8);
    let odd = (pairs & TWO_PAIRS).wrapping_mul(100 + (1_000_000 << 32));
    let even = ((pairs >> 16) & TWO_PAIRS).wrapping_mul(1 + (10_000 << 32));
    odd.wrapping_add(even) >> 32
}

/// The same result as `number`, for any word, read digit by digit.
#[cold]
#[inline(never)]
#[tactic(auto, using(crate::proofs::Canonical::fronted, crate::proofs::Canonical::no_number, crate::proofs::Canonical::too_long))]
fn number_of_text(word: &[u8], most: u64) -> Option<u64>
    ensures value { result ≡ number_up_to most word.now }
    ensures bound { IfSome result (λ n. n ≤ most) }
{
    if word.len() > MOST_DIGITS || has_front_zero(word) {
        return None;
    }
    let number = number_of_word(word)?;
    if number > most {
        return None;
    }
    Some(number)
}

fn has_front_zero(word: &[u8]) -> bool
    ensures { result ≡ has_front_zero word.now }
{
    word.len() > 1 && word[0] == b'0'
}

/// The number of 64 bits that a word's digits spell. Of at most 20 digits, only the last can make it too large.
#[tactic(auto, using(crate::proofs::Digits::pushed, crate::proofs::Digits::few))]
fn number_of_word(word: &[u8]) -> Option<u64>
    requires { length word.now ≤ 20 }
    ensures { result ≡ number_of_digits word.now }
{
    if !word.is_empty() && word.len() < MOST_DIGITS {
        return number_of_front(word);
    }
    let (last, front) = word.split_last()?;
    let (tens, ones) = (number_of_front(front)?, digit(*last)?);
    tens.checked_mul(10)?.checked_add(ones)
}

/// The number that fewer than 20 digits spell, or 0 if there are none.
#[tactic(auto, using(crate::proofs::Digits::room))]
fn number_of_front(digits: &[u8]) -> Option<u64>
    requires { length digits.now < 20 }
    ensures value { result ≡ digits_number digits.now }
    ensures bound { IfSome result (λ n. n < 10 ^ length digits.now) }
{
    let mut number = 0;
    for byte in digits {
        number = number * 10 + digit(*byte)?;
    }
    Some(number)
}

/// The value of a byte, if it is a digit.
fn digit(byte: u8) -> Option<u64>
    ensures value { result ≡ digit_number byte }
    ensures bound { IfSome result (λ digit. digit < 10) }
{
    match byte {
        b'0'..=b'9' => Some((byte - b'0') as u64),
        _ => None,
    }
}
