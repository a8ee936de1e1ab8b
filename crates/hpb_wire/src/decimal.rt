//! Writes numbers in decimal, the first digit first.
ghost use Rattle.std.specs.Prelude.{◌≡◌, ◌≤◌, ◌<◌, ◌+◌, ◌/◌, ◌%◌, ◌++◌, take, length, decimal};
ghost use Rattle.hpb_wire.specs.Decimals.{pair};

use crate::pieces::{put_piece, put_text};
use itoa::Buffer;

/// The most digits that a number has.
pub(crate) const MOST_DIGITS: usize = 20;

/// The pairs of digits from 00 to 99, one after another.
static PAIRS: [u8; 200] =
    *b"00010203040506070809101112131415161718192021222324252627282930313233343536373839404142434445464748495051525354555657585960616263646566676869707172737475767778798081828384858687888990919293949596979899";

/// Writes a number.
#[inline(always)]
pub(crate) fn put_number(bytes: &mut [u8], at: usize, number: u64) -> usize
    requires { at + MOST_DIGITS ≤ length bytes.old }
    ensures written { take result bytes.new ≡ take at bytes.old ++ decimal number }
    ensures most { result ≤ at + MOST_DIGITS }
{
    if number < 10_000 {
        return put_short(bytes, at, number);
    }
    if number < 100_000_000 {
        let four = number % 10_000;
        let next = put_short(bytes, at, number / 10_000);
        let last = put_piece(bytes, next, &two_digits(four / 100));
        return put_piece(bytes, last, &two_digits(four % 100));
    }
    put_long(bytes, at, number)
}

/// Writes a number of any size.
#[cold]
#[inline(never)]
fn put_long(bytes: &mut [u8], at: usize, number: u64) -> usize
    requires { at + MOST_DIGITS ≤ length bytes.old }
    ensures written { take result bytes.new ≡ take at bytes.old ++ decimal number }
    ensures most { result ≤ at + MOST_DIGITS }
{
    put_text(bytes, at, Buffer::new().format(number).as_bytes())
}

/// Writes a number of up to four digits.
#[inline(always)]
fn put_short(bytes: &mut [u8], at: usize, number: u64) -> usize
    requires short { number < 10_000 }
    requires room { at + 4 ≤ length bytes.old }
    ensures written { take result bytes.new ≡ take at bytes.old ++ decimal number }
    ensures most { result ≤ at + 4 }
{
    if number < 10 {
        return put_piece(bytes, at, &one_digit(number));
    }
    if number < 100 {
        return put_piece(bytes, at, &two_digits(number));
    }
    if number < 1_000 {
        let next = put_piece(bytes, at, &one_digit(number / 100));
        return put_piece(bytes, next, &two_digits(number % 100));
    }
    let next = put_piece(bytes, at, &two_digits(number / 100));
    put_piece(bytes, next, &two_digits(number % 100))
}

/// The two digits of a number below 100, even if the first is 0.
#[inline(always)]
fn two_digits(number: u64) -> [u8; 2]
    requires { number < 100 }
    ensures { result ≡ pair number }
{
    let from = number as usize * 2;
    [PAIRS[from], PAIRS[from + 1]]
}

#[inline(always)]
fn one_digit(number: u64) -> [u8; 1]
    requires { number < 10 }
    ensures { result ≡ decimal number }
{
    [b'0' + number as u8]
}
