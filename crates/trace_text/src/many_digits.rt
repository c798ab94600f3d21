//! Digits of a text, many at once.

ghost use Rattle.std.specs.Prelude.{◌≡◌, ◌+◌, ◌<◌, ◌≤◌, true, length, take, drop};
ghost use Rattle.std.specs.Char.{is_ascii_digit};
ghost use Rattle.std.specs.List.{list_all};
ghost use Rattle.std.specs.Str.Parse.{digits_value};

use std::simd::prelude::*;

// The most digits that are read at once.
pub(crate) const LANES: usize = 16;

// A word of eight bytes `0`.
const EIGHT_ZEROS: u64 = 0x3030_3030_3030_3030;

// The number of digits at `from` that no other byte precedes, of the next 16 bytes.
#[inline(always)]
fn leading_digits(text: &[u8], from: usize) -> usize
    requires { from + LANES ≤ length text.now }
    ensures most { result ≤ LANES }
    ensures digits { list_all is_ascii_digit (take result (drop from text.now)) ≡ true }
{
    let others = (u8x16::from_slice(&text[from..]) - u8x16::splat(b'0'))
        .simd_ge(u8x16::splat(10))
        .to_bitmask();
    if others == 0 {
        LANES
    } else {
        others.trailing_zeros() as usize
    }
}

// The number of the eight digits at `from`.
#[inline(always)]
fn eight_digits(text: &[u8], from: usize) -> u64
    requires room { from + 8 ≤ length text.now }
    requires digits { list_all is_ascii_digit (take 8 (drop from text.now)) ≡ true }
    ensures value { result ≡ digits_value 10 (take 8 (drop from text.now)) }
    ensures bound { result < 100000000 }
{
    let word = u64::from_le_bytes([
        text[from],
        text[from + 1],
        text[from + 2],
        text[from + 3],
        text[from + 4],
        text[from + 5],
        text[from + 6],
        text[from + 7],
    ]);
    // Each byte is a digit, and then ten times the digit and the next one.
    let digits = word - EIGHT_ZEROS;
    let tens = digits * 10;
    let pairs = tens + digits / 256;
    let first = pairs % 256 * 100 + (pairs >> 16) % 256;
    let last = (pairs >> 32) % 256 * 100 + (pairs >> 48) % 256;
    first * 10_000 + last
}

// The first 16 digits at `from`, or 8 or none if there are fewer: how many, and their number.
#[inline(always)]
pub(crate) fn first_digits(text: &[u8], from: usize) -> (usize, u64)
    requires { from + LANES ≤ length text.now }
    ensures most { result.0 ≤ LANES }
    ensures digits { list_all is_ascii_digit (take result.0 (drop from text.now)) ≡ true }
    ensures value { result.1 ≡ digits_value 10 (take result.0 (drop from text.now)) }
{
    let count = leading_digits(text, from);
    if count < 8 {
        return (0, 0);
    }
    let first = eight_digits(text, from);
    if count < LANES {
        return (8, first);
    }
    (LANES, first * 100_000_000 + eight_digits(text, from + 8))
}
