//! Tokens, read at a given offset of a text. Offsets are in bytes.
//!
//! `None` does not mean a fault: the plain reader then decides about the line.

ghost use Rattle.std.specs.Prelude.{◌≡◌, ◌+◌, ◌≤◌, true, [], ◌∷◌, ◌++◌, length, take, drop, IfSome, IsTrue};
ghost use Rattle.std.specs.Char.{is_ascii_digit};
ghost use Rattle.std.specs.Int.{w32, from_le_bytes};
ghost use Rattle.std.specs.List.{list_all};
ghost use Rattle.std.specs.Str.Parse.{digits_value};
ghost use Rattle.std.specs.Fmt.{decimal};
ghost use Rattle.trace_text.specs.Words.{Register, Global};
ghost use Rattle.trace_text.specs.Parts.{HasPiece, spaced_argument};

use crate::many_digits::first_digits;
use crate::numerals::has_room;
use ideal_heap::{MAX_GLOBAL, MAX_REGISTER};

// The first four bytes of a text, as a number.
#[inline(always)]
fn first_four(text: &[u8]) -> u32
    requires { 4 ≤ length text.now }
    ensures { result ≡ from_le_bytes w32 (take 4 text.now) }
{
    u32::from_le_bytes([text[0], text[1], text[2], text[3]])
}

// Whether the text begins with the word. Four bytes are compared at once.
#[inline(always)]
fn begins_with(text: &[u8], word: &[u8]) -> bool
    ensures { IsTrue result → text.now ≡ word.now ++ drop (length word.now) text.now }
{
    if word.len() < 4 || text.len() < 4 {
        return text.starts_with(word);
    }
    if first_four(text) != first_four(word) {
        return false;
    }
    text[4..].starts_with(&word[4..])
}

// The offset after the word, if the text begins with it.
#[inline(always)]
pub(crate) fn word(text: &[u8], word: &[u8]) -> Option<usize>
    ensures text { IfSome result (λ at. text.now ≡ word.now ++ drop at text.now) }
    ensures end { IfSome result (λ at. at ≡ length word.now) }
{
    if !begins_with(text, word) {
        return None;
    }
    Some(word.len())
}

// The offset after the newline at `at`.
#[inline(always)]
pub(crate) fn line_end(text: &[u8], at: usize) -> Option<usize>
    requires { at + 1 ≤ length text.now }
    ensures text { IfSome result (λ end. HasPiece text.now at (10 ∷ []) end) }
    ensures end { IfSome result (λ end. end ≡ at + 1) }
{
    if text[at] != b'\n' {
        return None;
    }
    Some(at + 1)
}

// The number, of at most `most`, whose digits begin at `from`, and the offset after them. It reads
// at most `count` digits, of which `read` make the number `start`.
#[inline(always)]
fn number_after(
    text: &[u8],
    from: usize,
    read: usize,
    start: u64,
    most: u64,
    count: usize,
) -> Option<(u64, usize)>
    requires room { from + count ≤ length text.now }
    requires few { read ≤ count }
    requires digits { list_all is_ascii_digit (take read (drop from text.now)) ≡ true }
    requires exact { start ≡ digits_value 10 (take read (drop from text.now)) }
    requires within { start ≤ most }
    ensures text { IfSome result (λ x. HasPiece text.now from (decimal x.0) x.1) }
    ensures bound { IfSome result (λ x. (x.0 ≤ most) × (x.1 ≤ from + count)) }
{
    let mut value = start;
    let mut k = read;
    while k < count && text[from + k].is_ascii_digit() {
        let digit = u64::from(text[from + k] - b'0');
        if !has_room(value, digit, most) {
            return None;
        }
        value = value * 10 + digit;
        k += 1;
    }
    if k == 0 {
        return None;
    }
    if text[from] == b'0' && k > 1 {
        return None;
    }
    Some((value, from + k))
}

// The number, of at most `most`, whose digits begin at `from`, and the offset after them. It reads
// at most `count` digits.
#[inline(always)]
fn number(text: &[u8], from: usize, most: u64, count: usize) -> Option<(u64, usize)>
    requires { from + count ≤ length text.now }
    ensures text { IfSome result (λ x. HasPiece text.now from (decimal x.0) x.1) }
    ensures bound { IfSome result (λ x. (x.0 ≤ most) × (x.1 ≤ from + count)) }
{
    number_after(text, from, 0, 0, most, count)
}

// A space and a number of at most `most`: the number, and the offset after it.
#[inline(always)]
pub(crate) fn small(text: &[u8], at: usize, most: u32) -> Option<(u32, usize)>
    requires { at + 6 ≤ length text.now }
    ensures text { IfSome result (λ x. HasPiece text.now at (32 ∷ decimal x.0) x.1) }
    ensures bound { IfSome result (λ x. (x.0 ≤ most) × (x.1 ≤ at + 6)) }
{
    if text[at] != b' ' {
        return None;
    }
    let (n, end) = number(text, at + 1, u64::from(most), 5)?;
    Some((n as u32, end))
}

// A space and a number of 64 bits: the number, and the offset after it.
#[inline(always)]
pub(crate) fn value(text: &[u8], at: usize) -> Option<(u64, usize)>
    requires { at + 21 ≤ length text.now }
    ensures text { IfSome result (λ x. HasPiece text.now at (32 ∷ decimal x.0) x.1) }
    ensures bound { IfSome result (λ x. x.1 ≤ at + 21) }
{
    if text[at] != b' ' {
        return None;
    }
    let (read, start) = first_digits(text, at + 1);
    number_after(text, at + 1, read, start, u64::MAX, 20)
}

// A space and a register: its number, and the offset after it.
#[inline(always)]
pub(crate) fn register(text: &[u8], at: usize) -> Option<(u32, usize)>
    requires { at + 4 ≤ length text.now }
    ensures text { IfSome result (λ x. HasPiece text.now at (spaced_argument Register x.0) x.1) }
    ensures bound { IfSome result (λ x. (x.0 ≤ MAX_REGISTER) × (x.1 ≤ at + 4)) }
{
    if text[at] != b' ' || text[at + 1] != b'r' {
        return None;
    }
    let (n, end) = number(text, at + 2, u64::from(MAX_REGISTER), 2)?;
    Some((n as u32, end))
}

// A space and a global: its number, and the offset after it.
#[inline(always)]
pub(crate) fn global(text: &[u8], at: usize) -> Option<(u32, usize)>
    requires { at + 4 ≤ length text.now }
    ensures text { IfSome result (λ x. HasPiece text.now at (spaced_argument Global x.0) x.1) }
    ensures bound { IfSome result (λ x. (x.0 ≤ MAX_GLOBAL) × (x.1 ≤ at + 4)) }
{
    if text[at] != b' ' || text[at + 1] != b'g' {
        return None;
    }
    let (n, end) = number(text, at + 2, u64::from(MAX_GLOBAL), 2)?;
    Some((n as u32, end))
}
