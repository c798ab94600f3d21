//! Numerals, and the arguments of commands.

ghost use Rattle.std.specs.Prelude.{◌≡◌, ◌↔◌, ℕ, ◌+◌, ◌*◌, ◌≤◌, ◌∷◌, [], IfOk, IsTrue};
ghost use Rattle.trace_text.specs.Parts.{IsUpTo};
ghost use Rattle.trace_text.specs.Words.{Register, Global, RefCount, NumCount, RefIndex, NumIndex, Value};
ghost use Rattle.trace_text.specs.Grammar.{argument, numeral_after, checked, numeral};

use crate::fault::Why;
use ideal_heap::{MAX_GLOBAL, MAX_NUMS, MAX_REFS, MAX_REGISTER};

// Whether `value`, with one more digit, is at most `most`.
#[inline(always)]
pub(crate) fn has_room(value: u64, digit: u64, most: u64) -> bool
    requires { digit ≤ 9 }
    ensures { IsTrue result ↔ value * 10 + digit ≤ most }
{
    value < most / 10 || (value == most / 10 && digit <= most % 10)
}

// The number with one more digit. `None` represents a number above `most`.
fn with_digit(value: Option<u64>, digit: u64, most: u64) -> Option<u64>
    requires { digit ≤ 9 }
    ensures { (n : ℕ) → IsUpTo most n value → IsUpTo most (n * 10 + digit) result }
{
    match value {
        Some(start) if has_room(start, digit, most) => Some(start * 10 + digit),
        _ => None,
    }
}

/// The number of a numeral: `0`, or decimal digits that do not begin with 0, without a sign.
///
/// Errors: `Why::Number` if the word is no numeral, `Why::Range` if its number is above `most`.
/// The word may have any length.
#[tactic(auto, using(crate::proofs::NumeralLemmas::numerals))]
pub fn read_numeral(word: &[u8], most: u64) -> Result<u64, Why>
    ensures value { result ≡ checked most (numeral word.now) }
    ensures bound { IfOk result (λ n. n ≤ most) }
{
    if word.is_empty() {
        return Err(Why::Number);
    }
    if word[0] == b'0' && word.len() > 1 {
        return Err(Why::Number);
    }
    let mut value = Some(0);
    for b in word {
        if !b.is_ascii_digit() {
            return Err(Why::Number);
        }
        value = with_digit(value, u64::from(*b - b'0'), most);
    }
    value.ok_or(Why::Range)
}

// The number of a numeral, of at most `most`, as 32 bits.
fn read_small(word: &[u8], most: u32) -> Result<u32, Why>
    ensures value { result ≡ checked most (numeral word.now) }
    ensures bound { IfOk result (λ n. n ≤ most) }
{
    Ok(read_numeral(word, u64::from(most))? as u32)
}

// The number of a numeral after a letter.
fn read_lettered(letter: u8, word: &[u8], most: u32) -> Result<u32, Why>
    ensures value { result ≡ checked most (numeral_after (letter ∷ []) word.now) }
    ensures bound { IfOk result (λ n. n ≤ most) }
{
    match word.split_first() {
        Some((first, digits)) if *first == letter => read_small(digits, most),
        _ => Err(Why::Number),
    }
}

// A register number.
pub(crate) fn register(word: &[u8]) -> Result<u32, Why>
    ensures { result ≡ argument Register word.now }
{
    read_lettered(b'r', word, MAX_REGISTER)
}

// The number of a global.
pub(crate) fn global(word: &[u8]) -> Result<u32, Why>
    ensures { result ≡ argument Global word.now }
{
    read_lettered(b'g', word, MAX_GLOBAL)
}

// A count of references.
pub(crate) fn ref_count(word: &[u8]) -> Result<u32, Why>
    ensures { result ≡ argument RefCount word.now }
{
    read_small(word, MAX_REFS)
}

// A count of numbers.
pub(crate) fn num_count(word: &[u8]) -> Result<u32, Why>
    ensures { result ≡ argument NumCount word.now }
{
    read_small(word, MAX_NUMS)
}

// The index of a reference, counted from 0.
pub(crate) fn ref_index(word: &[u8]) -> Result<u32, Why>
    ensures { result ≡ argument RefIndex word.now }
{
    read_small(word, MAX_REFS - 1)
}

// The index of a number, counted from 0.
pub(crate) fn num_index(word: &[u8]) -> Result<u32, Why>
    ensures { result ≡ argument NumIndex word.now }
{
    read_small(word, MAX_NUMS - 1)
}

// A number of 64 bits.
pub(crate) fn value(word: &[u8]) -> Result<u64, Why>
    ensures { result ≡ argument Value word.now }
{
    read_numeral(word, u64::MAX)
}
