//! The search for the first or last bit in a slice of words, word by word.

ghost use Rattle.std.specs.Prelude.{◌≡◌, ◌↔◌, ℕ, ◌*◌, ◌<◌, ◌≤◌, true, length, nat_eq, MatchOption};
ghost use Rattle.std.specs.Int.{bit_at};
ghost use Rattle.line_marks.specs.Bits.{IsFirstSet, HasNoneSet, IsFirstBit, HasNoBit, IsLastBit};

use heap_layout::BLOCK_BIT_WORDS;
use side_meta::BITS_PER_WORD;

/// The lowest set bit of `word` at or after bit `from`.
fn first_set(word: u64, from: u32) -> Option<u32>
    requires { from < BITS_PER_WORD }
    ensures { MatchOption result (HasNoneSet word from) (λ n. IsFirstSet word from n) }
{
    let rest = word >> from;
    if rest == 0 {
        return None;
    }
    Some(from + rest.trailing_zeros())
}

/// The word whose set bits are the bits of `word` with this value.
fn bits_with(word: u64, value: bool) -> u64
    ensures { (n : ℕ) → n < BITS_PER_WORD → (bit_at result n ≡ 1) ↔ (nat_eq (bit_at word n) 1
        ≡ value) }
{
    if value { word } else { !word }
}

/// The first bit of `words` with this value, at or after bit `from`.
pub fn first_bit(words: &[u64], value: bool, from: u32) -> Option<u32>
    requires { length words.now ≤ BLOCK_BIT_WORDS }
    ensures { MatchOption result (HasNoBit words.now value from)
        (λ n. IsFirstBit words.now value from n) }
{
    let mut bit = from % BITS_PER_WORD;
    for i in (from / BITS_PER_WORD) as usize..words.len() {
        if let Some(found) = first_set(bits_with(words[i], value), bit) {
            return Some(BITS_PER_WORD * i as u32 + found);
        }
        bit = 0;
    }
    None
}

/// The last set bit of `words`.
pub fn last_bit(words: &[u64]) -> Option<u32>
    requires { length words.now ≤ BLOCK_BIT_WORDS }
    ensures { MatchOption result (HasNoBit words.now true 0) (λ n. IsLastBit words.now n) }
{
    for i in (0..words.len()).rev() {
        if words[i] != 0 {
            return Some(BITS_PER_WORD * i as u32 + (63 - words[i].leading_zeros()));
        }
    }
    None
}
