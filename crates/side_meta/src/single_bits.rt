//! Reading, setting and clearing one bit of a word, by the word's index and the bit's place in it.

ghost use Rattle.std.specs.Prelude.{◌≡◌, ℕ, ◌<◌, ◌^◌, length, slice_index, slice_set};
ghost use Rattle.std.specs.Int.{bit_at};
ghost use Rattle.side_meta.specs.BitWords.{has_bit, with_bit, without_bit, ChangesBit};

use crate::row::Words;
use crate::word::BITS_PER_WORD;

/// Whether a bit of the word at `index` is 1.
#[inline(always)]
pub fn test_bit<W: Words>(words: &W, index: u32, bit: u32) -> bool
    requires word { index < length (W.words words.now) }
    requires bit { bit < BITS_PER_WORD }
    ensures { result ≡ has_bit (slice_index (W.words words.now) index) bit }
{
    words.get(index) >> bit & 1 == 1
}

/// Sets a bit of the word at `index` to 1. No other bit of the row changes.
#[inline(always)]
pub fn set_bit<W: Words>(words: &mut W, index: u32, bit: u32)
    requires word { index < length (W.words words.old) }
    requires bit { bit < BITS_PER_WORD }
    ensures words { W.words words.new ≡ slice_set (W.words words.old) index
        (with_bit (slice_index (W.words words.old) index) bit) }
    ensures set { bit_at (slice_index (W.words words.new) index) bit ≡ 1 }
    ensures alone { ChangesBit (W.words words.old) (W.words words.new) index bit }
    ensures fit { (k : ℕ) → slice_index (W.words words.new) k < 2 ^ 64 }
{
    let word = words.get(index);
    words.set(index, word | 1 << bit);
}

/// Sets a bit of the word at `index` to 0. No other bit of the row changes.
#[inline(always)]
pub fn clear_bit<W: Words>(words: &mut W, index: u32, bit: u32)
    requires word { index < length (W.words words.old) }
    requires bit { bit < BITS_PER_WORD }
    ensures words { W.words words.new ≡ slice_set (W.words words.old) index
        (without_bit (slice_index (W.words words.old) index) bit) }
    ensures clear { bit_at (slice_index (W.words words.new) index) bit ≡ 0 }
    ensures alone { ChangesBit (W.words words.old) (W.words words.new) index bit }
    ensures fit { (k : ℕ) → slice_index (W.words words.new) k < 2 ^ 64 }
{
    let word = words.get(index);
    words.set(index, word & !(1 << bit));
}
