//! Whether the bits of a block in two zones differ.

ghost use Rattle.std.specs.Prelude.{◌≡◌, ◌≢◌, ◌+◌, ◌<◌, ◌≤◌, ◌^◌, ℕ, true, false, length, slice_index};

use heap_layout::BLOCK_BIT_WORDS;
use object_model::WordRow;

/// Whether the words of a row from two indexes on differ, as many as a block has of start bits.
/// Tests once for eight words.
pub fn differ(words: &WordRow, these: usize, those: usize) -> bool
    requires these { these + BLOCK_BIT_WORDS ≤ length words.now }
    requires those { those + BLOCK_BIT_WORDS ≤ length words.now }
    requires short { length words.now < 2 ^ 32 }
    ensures some { result ≡ true → (i : ℕ) × (i < BLOCK_BIT_WORDS)
        × (slice_index words.now (these + i) ≢ slice_index words.now (those + i)) }
    ensures none { result ≡ false → (i : ℕ) → i < BLOCK_BIT_WORDS
        → slice_index words.now (these + i) ≡ slice_index words.now (those + i) }
{
    for eight in 0..8 {
        if eight_differ(words, these, those, 8 * eight) {
            return true;
        }
    }
    false
}

/// Whether one of eight words differs. It takes no branch for each.
#[inline(always)]
fn eight_differ(words: &WordRow, these: usize, those: usize, from: usize) -> bool
    requires these { these + from + 8 ≤ length words.now }
    requires those { those + from + 8 ≤ length words.now }
    requires short { length words.now < 2 ^ 32 }
    ensures some { result ≡ true → (i : ℕ) × (from ≤ i) × (i < from + 8)
        × (slice_index words.now (these + i) ≢ slice_index words.now (those + i)) }
    ensures none { result ≡ false → (i : ℕ) → from ≤ i → i < from + 8
        → slice_index words.now (these + i) ≡ slice_index words.now (those + i) }
{
    let mut bits = 0;
    for index in from..from + 8 {
        bits |= words.get(these + index) ^ words.get(those + index);
    }
    bits != 0
}
