//! Whether so many objects may fill so many blocks.

ghost use Rattle.std.specs.Prelude.{◌≡◌, ◌≤◌, ℕ, true, false};
ghost use Rattle.session_counts.specs.Sizes.{least_words as has_least, may_be_large as may_have_large, may_fill as may_have, most_words as has_most};

use heap_layout::BLOCK_WORDS;
use ideal_heap::{MAX_NUMS, MAX_REFS};
use object_model::{HEADER_WORDS, MAX_MEDIUM_WORDS};

/// The most words of an object.
pub const MAX_OBJECT_WORDS: u32 = HEADER_WORDS + MAX_REFS + MAX_NUMS;

/// The most blocks of an object.
pub(crate) const MAX_OBJECT_BLOCKS: u32 = (MAX_OBJECT_WORDS + BLOCK_WORDS - 1) / BLOCK_WORDS;

/// The words that the longest object leaves of its blocks.
pub(crate) const SPARE_WORDS: u32 = MAX_OBJECT_BLOCKS * BLOCK_WORDS - MAX_OBJECT_WORDS;

// The least words of so many large objects with so many blocks in all.
fn least_words(count: u64, large: u64) -> u128
    ensures { result ≡ has_least count large }
{
    let (count, large) = (u128::from(count), u128::from(large));
    u128::from(BLOCK_WORDS) * large.saturating_sub(count)
        + count
        + u128::from(MAX_MEDIUM_WORDS) * (2 * count).saturating_sub(large)
}

// The most words of so many large objects with so many blocks in all.
fn most_words(count: u64, large: u64) -> u128
    ensures { result ≡ has_most count large }
{
    let (count, large) = (u128::from(count), u128::from(large));
    let longest = large.saturating_sub(u128::from(MAX_OBJECT_BLOCKS - 1) * count);
    (u128::from(BLOCK_WORDS) * large).saturating_sub(u128::from(SPARE_WORDS) * longest)
}

// Whether `count` of so many objects may be large, if they fill so many blocks.
fn may_be_large(objects: u64, words: u128, large: u64, small: u64, count: u64) -> bool
    ensures { result ≡ may_have_large objects words large small count }
{
    let others = u128::from(objects.saturating_sub(count));
    count <= large
        && u128::from(large) <= u128::from(MAX_OBJECT_BLOCKS) * u128::from(count)
        && u128::from(count) + u128::from(small) <= u128::from(objects)
        && least_words(count, large) + u128::from(HEADER_WORDS) * others <= words
        && words <= most_words(count, large) + u128::from(MAX_MEDIUM_WORDS) * others
}

// Whether some of so many objects may be large.
fn some_may_be_large(objects: u64, words: u128, large: u64, small: u64) -> bool
    ensures found { result ≡ true → (k : ℕ) × (k ≤ large)
        × (may_have_large objects words large small k ≡ true) }
    ensures none { result ≡ false → (k : ℕ) → k ≤ large
        → may_have_large objects words large small k ≡ false }
{
    for less in 0..large {
        if may_be_large(objects, words, large, small, large - less) {
            return true;
        }
    }
    may_be_large(objects, words, large, small, 0)
}

/// Whether so many objects, with so many words, may fill so many blocks of large objects, and so
/// many others with one at least in each.
pub fn may_fill(objects: u64, words: u128, large: u64, small: u64) -> bool
    ensures { result ≡ may_have objects words large small }
{
    some_may_be_large(objects, words, large, small)
}
