//! The free words at the end of a block.

ghost use Rattle.std.specs.Prelude.{◌≡◌, ◌<◌, ◌≤◌, ℕ, MatchOption};
ghost use Rattle.heap_layout.specs.Zones.{IsRowOf};
ghost use Rattle.heap_layout.specs.declared.block.Kind.TheVariants as kinds;
ghost use Rattle.object_model.specs.Objects.{HasKind, IsHeld, size_at, shown};
ghost use Rattle.object_model.specs.Lawful.{IsReadableBlock, Lies};
ghost use Rattle.sessions.specs.Fitting.{IsTail};
ghost use Rattle.block_sweeps.specs.Sweeping.{AreApart};
ghost use Rattle.copy_space.specs.LastOffsets.{HasNone, IsLast, HasNoWordFrom};

use block_sweeps::object_size;
use heap_layout::{BLOCK_BIT_WORDS, BLOCK_WORDS, Layout, Region};
use side_meta::{BITS_PER_WORD, Words};

/// The tail of a block: the words after its last object, or all words if no object begins in it.
///
/// For callers that have words and no view, as tests: a search for room reads the end of the last
/// object from the block's view, and the rest of a block that a mutator fills is kept as a region.
pub fn tail<W: Words>(words: &W, layout: &Layout, block: u32) -> Region
    requires block { IsReadableBlock (shown (W.words words.now) layout.now) block }
    requires apart { AreApart (shown (W.words words.now) layout.now) block }
    requires head { HasKind (shown (W.words words.now) layout.now) block
        kinds.LargeHead → ⊥ }
    requires tail { HasKind (shown (W.words words.now) layout.now) block
        kinds.LargeTail → ⊥ }
    ensures tail { IsTail (shown (W.words words.now) layout.now) block result.next }
    ensures clear { ((a : ℕ) → IsHeld (shown (W.words words.now) layout.now) a
        → Lies (shown (W.words words.now) layout.now) a
        (size_at (shown (W.words words.now) layout.now) a))
        → HasNoWordFrom (shown (W.words words.now) layout.now) block result.next }
    ensures end { result.end ≡ BLOCK_WORDS }
    ensures inside { result.next ≤ BLOCK_WORDS }
{
    Region {
        next: objects_end(words, layout, block),
        end: BLOCK_WORDS,
    }
}

/// The offset after the last object that begins in the block, or 0.
fn objects_end<W: Words>(words: &W, layout: &Layout, block: u32) -> u32
    requires block { IsReadableBlock (shown (W.words words.now) layout.now) block }
    requires apart { AreApart (shown (W.words words.now) layout.now) block }
    requires head { HasKind (shown (W.words words.now) layout.now) block
        kinds.LargeHead → ⊥ }
    ensures tail { IsTail (shown (W.words words.now) layout.now) block result }
    ensures inside { result ≤ BLOCK_WORDS }
{
    match last_object(words, layout, block) {
        Some(offset) => offset + object_size(words, layout.address(block, offset)),
        None => 0,
    }
}

/// The offset of the last object that begins in the block. Looks for it from the end of the block,
/// a word of start bits at a time.
fn last_object<W: Words>(words: &W, layout: &Layout, block: u32) -> Option<u32>
    requires extent { IsRowOf layout.now (W.words words.now) }
    requires block { block < layout.now.blocks }
    ensures { MatchOption result
        (HasNone (shown (W.words words.now) layout.now) block)
        (λ offset. IsLast (shown (W.words words.now) layout.now) block offset) }
{
    for index in (0..BLOCK_BIT_WORDS).rev() {
        let starts = words.get(layout.start_base() + BLOCK_BIT_WORDS * block + index);
        if starts != 0 {
            return Some(BITS_PER_WORD * index + (63 - starts.leading_zeros()));
        }
    }
    None
}
