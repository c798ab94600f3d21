//! The search for a free cell, a word of start bits at a time.

ghost use Rattle.std.specs.Prelude.{◌≡◌, ◌+◌, ◌*◌, ◌<◌, ◌≤◌, ◌^◌, IfSome, MatchOption};
ghost use Rattle.object_model.specs.Lawful.{AllLie, MeetsNoObject};
ghost use Rattle.heap_layout.specs.Zones.{block_start, IsRowOf};
ghost use Rattle.heap_layout.specs.declared.block.Kind.TheVariants as kinds;
ghost use Rattle.object_model.specs.Objects.{HasKind, class_at, cell_words, shown};
ghost use Rattle.cell_space.specs.FreeCells.{IsNextCell, HasNoCell};
ghost use Rattle.cell_space.specs.WordCells.{IsFirstBeside, HasNoneBeside, IsFirstClear, HasNoneClear};

use crate::classes::{cell_size, cell_starts};
use heap_layout::{BLOCK_BIT_WORDS, BLOCK_WORDS, Layout};
use side_meta::{BITS_PER_WORD, Words};

/// The offset of the first free cell of a Cells block that begins at or after the offset `from`.
///
/// Reads no object, and each word of start bits at most once.
pub fn next_cell<W: Words>(
    words: &W,
    layout: &Layout,
    block: u32,
    class: u32,
    from: u32,
) -> Option<u32>
    requires extent { IsRowOf layout.now (W.words words.now) }
    requires kind { HasKind (shown (W.words words.now) layout.now) block kinds.Cells }
    requires class { class_at (shown (W.words words.now) layout.now) block ≡ class }
    requires known { class ≤ 18 }
    ensures cell { MatchOption result
        (HasNoCell (shown (W.words words.now) layout.now) block from)
        (λ at. IsNextCell (shown (W.words words.now) layout.now) block from at) }
    ensures apart { AllLie (shown (W.words words.now) layout.now)
        → IfSome result (λ at. MeetsNoObject (shown (W.words words.now) layout.now)
        (block_start layout.now.blocks block + at) (cell_words class)) }
{
    let size = cell_size(class);
    if from > BLOCK_WORDS - size {
        return None;
    }
    let mut at = from.div_ceil(size) * size;
    while at <= BLOCK_WORDS - size {
        if let Some(found) = free_beside(words, layout, block, class, at) {
            return fitting(found, size);
        }
        at = (BITS_PER_WORD * (at / BITS_PER_WORD + 1)).div_ceil(size) * size;
    }
    None
}

/// The offset, if a cell of `size` words that begins there ends in the block.
fn fitting(offset: u32, size: u32) -> Option<u32>
    requires offset { offset < BLOCK_WORDS }
    requires size { size ≤ BLOCK_WORDS }
    ensures { MatchOption result (BLOCK_WORDS < offset + size)
        (λ at. (at ≡ offset) × (at + size ≤ BLOCK_WORDS)) }
{
    if offset + size > BLOCK_WORDS {
        return None;
    }
    Some(offset)
}

/// The first free cell from the one at offset `at` on, among those that begin at addresses of the
/// same word of start bits.
fn free_beside<W: Words>(words: &W, layout: &Layout, block: u32, class: u32, at: u32) -> Option<u32>
    requires extent { IsRowOf layout.now (W.words words.now) }
    requires block { block < layout.now.blocks }
    requires class { class ≤ 18 }
    requires offset { at < BLOCK_WORDS }
    ensures cell { MatchOption result
        (HasNoneBeside (shown (W.words words.now) layout.now)
        block (cell_words class) at)
        (λ x. IsFirstBeside (shown (W.words words.now) layout.now)
        block (cell_words class) at x) }
    ensures inside { IfSome result (λ x. x < BLOCK_WORDS) }
{
    let word = at / BITS_PER_WORD;
    let starts = words.get(layout.start_base() + BLOCK_BIT_WORDS * block + word);
    let bit = clear_cell(starts, class, at % BITS_PER_WORD)?;
    Some(BITS_PER_WORD * word + bit)
}

/// The first clear bit among those where cells begin, if one begins at `bit`.
fn clear_cell(starts: u64, class: u32, bit: u32) -> Option<u32>
    requires class { class ≤ 18 }
    requires bit { bit < BITS_PER_WORD }
    ensures { MatchOption result (HasNoneClear starts (cell_words class) bit)
        (λ n. IsFirstClear starts (cell_words class) bit n) }
{
    let free = cell_starts(class) << bit & !starts;
    if free == 0 {
        return None;
    }
    Some(free.trailing_zeros())
}
