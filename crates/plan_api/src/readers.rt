//! The functions that read blocks of a heap's row. Plans decide by their results alone.

ghost use Rattle.std.specs.Prelude.{◌≡◌, ◌+◌, ◌*◌, ◌<◌, ◌≤◌, ℕ, IsTrue, length, slice_index};
ghost use Rattle.plan_api.specs.Prelude.{first, BlockWords, StartBits, IsRowOf, code_of, is_block_code, IsValidWord, state_over, block_word, shown, IsReadableBlock, heap_state, AreApart, IsViewOf, IsFirstHole};

use crate::block_view::BlockView;
use crate::holes::{clear_lines, first_hole};
use block_sweeps::object_size;
use cell_space::{cell_size, class_of, next_cell};
use heap_layout::{BLOCK_BIT_WORDS, BlockWord, Kind, Layout, Region, decode};
use line_marks::{last_bit, line_words};
use object_model::{HEADER_WORDS, Heap, MAX_MEDIUM_WORDS};
use side_meta::Words;

/// The view of a block of a heap.
pub fn view(heap: &Heap, block: u32) -> BlockView
    requires { block < (heap_state heap.now).blocks }
    ensures { IsViewOf (heap_state heap.now) block result }
{
    view_in(heap.words(), heap.layout(), block)
}

/// The view of a block of the row `words`. Reads the block word, the line words and the start
/// words once each, and the shape word of the last object that begins in the block.
pub fn view_in<W: Words>(words: &W, layout: &Layout, block: u32) -> BlockView
    requires { IsReadableBlock (shown (W.words words.now) layout.now) block }
    ensures { (number base : ℕ) → IsViewOf (state_over
        (W.words words.now) layout.now number base) block result }
{
    let starts = start_words(words, layout, block);
    let end = match last_bit(&starts) {
        Some(offset) => offset + object_size(words, layout.address(block, offset)),
        None => 0,
    };
    BlockView {
        word: block_word_in(words, layout, block),
        lines: line_words(words, layout, block),
        starts,
        end,
    }
}

/// The first part of a hole of a block that has room for `size` words and begins at or after the
/// offset `from`, in words, as `first_hole` finds it in the block's view. Reads the block word
/// alone if kind or class do not suit. Of a block of lines it reads the line words besides; of a
/// block of cells start words up to that of the first free cell, and no object.
pub fn hole_in_block<W: Words>(
    words: &W,
    layout: &Layout,
    fill: Kind,
    block: u32,
    from: u32,
    size: u32,
) -> Option<Region>
    requires block { IsReadableBlock (shown (W.words words.now) layout.now) block }
    requires apart { AreApart (shown (W.words words.now) layout.now) block }
    requires least { HEADER_WORDS ≤ size }
    requires most { size ≤ MAX_MEDIUM_WORDS }
    ensures { (number base : ℕ) → IsFirstHole fill (state_over
        (W.words words.now) layout.now number base) block from size result }
{
    let word = block_word_in(words, layout, block);
    if word.kind != fill {
        return None;
    }
    if fill == Kind::Immix {
        return clear_lines(&line_words(words, layout, block), from, size);
    }
    if fill != Kind::Cells {
        return first_hole(fill, &view_in(words, layout, block), from, size);
    }
    let class = class_of(size)?;
    if class != word.class {
        return None;
    }
    let next = next_cell(words, layout, block, class, from)?;
    Some(Region {
        next,
        end: next + cell_size(class),
    })
}

/// The kind, class and owner of a block of the row `words`, whose block word must be valid.
pub fn block_word_in<W: Words>(words: &W, layout: &Layout, block: u32) -> BlockWord
    requires extent { IsRowOf layout.now (W.words words.now) }
    requires block { block < layout.now.blocks }
    requires code { IsTrue (is_block_code (block_word
        (shown (W.words words.now) layout.now) block)) }
    ensures code { code_of result
        ≡ slice_index (W.words words.now) (first layout.now.blocks BlockWords + block) }
    ensures valid { IsValidWord result }
{
    decode(words.get(layout.block_at(block))).unwrap()
}

/// The 64 words with the start bits of a block.
fn start_words<W: Words>(words: &W, layout: &Layout, block: u32) -> [u64; 64]
    requires extent { IsRowOf layout.now (W.words words.now) }
    requires block { block < layout.now.blocks }
    ensures len { length result ≡ BLOCK_BIT_WORDS }
    ensures words { (n : ℕ) → n < BLOCK_BIT_WORDS → slice_index result n
        ≡ slice_index (W.words words.now)
        (first layout.now.blocks StartBits + BLOCK_BIT_WORDS * block + n) }
{
    let at = layout.start_base() + BLOCK_BIT_WORDS * block;
    let mut starts = [0; 64];
    for index in 0..BLOCK_BIT_WORDS {
        starts[index as usize] = words.get(at + index);
    }
    starts
}
