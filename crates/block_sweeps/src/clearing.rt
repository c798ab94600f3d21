//! Words stored, blocks made Free, and unlog bits set.

ghost use Rattle.std.specs.Prelude.{◌≡◌, ◌+◌, ◌<◌, length};
ghost use Rattle.heap_layout.specs.Zones.{IsRowOf};
ghost use Rattle.object_model.specs.Objects.{shown};
ghost use Rattle.block_sweeps.specs.Stores.{Stores};
ghost use Rattle.block_sweeps.specs.Sweeping.{Frees, Unlogs};

use heap_layout::{BLOCK_BIT_WORDS, Kind, Layout};
use side_meta::Words;

/// Sets a word of the row if it differs.
pub fn store<W: Words>(words: &mut W, index: u32, value: u64)
    requires { index < length (W.words words.old) }
    ensures { Stores (W.words words.old) (W.words words.new) index value }
{
    if words.get(index) != value {
        words.set(index, value);
    }
}

/// Makes a block Free, and clears its line bits. Writes only words that change.
pub fn free_block<W: Words>(words: &mut W, layout: &Layout, block: u32)
    requires extent { IsRowOf layout.now (W.words words.old) }
    requires block { block < layout.now.blocks }
    ensures { Frees (shown (W.words words.old) layout.now)
        (shown (W.words words.new) layout.now) block }
{
    store(words, layout.block_at(block), Kind::Free as u64);
    let lines = layout.line_at(block);
    for index in lines..lines + 4 {
        store(words, index, 0);
    }
}

/// Sets the unlog bit of each object that begins in the block, and clears all others of the block.
/// Writes only words that change.
pub fn unlog_block<W: Words>(words: &mut W, layout: &Layout, block: u32)
    requires extent { IsRowOf layout.now (W.words words.old) }
    requires block { block < layout.now.blocks }
    ensures { Unlogs (shown (W.words words.old) layout.now)
        (shown (W.words words.new) layout.now) block }
{
    for index in BLOCK_BIT_WORDS * block..BLOCK_BIT_WORDS * block + BLOCK_BIT_WORDS {
        let starts = words.get(layout.start_base() + index);
        store(words, layout.unlog_base() + index, starts);
    }
}
