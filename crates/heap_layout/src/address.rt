//! The block, line and chunk of an address.

ghost use Rattle.std.specs.Prelude.{◌≡◌, ◌*◌, ◌/◌, ◌<◌};
ghost use Rattle.heap_layout.specs.Zones.{IsAddress, block_at as block_holding, line_at as line_holding};

use crate::layout::{BLOCK_LINES, BLOCK_WORDS, CHUNK_BLOCKS, LINE_WORDS, Layout};

/// The number of the block that contains an address, from 0 on.
pub fn block_of(layout: &Layout, address: u32) -> u32
    requires { IsAddress layout.now.blocks address }
    ensures block { result ≡ block_holding layout.now.blocks address }
    ensures within { result < layout.now.blocks }
{
    (address - layout.heap_base()) / BLOCK_WORDS
}

/// The number of the line that contains an address, counted from the first line of the heap.
pub fn line_of(layout: &Layout, address: u32) -> u32
    requires { IsAddress layout.now.blocks address }
    ensures line { result ≡ line_holding layout.now.blocks address }
    ensures within { result < BLOCK_LINES * layout.now.blocks }
{
    (address - layout.heap_base()) / LINE_WORDS
}

/// The number of the chunk that contains an address, from 0 on.
pub fn chunk_of(layout: &Layout, address: u32) -> u32
    requires { IsAddress layout.now.blocks address }
    ensures { result ≡ block_holding layout.now.blocks address / CHUNK_BLOCKS }
{
    block_of(layout, address) / CHUNK_BLOCKS
}
