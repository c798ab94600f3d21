//! The positions of all parts of a heap in its row of words.

ghost use Rattle.std.specs.Prelude.{◌≡◌, ◌+◌, ◌*◌, ◌<◌, ◌≤◌, ◌↔◌, IsOk, IfOk, IfErr};
ghost use Rattle.heap_layout.specs.declared.layout.TheConstants.{MIN_BLOCKS, MAX_BLOCKS};

use crate::row_parts::{
    FIRST_BLOCK_WORD, FIRST_GLOBAL, METADATA_WORDS, ROW_WORDS, WORDS_BEFORE_PINS,
    WORDS_BEFORE_STARTS, WORDS_BEFORE_UNLOGS,
};
use thiserror::Error;

/// The index of the stop word in the row.
pub const STOP_WORD: usize = 0;

/// The index of the budget word in the row.
pub const BUDGET_WORD: usize = 1;

/// The number of words of a line: 128 bytes, as in Immix.
pub const LINE_WORDS: u32 = 16;

/// The number of lines of a block.
pub const BLOCK_LINES: u32 = 256;

/// The number of words of a block: 32 KB, as in Immix.
pub const BLOCK_WORDS: u32 = 4096;

/// The number of words of start bits that a block has: one bit for each word. It has as many words
/// of pin bits, and of unlog bits.
pub const BLOCK_BIT_WORDS: u32 = 64;

/// The number of words of line bits that a block has: one bit for each line.
pub const BLOCK_LINE_BIT_WORDS: u32 = 4;

/// The number of blocks of a chunk: 4 MB, as in MMTk.
pub const CHUNK_BLOCKS: u32 = 128;

/// The number of globals of a heap, which are counted from 0.
pub const GLOBALS: u32 = 16;

/// The minimum number of blocks of a heap.
pub const MIN_BLOCKS: u32 = 4;

/// The maximum number of blocks of a heap.
pub const MAX_BLOCKS: u32 = 1024;

/// The number of blocks of a heap, which determines where each part of its row of words lies.
///
/// A word has 8 bytes. The side metadata comes first in the row, the heap last. An address is the
/// index of a heap word.
#[derive(Clone, Copy, Debug, PartialEq, Eq)]
pub struct Layout {
    blocks: u32,
    pub ghost least: { MIN_BLOCKS ≤ blocks },
    pub ghost most: { blocks ≤ MAX_BLOCKS },
}

/// Why a layout was refused.
#[derive(Clone, Copy, Debug, PartialEq, Eq, Error)]
pub enum LayoutFault {
    /// The number of blocks is out of range.
    #[error("a heap has 4 to 1024 blocks, not {0}")]
    Size(u32),
}

impl Layout {
    ghost use Rattle.heap_layout.specs.Zones.{first, row_words, heap_of, block_start};
    ghost use Rattle.heap_layout.specs.Zones.Zone.{Globals, BlockWords, LineWords, StartBits, PinBits, UnlogBits};

    /// The layout of a heap of `blocks` blocks. Fails with `Size` unless `blocks` is 4 to 1,024.
    pub fn new(blocks: u32) -> Result<Layout, LayoutFault>
        ensures ok { IsOk result ↔ ((MIN_BLOCKS ≤ blocks) × (blocks ≤ MAX_BLOCKS)) }
        ensures blocks { IfOk result (λ l. l.blocks ≡ blocks) }
        ensures size { IfErr result (λ e. e ≡ LayoutFault.Size blocks) }
    {
        if blocks < MIN_BLOCKS || blocks > MAX_BLOCKS {
            return Err(LayoutFault::Size(blocks));
        }
        Ok(Layout { blocks })
    }

    /// The number of blocks of the heap.
    pub fn blocks(&self) -> u32
        ensures { result ≡ self.now.blocks }
    {
        self.blocks
    }

    /// The number of words of the row.
    pub fn words(&self) -> u32
        ensures { result ≡ row_words self.now.blocks }
    {
        FIRST_BLOCK_WORD + ROW_WORDS * self.blocks
    }

    /// The index of the word of a global.
    pub fn global_at(&self, global: u32) -> u32
        requires { global < GLOBALS }
        ensures { result ≡ first self.now.blocks Globals + global }
    {
        FIRST_GLOBAL + global
    }

    /// The index of the block word of a block.
    pub fn block_at(&self, block: u32) -> u32
        requires { block < self.now.blocks }
        ensures { result ≡ first self.now.blocks BlockWords + block }
    {
        FIRST_BLOCK_WORD + block
    }

    /// The index of the first of the four line words of a block.
    pub fn line_at(&self, block: u32) -> u32
        requires { block < self.now.blocks }
        ensures { result ≡ first self.now.blocks LineWords + BLOCK_LINE_BIT_WORDS * block }
    {
        FIRST_BLOCK_WORD + self.blocks + BLOCK_LINE_BIT_WORDS * block
    }

    /// The index of the first word of start bits. There is one bit for each word of the heap.
    pub fn start_base(&self) -> u32
        ensures { result ≡ first self.now.blocks StartBits }
    {
        FIRST_BLOCK_WORD + WORDS_BEFORE_STARTS * self.blocks
    }

    /// The index of the first word of pin bits. There is one bit for each word of the heap.
    pub fn pin_base(&self) -> u32
        ensures { result ≡ first self.now.blocks PinBits }
    {
        FIRST_BLOCK_WORD + WORDS_BEFORE_PINS * self.blocks
    }

    /// The index of the first word of unlog bits. There is one bit for each word of the heap.
    pub fn unlog_base(&self) -> u32
        ensures { result ≡ first self.now.blocks UnlogBits }
    {
        FIRST_BLOCK_WORD + WORDS_BEFORE_UNLOGS * self.blocks
    }

    /// The first address of the heap.
    pub fn heap_base(&self) -> u32
        ensures { result ≡ heap_of self.now.blocks }
    {
        FIRST_BLOCK_WORD + METADATA_WORDS * self.blocks
    }

    /// The address of the word of a block that is `offset` words after its first.
    pub fn address(&self, block: u32, offset: u32) -> u32
        requires block { block < self.now.blocks }
        requires word { offset < BLOCK_WORDS }
        ensures { result ≡ block_start self.now.blocks block + offset }
    {
        self.heap_base() + BLOCK_WORDS * block + offset
    }
}
