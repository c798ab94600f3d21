//! The view of a block: a copy of its metadata.

use heap_layout::BlockWord;

/// A copy of a block's metadata, and the end of its last object.
#[derive(Clone, Copy, Debug)]
pub struct BlockView {
    /// The kind, class and owner.
    pub word: BlockWord,
    /// The line bits: one for each line of the block.
    pub lines: [u64; 4],
    /// The start bits: one for each word of the block.
    pub starts: [u64; 64],
    /// The offset in words after the last object that begins in the block, or 0 if none begins
    /// there.
    pub end: u32,
}
