//! The counts of a heap's blocks, and the kinds of reserve that a plan holds back.

/// How many Free blocks a plan holds back from mutators.
#[derive(Clone, Copy, Debug, PartialEq, Eq)]
pub enum Reserve {
    /// None.
    Nothing,
    /// One for each block in use, as the copy reserve of a copying collector.
    Copies,
    /// One for each 32 blocks of the heap, rounded up, as the headroom that Immix evacuates into.
    Headroom,
}

/// The counts of a heap's blocks.
#[derive(Clone, Copy, Debug, PartialEq, Eq)]
pub struct BlockCounts {
    /// All blocks of the heap.
    pub blocks: u32,
    /// The Free blocks.
    pub free: u32,
    /// The blocks of large objects: heads and tails.
    pub large: u32,
}
