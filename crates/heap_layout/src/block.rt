//! Block words: the use of each block.

/// The number of size classes of cells, which are counted from 0.
pub const CLASSES: usize = 19;

/// The owner number of the first tracing worker. Those below it are of mutators.
pub const FIRST_WORKER_OWNER: u32 = 17;

/// The highest owner number, that of the last tracing worker.
pub const LAST_OWNER: u32 = 32;

/// The use of a block.
#[derive(Clone, Copy, Debug, PartialEq, Eq)]
pub enum Kind {
    /// No object lies in it.
    Free,
    /// Objects side by side from the first word on, as in MMTk's copy space.
    Bump,
    /// Objects side by side, in the nursery of a generational plan.
    Young,
    /// Objects side by side that were copied out of the nursery.
    Mature,
    /// Lines. Objects are allocated in the holes between marked lines (Immix).
    Immix,
    /// Cells of one size.
    Cells,
    /// The first block of a large object.
    LargeHead,
    /// A further block of a large object.
    LargeTail,
    /// Objects that a copying collection left in place.
    Kept,
}

/// A block's kind, class and owner.
#[derive(Clone, Copy, Debug, PartialEq, Eq)]
pub struct BlockWord {
    /// The use of the block.
    pub kind: Kind,
    /// Of `Cells` the size class. Of `LargeHead` the number of blocks of the large object,
    /// 1 to 15. Else 0.
    pub class: u32,
    /// 0 is nobody, 1 to 16 a mutator, from `FIRST_WORKER_OWNER` on a tracing worker.
    pub owner: u32,
}
