//! What a collection answers.

use object_model::{Collect, Heap};

/// Counts of a collection.
#[derive(Clone, Copy, Debug, PartialEq, Eq)]
pub struct Note {
    pub collect: Collect,
    /// The objects that were claimed and so are preserved: all but old ones of a nursery
    /// collection.
    pub kept: u32,
    /// Of these, the ones that moved.
    pub moved: u32,
    /// Of these, the ones that stay where they were.
    pub in_place: u32,
    /// The words of these objects.
    pub kept_words: u64,
    /// The Free blocks of the heap after the collection.
    pub free_blocks: u32,
}

/// The heap after a collection, the roots' targets in the order of the roots, and counts.
#[derive(Debug, Drop)]
pub struct Collected {
    pub heap: Heap,
    pub roots: Vec<u32>,
    pub note: Note,
}
