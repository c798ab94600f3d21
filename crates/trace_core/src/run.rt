//! What a tracing begins with, and what it leaves.

use heap_layout::Kind;
use object_model::{Collect, Row};

/// The collection, as a tracer gets it.
#[derive(Debug, Drop)]
pub struct TraceRun {
    /// The number of the collection, one more than that of the last one.
    pub number: u64,
    /// The heap's base after the collection: its number if it is a full one, else the heap's base.
    pub base: u64,
    /// Whether it is a nursery collection or a full one.
    pub collect: Collect,
    /// By block: whether its objects may move (Immix's candidates for evacuation, or a from-space).
    pub from: Vec<bool>,
    /// The kind of the blocks that objects are copied into, `Free` if none are copied.
    pub copy_kind: Kind,
    /// Whether the lines of each object that is kept are marked.
    pub lines: bool,
    /// The logged old objects of a nursery collection by address, rising. Empty in a full one.
    pub logged: Vec<u32>,
}

/// The row after a tracing, before its blocks are released.
#[derive(Debug, Drop)]
pub struct Traced {
    /// The row. The blocks that workers took to copy into are still theirs, and what died or moved
    /// away still has its start bit.
    pub row: Row,
    /// The collection, as the tracer got it.
    pub run: TraceRun,
}
