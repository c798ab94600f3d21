//! Packets and the buckets they are for.

/// The buckets of a collection, in the order in which they are run.
#[derive(Clone, Copy, Debug, PartialEq, Eq, PartialOrd, Ord)]
pub enum Bucket {
    /// What is done before tracing.
    Prepare,
    /// The roots.
    Roots,
    /// Objects to scan.
    Closure,
    /// What is done after tracing.
    Release,
}

/// The most items of a packet.
pub const MAX_ITEMS: usize = 64;

/// Items of work that one worker processes together, in this bucket.
#[derive(Debug, Drop)]
pub struct Packet<T> {
    pub bucket: Bucket,
    pub items: Vec<T>,
}
