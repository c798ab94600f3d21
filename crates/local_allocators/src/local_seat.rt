//! What a mutator has for allocation.

use heap_layout::CLASSES;

/// What a mutator has for allocation in an epoch.
#[derive(Clone, Copy, Debug)]
pub struct LocalSeat {
    /// The ticket with which the mutator has taken no block.
    pub ticket: Option<u32>,
    /// For each size class the block that the mutator allocates in. Objects have class 0 if blocks
    /// have no cells. If mutators fill lines, that is the block of the hole region.
    pub blocks: [Option<u32>; CLASSES],
    /// The block of the overflow region, if mutators fill lines.
    pub over: Option<u32>,
}
