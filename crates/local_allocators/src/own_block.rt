//! What an own block has for an object.

use heap_layout::Region;

/// The room for an object in a block that the mutator owns.
#[derive(Clone, Copy, Debug)]
pub enum OwnRoom {
    /// None that the mutator may fill.
    Nothing,
    /// What is left of the block.
    Rest,
    /// The next hole of the block of the hole region.
    Hole(Region),
}
