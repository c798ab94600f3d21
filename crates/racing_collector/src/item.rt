//! Items of packets: what a racing worker serves.

use trace_table::{GlobalRoot, Grey};

/// The most references that the objects of a packet with several have together.
pub const MAX_REFERENCES: u32 = 512;

/// One piece of the work of a trace. A token in it has a seat of its own.
#[derive(Drop)]
pub enum RaceItem {
    /// The root at this place of the list of roots is to get its target.
    Register(u32),
    /// A global is to get its last value.
    Global(GlobalRoot),
    /// The fields of a copied or a logged object are to be scanned.
    Object(Grey),
}
