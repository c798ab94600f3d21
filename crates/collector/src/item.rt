//! Items of packets: what a worker of a collection serves.

use plain_tracer::{GlobalRoot, Grey};

/// One piece of the work of a tracing.
#[derive(Debug, Drop)]
pub enum Item {
    /// The root at this place of the list of roots is to get its target.
    Register(u32),
    /// A global is to get its last value.
    Global(GlobalRoot),
    /// The fields of a copied object are to be scanned.
    Object(Grey),
}
