//! The table of a racing trace, and the seats of its workers. The methods stand in the other files.

use heap_layout::Layout;
use shared_row::SharedRow;
use trace_core::TraceRun;
use trace_words::{Share, TraceKey, TraceRule, TraceSeat};

/// A heap that several workers trace.
#[derive(Drop)]
pub struct TraceTable {
    pub(crate) row: SharedRow<Share, TraceKey, TraceRule>,
    pub(crate) layout: Layout,
    pub(crate) number: u64,
    pub(crate) base: u64,
    pub(crate) run: TraceRun,
    // The seat of the trace itself: what no worker and no token has.
    pub(crate) keeper: TraceSeat,
    pub(crate) globals_taken: bool,
    pub(crate) logged_taken: bool,
}

/// The seat of a worker, and its room: the addresses from `front` up to `limit`.
#[derive(Drop)]
pub struct WorkerSeat {
    pub(crate) seat: TraceSeat,
    pub(crate) worker: u32,
    pub(crate) front: u32,
    pub(crate) limit: u32,
    // No block before it is Free.
    pub(crate) next_block: u32,
}
