//! What the workers of a trace share.

use trace_table::TraceTable;

/// The table of a trace, and the roots as it began.
#[derive(Drop)]
pub struct Racing {
    pub(crate) table: TraceTable,
    pub(crate) roots: Vec<u32>,
}
