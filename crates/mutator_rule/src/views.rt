//! What a seat knows. Contracts alone use these types, but for `RowKey`.

use heap_layout::Layout;
use mutator_calls::Mutator;
use mutator_core::{Local, LogEntry};
use shared_row::WordRow;
use std::collections::LinkedList;
use std::snapshot::Snapshot;

/// The heap and the mutators as an epoch begins.
pub struct EpochStart {
    pub words: LinkedList<u64>,
    pub blocks: u64,
    pub number: u64,
    pub base: u64,
    pub mutators: LinkedList<Mutator>,
}

/// What one mutator knows: how the epoch began, the steps of all mutators that it has seen, and its
/// own state.
pub struct MutatorView {
    pub start: EpochStart,
    pub seen: LinkedList<LogEntry>,
    pub local: Local,
}

/// The views that a seat of the row has: one, but while an epoch begins or ends.
pub type SeatView = LinkedList<MutatorView>;

/// What the row's rule knows from the beginning.
#[derive(Drop)]
pub struct RowKey {
    pub words: Snapshot<WordRow>,
    pub layout: Layout,
    pub number: u64,
    pub base: u64,
    pub mutators: Snapshot<Vec<Mutator>>,
}
