//! Sweeps of one block: which of its objects are still held after a collection, and what becomes
//! of the block. The spaces' sweeps, and a plan's release of a block, are made of them.
#![tactic(auto)]

mod clearing;
mod differing;
mod lines;
mod objects;
mod runs;
mod sweep;

pub use clearing::{free_block, store, unlog_block};
pub use differing::differ;
pub use lines::mark_touched_lines;
pub use objects::object_size;
pub use runs::sweep_run;
pub use sweep::sweep_block;
