//! The large object space: runs of blocks with one object each, which never moves.
#![tactic(auto)]

mod placing;
mod search;
mod sweeps;

pub use placing::place_large;
pub use search::{blocks_for, find_run};
pub use sweeps::sweep_large;
