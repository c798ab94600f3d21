//! The Immix space: blocks of lines, whose free lines are filled again.
#![tactic(auto)]

mod candidate_blocks;
mod laws;
mod reserve;
mod sweeps;

pub use candidate_blocks::candidates;
pub use laws::immix_blocks_are_touched_from_within;
pub use reserve::{headroom, headroom_for};
pub use sweeps::{relist, sweep_block};
