//! The copying space: blocks that are filled from start to end, and evacuated as a whole.
#![tactic(auto)]

mod release;
mod tails;

pub use release::release_block;
pub use tails::tail;
