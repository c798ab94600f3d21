//! For tests alone: rows of words that are written by hand, and whether a block of them may be
//! released, as a test that is proved to be the condition of the sweeps.
#![tactic(auto)]

mod releasable;
mod rows;

pub use releasable::is_releasable;
pub use rows::{Object, empty_row, plain_object, set_bit_of, set_block, write_object};
