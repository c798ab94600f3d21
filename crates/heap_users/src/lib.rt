//! Mutators that may use a heap, and the heap as an epoch begins.
#![tactic(auto)]

mod user_laws;
mod users;

pub use user_laws::{heaps_represent_ideal_heaps, stops_see_no_stop_word};
pub use users::{may_use, new_mutators};
