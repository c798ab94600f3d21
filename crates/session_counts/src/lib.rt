//! What the last heap of a session holds, counted: how its objects, their words, its blocks and its
//! collections agree.
#![tactic(auto)]

mod laws;
mod sizes;

pub use laws::{
    collections_follow_the_commands, held_objects_fill_their_blocks, held_objects_fit,
    sizes_are_tested,
};
pub use sizes::{MAX_OBJECT_WORDS, may_fill};
