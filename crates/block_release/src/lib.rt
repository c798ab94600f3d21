//! The release of a heap's blocks after a tracing.
#![tactic(auto)]

mod laws;
mod releasing;

pub use laws::{
    blocks_are_released_in_order, flags_show_evacuation, line_bits_show_what_lives,
    released_heaps_are_lawful, releases_ignore_numbers, unlog_bits_show_what_lives,
};
pub use releasing::{Known, known_after, release, release_by};
