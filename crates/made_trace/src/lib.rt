//! The made trace, commands that depend on their number alone, and counts of its replies.
#![tactic(auto)]

mod counts;
mod laws;
mod makers;

pub use counts::ReplyCounts;
pub use laws::{made_rows, made_traces};
pub use makers::{made, made_stored};
