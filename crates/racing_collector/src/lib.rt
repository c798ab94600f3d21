//! The trace of a collection by several workers.
#![tactic(auto)]

mod handing;
mod item;
mod raced;
mod racing;
mod root_packets;
mod served;
mod serving;
mod tally;
mod together;
mod worker;
mod workers;

pub use tally::Tally;
pub use together::{MAX_ROOTS, MAX_WORKERS, TracedTogether, trace_together};
