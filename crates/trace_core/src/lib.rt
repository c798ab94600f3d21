//! The tracing machine: the steps by which any number of workers find what is reachable and move
//! it, while mutators are stopped, and its laws. And what every tracer shares: what it is given,
//! its rights and its room.
#![tactic(auto)]

pub mod examples;
pub mod laws;
mod run;

pub use run::{TraceRun, Traced};
