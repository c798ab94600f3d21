//! The tracer for one worker: it makes the steps of the tracing machine on a heap's row.
#![tactic(auto)]

mod claiming;
mod copying;
mod plain_trace;
mod reaching;
mod scanning;
mod tokens;

pub use plain_trace::PlainTrace;
pub use tokens::{Claim, GlobalRoot, Grey, Reached, Won};
