//! A tracing by several workers, over the atomic steps of `trace_words`.
#![tactic(auto)]

mod blocks;
mod claiming;
mod copying;
mod ends;
mod following;
mod globals;
mod lines;
mod logged;
mod looking;
mod reading;
mod scanning;
mod table;
#[cfg(test)]
mod tests;
mod tokens;

pub use ends::all_seats_are_the_whole;
pub use looking::MOST_AHEAD;
pub use table::{TraceTable, WorkerSeat};
pub use tokens::{Claim, GlobalRoot, Grey, Won};
