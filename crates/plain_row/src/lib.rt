//! A heap's row with the mutators that use it in turns, and the atomic steps of the one whose
//! turn it is.
#![tactic(auto)]

mod plain_row;
mod row_steps;
mod search;
mod words;

pub use plain_row::PlainRow;
