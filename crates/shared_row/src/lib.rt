//! A row of words: plain memory while one owner has it, and shared under a rule of `atomic_table`
//! with no copy. The way there and back takes no memory and cannot fail.
#![tactic(auto)]

mod rows;
mod shared_words;
#[cfg(test)]
mod tests;

pub use rows::{SharedRow, WordRow};
pub use shared_words::{RowSeat, SharedWords};
