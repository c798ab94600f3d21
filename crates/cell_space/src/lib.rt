//! The cell space: blocks of cells of one size, whose objects never move.
#![tactic(auto)]

mod classes;
mod search;
mod sweeps;

pub use classes::{cell_size, class_of};
pub use search::next_cell;
pub use sweeps::sweep_block;
