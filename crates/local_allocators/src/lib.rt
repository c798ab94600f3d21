//! Allocators of one mutator: its seat, its regions, and the arithmetic of tails, cells and lines.
//! They know no list of mutators.
#![tactic(auto)]

mod cells;
mod lines;
mod local_seat;
mod own_block;
mod regions;
mod tails;

pub use cells::{free_cell, has_other_class};
pub use local_seat::LocalSeat;
pub use own_block::OwnRoom;
pub use regions::{
    block_for, class_of, first_hole, first_region, hole_block, is_free, overflows, own_room,
    rest_after,
};
