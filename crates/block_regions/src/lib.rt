//! Regions and notes of blocks: what is left of a block for the next objects, and what is known of
//! it without a look at the block.
#![tactic(auto)]

mod block_notes;
mod giving_back;
mod region_laws;
mod vectors;

pub use block_notes::{BlockNote, BlockNotes};
pub use giving_back::give_back_block;
pub use region_laws::{
    regions_are_holes, regions_of_lines, regions_of_worked_heaps, rests_are_regions,
};
pub use vectors::copies;
