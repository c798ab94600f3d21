//! The interface of a plan, for a runtime that is generic over plans.
#![tactic(auto)]

mod ages;
mod block_view;
mod blocks_to_copy;
mod cells;
mod counts;
mod cursor_laws;
mod cursors;
mod evacuation_laws;
mod fit;
mod flags;
mod grants;
mod holes;
mod laws;
mod plan;
mod readers;
mod release_laws;
mod relist_laws;
mod worked_laws;

pub use ages::{first_kind, first_kind_in};
pub use block_view::BlockView;
pub use blocks_to_copy::{Fills, copied_blocks, may_leave, no_blocks};
pub use cells::class_for;
pub use counts::{BlockCounts, Reserve};
pub use cursor_laws::placements_are_decided;
pub use cursors::{Cursors, place_in};
pub use evacuation_laws::{evacuated_blocks, kept_blocks};
pub use fit::{fits, fits_small, has_hole, has_run};
pub use flags::PlanFlags;
pub use grants::{block_counts, block_counts_in};
pub use holes::first_hole;
pub use laws::{
    first_parts, hole_parts, plans_have_flags, plans_hold_reserves, reserves_are_kept,
    taken_blocks_are_counted, views_show_blocks,
};
pub use plan::Plan;
pub use readers::{block_word_in, hole_in_block, view, view_in};
pub use release_laws::releases_are_sweeps;
pub use relist_laws::relisted_blocks;
pub use worked_laws::{
    counts_are_read, first_parts_of_a_worked_heap, placements_of_worked_cursors,
};
