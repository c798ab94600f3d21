//! Tracers that race on one row of shared words: the rule that holds at every moment, and each
//! atomic step.
#![tactic(auto)]

mod blocks;
mod claims;
mod copies;
mod ends;
mod event;
mod examples;
mod laws;
mod rule;
mod scans;
mod seats;
mod share;
#[cfg(test)]
mod tests;

pub use blocks::{look_at_block, take_block, take_block_at_any_time};
pub use claims::{claim_and_move, claim_in_place, look_at_bit, look_at_claim};
pub use copies::{
    copy_word, look_at_copies, read_word, set_start_of_copy, set_unlog_in_place, set_unlog_of_copy,
};
pub use ends::{share_row, take_row_back};
pub use event::{TraceCause, TraceEvent};
pub use examples::{share_makes_a_whole_trace, words_that_are_met_show_more, workers_fill_a_heap};
pub use laws::{
    each_object_is_claimed_once, each_right_is_of_one_share, listed_events_are_told_apart,
    rooms_are_in_blocks_of_their_workers, rooms_hold_no_frozen_object, shares_show_the_machine,
    workers_have_numbers_of_their_own,
};
pub use rule::{About, TraceKey, TraceRule, TraceSeat, TraceWords};
pub use scans::{
    ask, keep_field, keep_global, look_at_lines, mark_lines, read_field, read_global, read_pins,
    read_shape, scan_field, set_global,
};
pub use seats::{give_global, give_parts, give_scan, take_in};
pub use share::Share;
