//! The rule under which mutators on threads share a row of words, and the steps of each.
#![tactic(auto)]

mod ends;
mod racing_row;
mod rule;
mod seat;
mod seat_notes;
mod steps;
mod views;

pub use racing_row::RacingRow;
pub use rule::{EpochRules, OneLog};
pub use seat::MutatorSeat;
pub use seat_notes::SeatNotes;
pub use views::{EpochStart, MutatorView, RowKey, SeatView};
