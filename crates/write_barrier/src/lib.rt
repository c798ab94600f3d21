//! The write barrier (MMTk's object barrier): an old object is logged before a reference is stored
//! into it, so that a collection of young objects looks at no other old one.
#![tactic(auto)]

mod barrier;
mod list;

pub use barrier::{is_old, is_unlogged, log, must_log};
pub use list::{all_flags, logged, logged_in_flagged, starts_without_unlog_bit, without};
