//! A managed heap as one value, for runtimes that never see an epoch or a stop.
//!
//! Mutators name objects by registers and globals. An allocation that had to stop, and a
//! collection, begin the next epoch before they return, so each call finds the heap in use.
#![tactic(auto)]

mod allocate;
mod calls;
mod epochs;
mod laws;
mod managed;

pub use allocate::Refused;
pub use collector::Note;
pub use laws::{ideal_heaps_go_on, managed_heaps_follow_ideal_heaps};
pub use managed::ManagedHeap;
