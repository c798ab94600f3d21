//! The runtime: mutators run their traces in epochs, and stops between the epochs serve their
//! needs.
#![tactic(auto)]

mod collections_at_gc;
mod counts;
mod epoch;
mod epochs;
mod laws;
mod manager;
mod meets;
mod pace;
mod part;
mod perform;
mod place;
mod progress;
mod reports;
mod seat_calls;
mod seat_part;
mod serve;
mod side_by_side;

pub use epochs::{Epoch, run_part, run_parts};
pub use laws::shared_worlds_end_epochs;
pub use managed_heap::{Placed, Scheduler, managed_plans};
pub use manager::{Manager, Turn};
pub use progress::PartEnd;
pub use seat_part::Part;
