//! A heap between two epochs, for runtimes that make their epochs themselves: collections, and
//! the placing of objects that no mutator could allocate.
#![tactic(auto)]

mod collect;
mod laws;
mod place;
mod scheduler;
mod spot;
mod stopped_heap;

pub use collect::all_registers;
pub use laws::{closed_worlds_are_stopped, managed_plans, stopped_heaps_begin_epochs};
pub use place::Placed;
pub use plain_world::{LocalSeat, PlainWorld, new_seats};
pub use scheduler::Scheduler;
pub use stopped_heap::{Parts, StoppedHeap};
