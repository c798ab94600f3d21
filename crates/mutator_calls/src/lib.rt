//! The calls by which a mutator uses a heap: each is one body over the atomic steps of a seat.
#![tactic(auto)]

mod access;
mod allocation;
mod allocation_steps;
mod mutator_steps;
mod need;
mod stops;

pub use access::{
    add, drop_register, get, load, move_register, pin, put, read, share, swap, unpin, write,
};
pub use allocation::new_object;
pub use allocation_steps::AllocationSteps;
pub use mutator_steps::MutatorSteps;
pub use need::{Allocated, Mutator, Need, NeedCause, Polled};
pub use stops::{poll, raise};
