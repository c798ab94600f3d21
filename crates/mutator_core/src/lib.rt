//! The mutator machine: the atomic steps of mutators in an epoch, in every order, and its laws.
#![tactic(auto)]

pub mod examples;
pub mod laws;
mod state;

pub use state::{Answer, Event, Extent, Loaded, Local, LogEntry, OwnedBlock, Unpublished};
