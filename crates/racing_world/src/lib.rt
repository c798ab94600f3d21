//! A heap that mutators on threads share: each call is one body over a seat's steps.
#![tactic(auto)]

mod calls;
mod closing_notes;
mod giving_back;
mod laws;
mod new_objects;
mod world;

pub use laws::{causes_stand, seats_see_one_history, stores_follow_the_barrier};
pub use world::World;
