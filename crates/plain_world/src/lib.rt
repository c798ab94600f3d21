//! A heap that mutators use in turns, each call to its end: a managed heap as a library.
#![tactic(auto)]

mod closing;
mod laws;
mod plain_world;
mod readers;
mod world_calls;

pub use block_regions::BlockNotes;
pub use heap_users::{may_use, new_mutators};
pub use laws::{stores_log_old_objects, worlds_follow_ideal_heaps, worlds_stay_in_order};
pub use local_allocators::LocalSeat;
pub use plain_world::{PlainWorld, new_seats};
