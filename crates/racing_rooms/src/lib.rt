//! What a mutator that races with others notes of its rooms, and what it lacks.
//!
//! The contracts of other crates use the definitions. The law shows what they imply.
#![tactic(auto)]

mod laws;

pub use laws::lack_of_room_stays;
