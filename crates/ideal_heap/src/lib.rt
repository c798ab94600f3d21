//! The reference semantics of a managed heap: commands and their replies on an ideal heap, whose
//! objects never move and are never collected.
//!
//! Whatever a collector does, each mutator's replies are those of the ideal heap, except that a
//! `new` may be refused.
#![tactic(auto)]

mod access;
mod allocation;
mod command;
mod examples;
mod laws;
mod name;
mod plain;
mod ranges;
mod reference;
mod reply;
mod semantics;
mod tables;

pub use command::{
    Command, GLOBALS, MAX_GLOBAL, MAX_MUTATORS, MAX_NUMS, MAX_REFS, MAX_REGISTER, REGISTERS,
};
pub use examples::{
    command_examples, name_examples, number_examples, object_examples, order_examples,
    path_examples, register_examples, run_examples, trace_examples,
};
pub use laws::{
    ideal_heaps, names_and_codes, names_are_ordered, one_mutator, paths_reach_objects,
    records_stay, runs_go_on, steps, updates,
};
pub use name::Name;
pub use plain::Ideal;
pub use ranges::valid;
pub use reply::Reply;
