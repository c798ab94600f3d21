//! The list of the objects of a heap that are reachable from roots and globals.
#![tactic(auto)]

mod address_set;
mod object_graph;
mod place;
mod walk;

pub use object_graph::{graph, in_order, reachable};
pub use place::Place;
