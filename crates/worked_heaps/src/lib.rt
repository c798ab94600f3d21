//! Worked heaps: laws by example on the definitions of `object_model` and `heap_graph`. No crate
//! that ships stands on them.
#![tactic(auto)]

mod worked_laws;

pub use worked_laws::{
    built_heaps_read_back, changes_of_nothing, heap_of_five_kinds, heaps_disagree_on_sets,
    kinds_heap_represents, unlawful_blocks, unlawful_objects, worked_ages, wrong_graphs,
};
