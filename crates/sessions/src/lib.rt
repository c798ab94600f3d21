//! Sessions of a plan: where objects fit, what collections leave, and how epochs and stops follow
//! each other.
//!
//! The contracts of other crates use the definitions. The laws show what the definitions imply.
#![tactic(auto)]

mod collecting_laws;
mod collection_laws;
mod epoch_laws;
mod fitting_laws;
mod laws;
mod order_laws;
mod placement_laws;
mod stop_laws;

pub use collecting_laws::{
    candidates_fit_the_free_blocks, first_collections_have_bounds, full_collections,
    hole_starts_begin_holes, holes_and_lines_are_counted, movable_objects, nursery_collections,
    objects_left_in_place, plans_evacuate_kinds, wrong_ages, wrong_blocks, wrong_nurseries,
    wrong_objects,
};
pub use collection_laws::collections_keep_moments_sound;
pub use epoch_laws::{
    births_are_packed, births_lie_in_holes, births_use_free_blocks, causes_follow_the_commands,
    needs_exhaust_the_allowance, parts_have_plain_entries, parts_keep_the_heap, stores_are_logged,
};
pub use fitting_laws::{
    counts_of_worked_heaps, fits_by_size, fits_of_worked_heaps, free_runs_of_worked_heaps,
    fresh_blocks_have_holes, grants_on_worked_heaps, holes_by_kinds, holes_of_a_worked_heap,
    plans_as_data, size_classes,
};
pub use laws::{
    collections_count, collections_set_the_base, empty_heap_has_room, empty_heap_may_be_collected,
    grants_are_allowed, grants_by_counts, holes_are_clear, objects_stay, plans_have_ages,
    refusals_follow_a_full_collection, sessions, sessions_count, sessions_of_one,
};
pub use order_laws::{epochs_go_on, epochs_keep_the_order};
pub use placement_laws::{holes_have_room, large_objects_are_placed};
pub use stop_laws::{
    a_gc_makes_one_full_collection, epochs_add_entries, meets_are_replied, needs_are_served,
    placed_objects_are_blank, places_add_one_object, places_are_determined, sessions_begin_empty,
    sound_moments_have_no_loose_references, stops_make_collections, used_blocks_get_their_kinds,
};
