//! The object model: heaps and their objects, in a row of words.
#![tactic(auto)]

mod bits;
mod collect;
mod counting;
mod heap;
mod heap_laws;
mod laws;
mod object_words;
mod roots;
mod row;
mod shape;
mod step_laws;

pub use bits::bit_spec;
pub use collect::Collect;
pub use heap::Heap;
pub use heap_laws::{
    births_keep_heaps_lawful, free_blocks_may_be_taken, large_births_keep_heaps_lawful,
    lawful_heaps, stores_keep_heaps_lawful,
};
pub use laws::{
    ages, block_words_read, cells_take_objects, collector_words_read, empty_heap_laws,
    fields_refer, headers_are_read, lawful_blocks, lawful_parts, lawful_words, lines_have_words,
    objects_are_preserved, places_are_addresses, readable_objects, sizes, steps_keep_line_bits,
    steps_set_no_unlog_bit, touched_lines_have_words,
};
pub use roots::are_roots;
pub use row::Row;
pub use shape::{
    COLLECTOR_OFFSET, HEADER_WORDS, MAX_MEDIUM_WORDS, NUMS_UNIT, SHAPE_OFFSET, Shape, decode_shape,
    encode_shape, size_words,
};
pub use shared_row::WordRow;
pub use step_laws::{
    cleared_bits_log, heaps_represent_on_sets, preserved_heaps_represent, steps_follow_steps,
};
