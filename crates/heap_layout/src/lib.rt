//! The layout of a heap in one row of words, block words, and bump allocation in a block.
#![tactic(auto)]

mod address;
mod block;
mod block_codes;
mod layout;
mod region;
mod row_parts;
mod zones;

pub use address::{block_of, chunk_of, line_of};
pub use block::{BlockWord, CLASSES, FIRST_WORKER_OWNER, Kind, LAST_OWNER};
pub use block_codes::{CLASS_UNIT, OWNER_UNIT, decode, encode};
pub use layout::{
    BLOCK_BIT_WORDS, BLOCK_LINE_BIT_WORDS, BLOCK_LINES, BLOCK_WORDS, BUDGET_WORD, CHUNK_BLOCKS,
    GLOBALS, LINE_WORDS, Layout, LayoutFault, MAX_BLOCKS, MIN_BLOCKS, STOP_WORD,
};
pub use region::{Region, bump};
pub use zones::{bits_of_zones, blocks_partition, zones_partition};
