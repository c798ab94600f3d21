//! Whole collections: the tracing of a heap by packets of work, then the release of its blocks.
#![tactic(auto)]

mod collecting;
mod item;
mod laws;
mod outcome;
mod packet_tracer;
mod roots;
mod tally;
mod worker;

pub use collecting::{collect, collect_flagged};
pub use item::Item;
pub use laws::{
    few_blocks_by_example, offered_collections, released_traces_are_collections,
    sessions_evacuate_all_blocks,
};
pub use outcome::{Collected, Note};
pub use racing_collector::MAX_WORKERS;
