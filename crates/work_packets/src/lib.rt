//! Packets of collection work: buckets, workers that run packets, the plain split of a bucket among
//! workers, and gates, at which tests can hold threads.
#![tactic(auto)]

mod gate;
mod laws;
mod meet_gate;
mod packet;
mod plain_split;
mod share;
mod threads;
mod worker;

pub use gate::{Gate, OpenGate, Point};
pub use laws::{
    buckets_have_an_order, packets_are_small, packets_carry_a_balance, runs_lose_nothing,
    workers_are_reached,
};
pub use meet_gate::{MAX_TURNS, MeetGate};
pub use packet::{Bucket, MAX_ITEMS, Packet};
pub use plain_split::{run_alone, run_plain_split};
pub use share::{Share, deal};
pub use threads::map_in_threads;
pub use worker::PacketWorker;
