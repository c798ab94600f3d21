//! Workers that run the packets of a bucket, and steal packets from one another.
#![tactic(auto)]

mod desk;
mod rule;
mod seats;
mod serve;
mod steal;

pub use steal::{MAX_WORKERS, run_steal};
