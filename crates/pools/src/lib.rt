//! Pools: workers that run the packets of a bucket, each packet once.
#![tactic(auto)]

mod pool;
#[cfg(test)]
mod steal_tests;
#[cfg(test)]
mod tests;

pub use pool::{PlainPool, Pool, StealPool, Style};
