//! The collector word of an object: a mark and a forwarding address in one word, so that one
//! exchange claims an object and says where it is.
#![tactic(auto)]

pub mod laws;
mod words;

pub use words::{NUMBER_BITS, TARGET_BITS, claimed, encode, is_old, number_of, target_of};
