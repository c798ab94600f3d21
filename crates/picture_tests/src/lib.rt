//! Tests of heap_picture: pictures of texts, and texts that are refused.
#![tactic(auto)]

#[cfg(test)]
mod tests;
