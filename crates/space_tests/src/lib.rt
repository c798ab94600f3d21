//! Tests of objects and the write barrier, of sweeps, of marks of lines, and of the spaces'
//! searches, on rows that are written by hand. They stand in a crate of their own so that the
//! crates which they test are proved once.
#![tactic(auto)]

#[cfg(test)]
mod barrier_tests;
#[cfg(test)]
mod cell_tests;
#[cfg(test)]
mod large_tests;
#[cfg(test)]
mod line_tests;
#[cfg(test)]
mod object_tests;
#[cfg(test)]
mod releasable_tests;
#[cfg(test)]
mod rows;
#[cfg(test)]
mod sweep_tests;
