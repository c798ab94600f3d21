//! Tests of sessions: replies against the ideal heap, graphs of the heap, and counts of
//! collections.
#![tactic(auto)]

#[cfg(test)]
mod commands;
#[cfg(test)]
mod epoch_tests;
#[cfg(test)]
mod fragments;
#[cfg(test)]
mod graph_tests;
#[cfg(test)]
mod map_tests;
#[cfg(test)]
mod nursery_tests;
#[cfg(test)]
mod reply_tests;
#[cfg(test)]
mod stopped_tests;
#[cfg(test)]
mod whole_sessions;
