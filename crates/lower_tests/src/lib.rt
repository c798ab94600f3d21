//! Tests of the lowest crates: layouts and words, commands and replies, how both are stored, traces
//! as text, the command line, and sources and sinks.
//!
//! They stand apart because a crate with tests of its own is proved a second time with them.
#![tactic(auto)]

#[cfg(test)]
mod command_lines;
#[cfg(test)]
mod commands;
#[cfg(test)]
mod layouts;
#[cfg(test)]
mod made;
#[cfg(test)]
mod printing;
#[cfg(test)]
mod reading;
#[cfg(test)]
mod stored;
#[cfg(test)]
mod streams;
