//! Tests of worlds: calls of mutators against the ideal heap, allocation until a heap is full
//! against a plain model of its blocks, which objects stores log, and worked traces.
#![tactic(auto)]

#[cfg(test)]
mod ages;
#[cfg(test)]
mod barrier_tests;
#[cfg(test)]
mod calls;
#[cfg(test)]
mod epochs;
#[cfg(test)]
mod filling;
#[cfg(test)]
mod filling_tests;
#[cfg(test)]
mod flag_tests;
#[cfg(test)]
mod line_model;
#[cfg(test)]
mod model;
#[cfg(test)]
mod note_tests;
#[cfg(test)]
mod place_tests;
#[cfg(test)]
mod recycling;
#[cfg(test)]
mod twins;
#[cfg(test)]
mod worked_traces;
#[cfg(test)]
mod worlds;
