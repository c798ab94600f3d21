//! Tests of the plans, of what plans share, and of the Immix and copying spaces. They are a crate
//! of their own, since the gate proves a crate that has tests a second time with them.
#![tactic(auto)]

#[cfg(test)]
mod candidates;
#[cfg(test)]
mod counts;
#[cfg(test)]
mod every_plan;
#[cfg(test)]
mod first_collections;
#[cfg(test)]
mod immix_plan;
#[cfg(test)]
mod immix_sweeps;
#[cfg(test)]
mod releases;
#[cfg(test)]
mod relists;
#[cfg(test)]
mod searches;
