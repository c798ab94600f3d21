//! Tests of the tracer, on heaps that a mutator of a world built.
#![tactic(auto)]

#[cfg(test)]
mod ages;
#[cfg(test)]
mod collection_tests;
#[cfg(test)]
mod evacuation_tests;
#[cfg(test)]
mod graphs;
#[cfg(test)]
mod heaps;
#[cfg(test)]
mod nursery_tests;
#[cfg(test)]
mod old_views;
#[cfg(test)]
mod racing;
#[cfg(test)]
mod racing_tests;
#[cfg(test)]
mod roots;
#[cfg(test)]
mod tests;
#[cfg(test)]
mod tracing;
#[cfg(test)]
mod views;
#[cfg(test)]
mod workers_tests;
