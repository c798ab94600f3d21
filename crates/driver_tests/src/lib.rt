//! Tests of whole runs of the program, in memory: how runs end, replies under each plan,
//! and whole texts.
#![tactic(auto)]

#[cfg(test)]
mod ending_tests;
#[cfg(test)]
mod line_tests;
#[cfg(test)]
mod made_tests;
#[cfg(test)]
mod mutator_tests;
#[cfg(test)]
mod plan_tests;
#[cfg(test)]
mod report_tests;
#[cfg(test)]
mod test_runs;
