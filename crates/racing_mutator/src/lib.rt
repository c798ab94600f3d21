//! A mutator that races with others: its atomic steps at a seat, and its search for room.
#![tactic(auto)]

mod births;
mod holes;
mod looks;
mod own_holes;
mod plan_rules;
mod racing;
mod rooms;
mod search;

pub use plan_rules::PlanRules;
pub use racing::Racing;
