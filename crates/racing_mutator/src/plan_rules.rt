//! The rules of a plan, as the rule of the row reads them.

use mutator_rule::EpochRules;
use plan_api::Plan;
use std::marker::PhantomData;

/// A plan's rules.
pub struct PlanRules<P> {
    plan: PhantomData<P>,
}

impl<P: Plan> EpochRules for PlanRules<P> {
    ghost rules = { P.rules };
}
