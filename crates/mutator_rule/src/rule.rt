//! The rule of the row, and what a step says.

ghost use Rattle.sessions.specs.Plans.{Rules};

use crate::views::{RowKey, SeatView};
use atomic_table::{Join, Play, Split, TableRule};
use std::marker::{Brand, PhantomData};

/// The rules of a plan, by which mutators fill blocks.
pub trait EpochRules {
    ghost rules: { Rules };
}

/// There is one log of the steps of all mutators, which leaves the words as they are.
pub struct OneLog<P> {
    plan: PhantomData<P>,
}

impl<P: EpochRules> TableRule<(), SeatView, RowKey> for OneLog<P> {
    ghost use Rattle.mutator_rule.specs.Views.{start_in, first_views};
    ghost use Rattle.mutator_rule.specs.Logs.{HasOneLog};

    ghost holds = { λ key. HasOneLog P.rules (start_in key) };

    ghost first = { λ key. first_views (start_in key) };
}

/// The event that a step makes. Each call of a step picks its own.
pub(crate) trait PicksEvent {
    ghost use Rattle.mutator_core.specs.declared.state.Event.{Event};

    ghost event: { Event };
}

impl PicksEvent for Brand {
    ghost use Rattle.mutator_core.specs.declared.state.Event.TheVariants as e;

    ghost event = { e.Poll };
}

/// A step that makes the event and gives the word that it found.
pub(crate) struct FindsWord<P, E> {
    made: PhantomData<(P, E)>,
}

impl<P: EpochRules, E: PicksEvent> Play<(), SeatView> for FindsWord<P, E> {
    ghost use Rattle.std.specs.Prelude.{◌≡◌, [], ◌∷◌};
    ghost use Rattle.mutator_rule.specs.Views.{first_of};
    ghost use Rattle.mutator_rule.specs.Logs.{MakesStep};

    ghost then = { λ step me found now.
        MakesStep P.rules (first_of me.0) E.event found (first_of now.0)
        × (now.0 ≡ first_of now.0 ∷ []) × (now.1 ≡ me.1) };
}

/// A store that makes the event. It does not find the word before.
pub(crate) struct StoresWord<P, E> {
    made: PhantomData<(P, E)>,
}

impl<P: EpochRules, E: PicksEvent> Play<(), SeatView> for StoresWord<P, E> {
    ghost use Rattle.std.specs.Prelude.{◌≡◌, [], ◌∷◌, ℕ};
    ghost use Rattle.mutator_rule.specs.Views.{first_of};
    ghost use Rattle.mutator_rule.specs.Logs.{MakesStep};

    ghost then = { λ step me stored now. ((found : ℕ)
        × MakesStep P.rules (first_of me.0) E.event found (first_of now.0))
        × (now.0 ≡ first_of now.0 ∷ []) × (now.1 ≡ me.1) };
}

/// A load that makes the event if the event leaves the word that it found, and else nothing.
pub(crate) struct FindsStored<P, E> {
    made: PhantomData<(P, E)>,
}

impl<P: EpochRules, E: PicksEvent> Play<(), SeatView> for FindsStored<P, E> {
    ghost use Rattle.std.specs.Prelude.{◌≡◌};
    ghost use Rattle.mutator_rule.specs.Views.{first_of};
    ghost use Rattle.mutator_rule.specs.Logs.{LeavesWord, MakesStepAlone};

    ghost then = { λ step me found now.
        (LeavesWord P.rules (first_of me.0) E.event found
        → MakesStepAlone P.rules me E.event found now)
        × ((LeavesWord P.rules (first_of me.0) E.event found → ⊥) → now ≡ me) };
}

/// A seat gives its first view away.
pub(crate) struct Deal;

impl Split<SeatView> for Deal {
    ghost use Rattle.std.specs.Prelude.{take, drop};

    ghost left = { λ v. drop 1 v };

    ghost right = { λ v. take 1 v };
}

/// A seat takes in all views of another.
pub(crate) struct Gather;

impl Join<SeatView> for Gather {
    ghost use Rattle.std.specs.Prelude.{[], ◌++◌};

    ghost both = { λ v w. w ++ v };

    ghost spent = { [] };
}
