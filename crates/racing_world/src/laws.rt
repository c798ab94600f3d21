//! Laws of worlds.

ghost use Rattle.std.specs.Prelude.{◌≡◌, ◌⊎◌, ℕ, List, [], ◌∷◌, ◌++◌, false};
ghost use mathlib.Core.List.{IsPrefix};
ghost use mathlib.Core.Option.{some};
ghost use lib.ListN.{get_elem?};
ghost use Rattle.atomic_table.specs.Table.{State};
ghost use Rattle.ideal_heap.specs.Ideal.{IdealHeap};
ghost use Rattle.ideal_heap.specs.declared.command.Command.TheVariants as command;
ghost use Rattle.object_model.specs.Objects.{is_unlogged};
ghost use Rattle.sessions.specs.Plans.{Rules};
ghost use Rattle.sessions.specs.Collecting.{is_old_under};
ghost use Rattle.mutator_core.specs.Machine.{Epoch, address_in};
ghost use Rattle.mutator_core.specs.Logs.{IsEpochLog, heap_after, local_after_log};
ghost use Rattle.mutator_core.specs.declared.state.LogEntry.{LogEntry};
ghost use Rattle.mutator_core.specs.declared.state.Event.TheVariants as event;
ghost use Rattle.mutator_rule.specs.declared.views.EpochStart.{EpochStart};
ghost use Rattle.mutator_rule.specs.declared.views.MutatorView.{MutatorView};
ghost use Rattle.mutator_rule.specs.Logs.{HasOneLog, history_seen};
ghost use Rattle.mutator_rule.specs.Seats.{local_of};
ghost use Rattle.mutator_rule.specs.declared.seat.MutatorSeat.{MutatorSeat};
ghost use Rattle.mutator_calls.specs.declared.need.NeedCause.{NeedCause};
ghost use Rattle.racing_world.specs.declared.world.World.{World};
ghost use Rattle.racing_mutator.specs.RacingSeats.{MayCall, holdings};
ghost use Rattle.racing_world.specs.Calls.{EntersNothing};
ghost use Rattle.racing_rooms.specs.NoRoom.{regions_at, IsCauseFor};

use plan_api::Plan;

/// At the store of a `put` the object is not old, or its unlog bit is clear.
pub fn stores_follow_the_barrier()
    ensures { (p : Epoch) (i : IdealHeap) (log : List LogEntry) (x : LogEntry) (s j v : ℕ)
        → IsEpochLog p i (log ++ x ∷ []) → x.event ≡ event.Perform (command.Put s j v)
        → (is_old_under p.rules (heap_after p log)
        (address_in (local_after_log p log x.mutator) s) ≡ false)
        ⊎ (is_unlogged (heap_after p log) (address_in (local_after_log p log x.mutator) s)
        ≡ false) }
{}

/// Where the rule of a row holds, there is one history: of two seats' views, one has seen a
/// beginning of the history that the other has seen.
pub fn seats_see_one_history()
    ensures { (rules : Rules) (g : EpochStart) (s : State (Unit {0}) (List MutatorView))
        → HasOneLog rules g s → (a b k l : ℕ) (vs ws : List MutatorView) (v w : MutatorView)
        → get_elem? s.views a ≡ some vs → get_elem? vs k ≡ some v
        → get_elem? s.views b ≡ some ws → get_elem? ws l ≡ some w
        → IsPrefix (history_seen rules v) (history_seen rules w)
        ⊎ IsPrefix (history_seen rules w) (history_seen rules v) }
{}

/// The cause of a mutator's need stands after a call that enters nothing and leaves the mutator its
/// blocks, its objects, its ticket and its regions: other mutators' steps make no room for it.
pub fn causes_stand<P: Plan>()
    ensures { (w : World P) (old new : MutatorSeat) → MayCall P.rules w.row old
        → EntersNothing P.rules w old new → holdings (local_of new) ≡ holdings (local_of old)
        → regions_at new ≡ regions_at old → (size : ℕ) (cause : NeedCause)
        → IsCauseFor P.rules old size cause → IsCauseFor P.rules new size cause }
{}
