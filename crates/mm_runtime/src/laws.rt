//! What a world of mutators on threads leaves of a stopped heap, for runtimes that make their
//! epochs themselves.

ghost use Rattle.std.specs.Prelude.{◌≡◌, All, List, map};
ghost use Rattle.mm_runtime.specs.Prelude.{Rules, Setting, Moment, Seat, Stopped, MayCall, epoch_of, epoch_of_world, heap_state, mutator_state, HeapStandsAt, ClosesWorld, EndsEpoch};

use managed_heap::StoppedHeap;
use plan_api::Plan;
use racing_world::World;

/// A world that was begun with the parts of a stopped heap, and closed with all its seats, ends the
/// epoch of that heap, with the history at the end of the heap's own.
pub fn shared_worlds_end_epochs<P: Plan>(old: &StoppedHeap<P>, world: &World<P>)
    ensures { (rules : Rules) (t : Setting) (now : Moment) (seats : List Seat) (new : Stopped P)
        → HeapStandsAt rules old.now t now
        → epoch_of_world rules world.now ≡ epoch_of rules (heap_state old.now.heap)
        (map mutator_state old.now.mutators.items)
        → All (MayCall rules world.now.row) seats
        → (ends : ClosesWorld rules (epoch_of_world rules world.now) seats
        (heap_state new.heap) (map mutator_state new.mutators.items))
        → new.nursery ≡ old.now.nursery → new.full ≡ old.now.full
        → new.workers ≡ old.now.workers
        → EndsEpoch rules old.now now ends.history new }
{}
