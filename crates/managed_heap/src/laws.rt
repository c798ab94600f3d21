//! The plans that can be managed.

ghost use Rattle.managed_heap.specs.Prelude.{Rules, NoGc, MarkSweep, SemiSpace, GenCopy, Immix, StickyImmix, rules_of, MAX_MUTATORS, Entry, Full, Nursery, IsOffered, heap_state, Remembers, Setting, Moment, MayUse, mutator_state, AreNotes, FlagsCover, StoppedHeap, EndsEpoch, IsManaged, IsHeapInOrder, IsStopped, HeapStandsAt, moment_of};
ghost use Rattle.managed_heap.specs.Prelude.kinds;
ghost use Rattle.std.specs.Prelude.{◌≡◌, ◌<◌, ◌≤◌, ◌++◌, IsTrue, List, map, length};

use crate::stopped_heap::StoppedHeap;

/// A stopped heap runs all plans: mutators fill tails of blocks, cells or lines, and the
/// collections that the plans ask for are made. It does not run a plan whose mutators fill no
/// holes.
pub fn managed_plans()
    ensures nogc { IsManaged (rules_of NoGc) }
    ensures marksweep { IsManaged (rules_of MarkSweep) }
    ensures semispace { IsManaged (rules_of SemiSpace) }
    ensures gencopy { IsManaged (rules_of GenCopy) }
    ensures immix { IsManaged (rules_of Immix) }
    ensures stickyimmix { IsManaged (rules_of StickyImmix) }
    ensures holes { IsManaged (record (rules_of NoGc) { fill = kinds.Mature }) → ⊥ }
{}

/// The parts of a stopped heap meet what `PlainWorld::begin_with` requires of them. A full
/// collection of it may be made, and under rules with young objects a nursery one while its base is
/// above 0, as it is after a full one that reclaims.
pub fn stopped_heaps_begin_epochs<P>(heap: &StoppedHeap<P>)
    ensures few { (rules : Rules) → IsStopped rules heap.now
        → length heap.now.mutators.items ≤ MAX_MUTATORS }
    ensures users { (rules : Rules) → IsStopped rules heap.now
        → MayUse (heap_state heap.now.heap) (map mutator_state heap.now.mutators.items) }
    ensures remembers { (rules : Rules) → IsStopped rules heap.now
        → Remembers rules (heap_state heap.now.heap) }
    ensures notes { (rules : Rules) → IsStopped rules heap.now
        → AreNotes rules.fill (heap_state heap.now.heap) heap.now.notes }
    ensures flags { (rules : Rules) → IsStopped rules heap.now
        → FlagsCover rules (heap_state heap.now.heap) heap.now.notes.flags.items }
    ensures full { (rules : Rules) → IsOffered rules Full (heap_state heap.now.heap) }
    ensures nursery { (rules : Rules) → IsStopped rules heap.now → IsTrue rules.young
        → 0 < (heap_state heap.now.heap).base
        → IsOffered rules Nursery (heap_state heap.now.heap) }
{}

/// The parts of a world that was closed, with the counts of collections of the heap with which its
/// epoch began, are a stopped heap. It stands after the entries of the epoch.
pub fn closed_worlds_are_stopped<P>(heap: &StoppedHeap<P>)
    ensures stands { (rules : Rules) (old : StoppedHeap P) (t : Setting) (now : Moment)
        (part : List Entry) → HeapStandsAt rules old t now → EndsEpoch rules old now part heap.now
        → HeapStandsAt rules heap.now t (moment_of heap.now (now.done ++ part)) }
    ensures stopped { (rules : Rules) (old : StoppedHeap P) (t : Setting) (now : Moment)
        (part : List Entry) → HeapStandsAt rules old t now → EndsEpoch rules old now part heap.now
        → IsHeapInOrder rules old → AreNotes rules.fill (heap_state heap.now.heap) heap.now.notes
        → FlagsCover rules (heap_state heap.now.heap) heap.now.notes.flags.items
        → IsStopped rules heap.now }
{}
