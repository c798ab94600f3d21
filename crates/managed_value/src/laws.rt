//! Laws of managed heaps.

ghost use Rattle.std.specs.Prelude.{◌≡◌, ◌+◌, ◌∷◌, ◌++◌, [], ℕ, IsTrue, List, Some, false};
ghost use Rattle.managed_value.specs.Prelude.{Command, Reply, is_new, IdealHeap, empty, step, Entry, IsRun, heap_after_run, is_full, Represents, Rules, PlainWorld, heap_of_world, mutators_of_world, IsGrown, heap_after, ManagedHeap, HasEntries, IsUsable, AddsHeapEntry, KeepsEntries, StandsFor};
ghost use Rattle.managed_value.specs.Prelude.reply;

use crate::managed::ManagedHeap;

/// The entries of all calls since a heap was new are a run of the empty ideal heap, over stops and
/// collections. The heap with the mutators represents the ideal heap after that run.
pub fn managed_heaps_follow_ideal_heaps<P>(heap: &ManagedHeap<P>)
    ensures run { (rules : Rules) (es : List Entry) → HasEntries rules heap.now es
        → IsRun empty es }
    ensures represents { (rules : Rules) (es : List Entry) (w : PlainWorld P)
        → HasEntries rules heap.now es → heap.now.world ≡ Some w
        → Represents (heap_of_world w) (mutators_of_world w) (heap_after_run empty es) }
{}

/// How a program carries what it knows from call to call. A heap that is new stands for the empty
/// ideal heap. A call leads to the ideal heap of its step, and has its reply. An allocation that
/// was refused, a stop and a collection leave the ideal heap. In each ideal heap that a heap stands
/// for, new objects are new.
pub fn ideal_heaps_go_on<P>()
    ensures begins { (rules : Rules) (heap : ManagedHeap P) → HasEntries rules heap []
        → StandsFor rules heap empty }
    ensures reply { (rules : Rules) (old new : ManagedHeap P) (m : ℕ) (c : Command) (r : Reply)
        (i : IdealHeap) → AddsHeapEntry rules old m c r new → (IsTrue (is_new c) → is_full r
        ≡ false)
        → StandsFor rules old i → r ≡ (step i (m + 1) c).0 }
    ensures step { (rules : Rules) (old new : ManagedHeap P) (m : ℕ) (c : Command) (r : Reply)
        (i : IdealHeap) → AddsHeapEntry rules old m c r new → (IsTrue (is_new c) → is_full r
        ≡ false)
        → StandsFor rules old i → StandsFor rules new (step i (m + 1) c).1 }
    ensures commands { (rules : Rules) (old new : ManagedHeap P) (m : ℕ) (c : Command)
        (r : Reply) (i : IdealHeap) (cs : List Command) → AddsHeapEntry rules old m c r new
        → (IsTrue (is_new c) → is_full r ≡ false) → StandsFor rules old (heap_after i (m + 1) cs)
        → StandsFor rules new (heap_after i (m + 1) (cs ++ c ∷ [])) }
    ensures refused { (rules : Rules) (old new : ManagedHeap P) (m : ℕ) (c : Command)
        (i : IdealHeap) → AddsHeapEntry rules old m c reply.Full new → StandsFor rules old i
        → StandsFor rules new i }
    ensures kept { (rules : Rules) (old new : ManagedHeap P) (i : IdealHeap)
        → KeepsEntries rules old new → StandsFor rules old i → StandsFor rules new i }
    ensures some { (rules : Rules) (heap : ManagedHeap P) → IsUsable rules heap
        → (i : IdealHeap) × StandsFor rules heap i }
    ensures grown { (rules : Rules) (heap : ManagedHeap P) (i : IdealHeap)
        → StandsFor rules heap i → IsGrown i }
    ensures represents { (rules : Rules) (heap : ManagedHeap P) (i : IdealHeap)
        (w : PlainWorld P) → StandsFor rules heap i → heap.world ≡ Some w
        → Represents (heap_of_world w) (mutators_of_world w) i }
{}
