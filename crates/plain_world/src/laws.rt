//! Laws of worlds.

ghost use Rattle.std.specs.Prelude.{◌≡◌, ◌⊎◌, ℕ, IsTrue, List, false};
ghost use Rattle.std.specs.List.{AllByRecursion, Contains};
ghost use Rattle.plain_world.specs.Prelude.{IdealHeap, Entry, IsRun, heap_after_run, Reply, is_unlogged, Represents, numbers_of, IsWellFormed, Rules, Remembers, Epoch, allowance, IsOfPart, heap_of_world, mutators_of_world, fill_of, epoch_allowance, stop_word, register_in, HasHistory, IsOldUnlogged, EntersStore};
ghost use Rattle.plain_world.specs.Prelude.replies;

use crate::plain_world::PlainWorld;

/// The history of a world is a run of the ideal heap that it began with, and its heap with the
/// mutators represents the ideal heap after that run. Each entry is one that an epoch of a session
/// may have.
pub fn worlds_follow_ideal_heaps<P>(world: &PlainWorld<P>)
    ensures run { (p : Epoch) (i : IdealHeap) (part : List Entry) → HasHistory world.now p i part
        → IsRun i part }
    ensures part { (p : Epoch) (i : IdealHeap) (part : List Entry) → HasHistory world.now p i part
        → AllByRecursion IsOfPart part }
    ensures represents { (p : Epoch) (i : IdealHeap) (part : List Entry)
        → HasHistory world.now p i part
        → Represents (heap_of_world world.now) (mutators_of_world world.now)
        (heap_after_run i part) }
{}

/// The heap of a world is well formed, and remembers its young references. The stop word is 0 or
/// the number of a mutator. The world has the kind of blocks and the allowance of its epoch.
pub fn worlds_stay_in_order<P>(world: &PlainWorld<P>)
    ensures order { (p : Epoch) (i : IdealHeap) (part : List Entry)
        → HasHistory world.now p i part → IsWellFormed (heap_of_world world.now) }
    ensures remembers { (p : Epoch) (i : IdealHeap) (part : List Entry)
        → HasHistory world.now p i part → Remembers p.rules (heap_of_world world.now) }
    ensures stop { (p : Epoch) (i : IdealHeap) (part : List Entry)
        → HasHistory world.now p i part → (stop_word world.now ≡ 0)
        ⊎ Contains (numbers_of (mutators_of_world world.now)) (stop_word world.now) }
    ensures fill { (p : Epoch) (i : IdealHeap) (part : List Entry)
        → HasHistory world.now p i part → fill_of world.now ≡ p.rules.fill }
    ensures allowance { (p : Epoch) (i : IdealHeap) (part : List Entry)
        → HasHistory world.now p i part → epoch_allowance world.now ≡ allowance p }
{}

/// A store into an old object leaves its unlog bit clear, under a generational plan. A store clears
/// no other unlog bit, sets none, and clears that one only if it is made.
pub fn stores_log_old_objects<P>(world: &PlainWorld<P>)
    ensures logs { (rules : Rules) (new : PlainWorld P) (place s i v : ℕ) (reply : Reply)
        → EntersStore rules world.now place s i v reply new → reply ≡ replies.Done
        → IsOldUnlogged world.now (register_in world.now place s)
        → is_unlogged (heap_of_world new) (register_in world.now place s) ≡ false }
    ensures sets { (rules : Rules) (new : PlainWorld P) (place s i v : ℕ) (reply : Reply) (x : ℕ)
        → EntersStore rules world.now place s i v reply new
        → IsTrue (is_unlogged (heap_of_world new) x)
        → IsTrue (is_unlogged (heap_of_world world.now) x) }
    ensures clears { (rules : Rules) (new : PlainWorld P) (place s i v : ℕ) (reply : Reply) (x : ℕ)
        → EntersStore rules world.now place s i v reply new
        → IsTrue (is_unlogged (heap_of_world world.now) x)
        → is_unlogged (heap_of_world new) x ≡ false
        → (x ≡ register_in world.now place s) × (reply ≡ replies.Done) × IsOldUnlogged world.now x }
{}
