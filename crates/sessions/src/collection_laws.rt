//! Laws of the moment after a collection.

ghost use Rattle.std.specs.Prelude.{◌≡◌, ℕ, List, map, length, true};
ghost use Rattle.std.specs.List.{AllByRecursion};
ghost use Rattle.sessions.specs.Prelude.{Collect, HeapState, roots_of, IsLawful, Rules, IsCollection, Remembers, Setting, Moment, IsSound, MakesCollection, AddsObject, birth_count, counts_after};

use ideal_heap::REGISTERS;

/// A collection of a sound moment's heap leaves a sound moment, if the heap after it is lawful, no
/// entry is added, and each mutator has its number, its births and the sixteen registers that the
/// collection left. If it is counted too, it is a collection of the session. A collection gives as
/// many registers as it was given. A heap that remembers its young objects still does with a placed
/// object more. After a collection that reclaims, a lawful heap remembers them.
pub fn collections_keep_moments_sound()
    ensures sound { (t : Setting) (kind : Collect) (before now : Moment) → IsSound t before
        → IsCollection t.rules t.workers kind before.heap (roots_of before.mutators) now.heap
        (roots_of now.mutators) → IsLawful now.heap
        → map birth_count now.mutators ≡ map birth_count before.mutators
        → AllByRecursion (λ m. length m.registers ≡ REGISTERS) now.mutators
        → now.done ≡ before.done → IsSound t now }
    ensures makes { (t : Setting) (kind : Collect) (before now : Moment) → IsSound t before
        → IsCollection t.rules t.workers kind before.heap (roots_of before.mutators) now.heap
        (roots_of now.mutators) → IsLawful now.heap
        → map birth_count now.mutators ≡ map birth_count before.mutators
        → AllByRecursion (λ m. length m.registers ≡ REGISTERS) now.mutators
        → now.done ≡ before.done → (now.nursery, now.full) ≡ counts_after kind before
        → MakesCollection t kind before now }
    ensures roots { (r : Rules) (workers : ℕ) (kind : Collect) (old new : HeapState)
        (roots after : List ℕ) → IsCollection r workers kind old roots new after
        → length after ≡ length roots }
    ensures placed { (r : Rules) (old new : HeapState) (a refs nums : ℕ) → Remembers r old
        → AddsObject old new a refs nums → new.base ≡ old.base → Remembers r new }
    ensures remembers { (r : Rules) (workers : ℕ) (kind : Collect) (old new : HeapState)
        (roots after : List ℕ) → IsCollection r workers kind old roots new after
        → r.collects ≡ true → IsLawful new → Remembers r new }
{}
