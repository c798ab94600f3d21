//! How the release of a block is made of sweeps.

ghost use Rattle.std.specs.Prelude.{◌≡◌, ◌<◌, ℕ, List};
ghost use Rattle.plan_api.specs.Prelude.{Layout, Collect, HasKind, shown, IsReleasable, InSpan, Lives, Sweeps, SweepsRun, MarksTouched, Unlogs, InBlock, HasNoLiving, Rules, Releases, word_after};
ghost use Rattle.plan_api.specs.Prelude.kinds;

/// A block is released by a sweep that gives it its word, the marks of touched lines if it is an
/// Immix block, and unlog bits. If nothing lives in it, the sweep is all. So it is with a large
/// run, by its first block. A Free block, and a tail of a large run, are released as they are.
pub fn releases_are_sweeps()
    ensures small { (r : Rules) (c : Collect) (l : Layout) (base k : ℕ)
        (old mid marked new : List ℕ) → k < l.blocks
        → (HasKind (shown old l) k kinds.LargeHead → ⊥)
        → (HasKind (shown old l) k kinds.LargeTail → ⊥)
        → Sweeps base (word_after r c (shown old l) k)
        (shown old l) (shown mid l) k
        → (HasKind (shown old l) k kinds.Immix
        → MarksTouched (shown mid l) (shown marked l) k)
        → ((HasKind (shown old l) k kinds.Immix → ⊥) → marked ≡ mid)
        → Unlogs (shown marked l) (shown new l) k
        → Releases r c base (shown old l) (shown new l) k }
    ensures empty { (r : Rules) (c : Collect) (l : Layout) (base after k : ℕ) (old new : List ℕ)
        → k < l.blocks → (HasKind (shown old l) k kinds.LargeHead → ⊥)
        → (HasKind (shown old l) k kinds.LargeTail → ⊥)
        → HasNoLiving base (shown old l) (InBlock (shown old l) k)
        → Sweeps base after (shown old l) (shown new l) k
        → Releases r c base (shown old l) (shown new l) k }
    ensures freed_run { (r : Rules) (c : Collect) (l : Layout) (base k : ℕ) (old new : List ℕ)
        → (HasKind (shown old l) k kinds.LargeTail → ⊥)
        → HasNoLiving base (shown old l) (InSpan (shown old l) k)
        → SweepsRun base (shown old l) (shown new l) k
        → Releases r c base (shown old l) (shown new l) k }
    ensures living_run { (r : Rules) (c : Collect) (l : Layout) (base k a : ℕ)
        (old mid new : List ℕ) → IsReleasable (shown old l) k
        → HasKind (shown old l) k kinds.LargeHead
        → InSpan (shown old l) k a → Lives base (shown old l) a
        → SweepsRun base (shown old l) (shown mid l) k
        → Unlogs (shown mid l) (shown new l) k
        → Releases r c base (shown old l) (shown new l) k }
    ensures free { (r : Rules) (c : Collect) (l : Layout) (base k : ℕ) (old : List ℕ)
        → IsReleasable (shown old l) k
        → HasKind (shown old l) k kinds.Free
        → Releases r c base (shown old l) (shown old l) k }
    ensures tail { (r : Rules) (c : Collect) (l : Layout) (base k : ℕ) (old : List ℕ)
        → HasKind (shown old l) k kinds.LargeTail
        → Releases r c base (shown old l) (shown old l) k }
{}
