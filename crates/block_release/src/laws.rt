//! Laws of the release of all blocks after a tracing.

ghost use Rattle.std.specs.Prelude.{◌≡◌, ◌↔◌, ◌^◌, ◌<◌, ℕ, Bool, Some, List, IsTrue, slice_get};
ghost use Rattle.block_release.specs.Prelude.{block_at, BLOCK_LINES, Layout, Collect, HeapState, HasKind, state_over, word_at, line_marked, refs_at, nums_at, IsHeld, is_unlogged, IsLawful, Lives, IsReleasable, Rules, Setup, blocks, collection, Event, IsTracing, IsFinished, machine_after, heap_after, base_after_trace, TraceRun, Releases, ReleasesBelow, AreReleased, with_numbers, UnlogBitsMarkSurvivors, LinesOfTargetsAreMarked, LinesOfClaimedAreMarked, LosesNothing, LineBitsMarkSurvivors, FlagShowsEvacuation, IsTracedUnder};
ghost use Rattle.block_release.specs.Prelude.kinds;

/// After a finished tracing the blocks can be released in order: the next block may be released
/// each time. What each release left stays, and no word but metadata of blocks changes.
pub fn blocks_are_released_in_order()
    ensures next { (p : Setup) (es : List Event) (r : Rules) (c : Collect) (mid : HeapState)
        (n : ℕ) → IsTracing p es → IsFinished p (machine_after p es)
        → ReleasesBelow r c (base_after_trace p) (heap_after p es) mid n → n < blocks p
        → IsReleasable mid n }
    ensures released { (p : Setup) (es : List Event) (r : Rules) (c : Collect) (mid : HeapState)
        (n : ℕ) → IsTracing p es → IsFinished p (machine_after p es)
        → ReleasesBelow r c (base_after_trace p) (heap_after p es) mid n
        → AreReleased r c (base_after_trace p) (heap_after p es) mid n }
{}

/// After a finished tracing, of a full or of a nursery collection, the unlog bits of a block show
/// what lives in it.
pub fn unlog_bits_show_what_lives()
    ensures { (p : Setup) (es : List Event) (k : ℕ) → IsTracing p es
        → IsFinished p (machine_after p es)
        → UnlogBitsMarkSurvivors (base_after_trace p) (heap_after p es) k }
{}

/// After a finished tracing that began with no line bit set, and marked the lines of each object
/// that it keeps, the line bits of an Immix block are those of the lines that what lives in it
/// touches. The same is so of a block in which no object died or moved away, after a tracing that
/// began with exact line bits, and marked the lines of each object that it claimed.
pub fn line_bits_show_what_lives()
    ensures all { (p : Setup) (es : List Event) (k : ℕ) → IsTracing p es
        → IsFinished p (machine_after p es) → LinesOfTargetsAreMarked p es → k < blocks p
        → LineBitsMarkSurvivors (base_after_trace p) (heap_after p es) k }
    ensures kept { (p : Setup) (es : List Event) (k : ℕ) → IsTracing p es
        → IsFinished p (machine_after p es) → LinesOfClaimedAreMarked p es → k < blocks p
        → LosesNothing (base_after_trace p) (heap_after p es) k
        → LineBitsMarkSurvivors (base_after_trace p) (heap_after p es) k }
{}

/// After a finished tracing of a run under these rules, the run's flag of a block shows whether the
/// block was evacuated.
pub fn flags_show_evacuation()
    ensures { (r : Rules) (run : TraceRun) (p : Setup) (es : List Event) (k : ℕ) (flag : Bool)
        → IsTracedUnder r run p → IsTracing p es → IsFinished p (machine_after p es)
        → k < blocks p → slice_get run.from.items k ≡ Some flag
        → FlagShowsEvacuation r run.collect (heap_after p es) k flag }
{}

/// If each block of the row after a finished tracing was released, the objects held are exactly
/// those that survive, each with its unlog bit, and the heap is lawful. The stop word and the
/// budget word are as they were before the tracing, an object that was held and still is has its
/// shape, and a block that is no Immix block, where an object that lives begins, keeps its line
/// bits.
pub fn released_heaps_are_lawful()
    ensures held { (p : Setup) (es : List Event) (r : Rules) (c : Collect) (new : HeapState)
        (a : ℕ) → IsTracing p es → IsFinished p (machine_after p es)
        → ReleasesBelow r c (base_after_trace p) (heap_after p es) new (blocks p)
        → IsHeld new a ↔ Lives (base_after_trace p) (heap_after p es) a }
    ensures unlogged { (p : Setup) (es : List Event) (r : Rules) (c : Collect) (new : HeapState)
        (a : ℕ) → IsTracing p es → IsFinished p (machine_after p es)
        → ReleasesBelow r c (base_after_trace p) (heap_after p es) new (blocks p)
        → IsHeld new a → IsTrue (is_unlogged new a) }
    ensures words { (p : Setup) (es : List Event) (r : Rules) (c : Collect) (new : HeapState)
        (i : ℕ) → IsTracing p es → IsFinished p (machine_after p es)
        → ReleasesBelow r c (base_after_trace p) (heap_after p es) new (blocks p)
        → i < 2 → word_at new i ≡ word_at p.before i }
    ensures shapes { (p : Setup) (es : List Event) (r : Rules) (c : Collect) (new : HeapState)
        (x : ℕ) → IsTracing p es → IsFinished p (machine_after p es)
        → ReleasesBelow r c (base_after_trace p) (heap_after p es) new (blocks p)
        → IsHeld p.before x → IsHeld new x
        → (refs_at new x ≡ refs_at p.before x) × (nums_at new x ≡ nums_at p.before x) }
    ensures lines { (p : Setup) (es : List Event) (r : Rules) (c : Collect) (new : HeapState)
        (a line : ℕ) → IsTracing p es → IsFinished p (machine_after p es)
        → ReleasesBelow r c (base_after_trace p) (heap_after p es) new (blocks p)
        → Lives (base_after_trace p) (heap_after p es) a
        → (HasKind (heap_after p es) (block_at (blocks p) a) kinds.Immix → ⊥)
        → line < BLOCK_LINES → line_marked new (block_at (blocks p) a) line
        ≡ line_marked (heap_after p es) (block_at (blocks p) a) line }
    ensures lawful { (p : Setup) (es : List Event) (r : Rules) (c : Collect) (new : HeapState)
        → IsTracing p es → IsFinished p (machine_after p es)
        → ((i : ℕ) → word_at (heap_after p es) i < 2 ^ 64)
        → ReleasesBelow r c (base_after_trace p) (heap_after p es) new (blocks p)
        → IsLawful (with_numbers new (collection p) (base_after_trace p)) }
{}

/// Whether a block may be released, and what its release does, does not depend on the heap's
/// collection numbers.
pub fn releases_ignore_numbers()
    ensures releasable { (words : List ℕ) (l : Layout) (number base number' base' k : ℕ)
        → IsReleasable (state_over words l number base) k
        → IsReleasable (state_over words l number' base') k }
    ensures releases { (r : Rules) (c : Collect) (age : ℕ) (old new : List ℕ) (l : Layout)
        (number base number' base' k : ℕ)
        → Releases r c age (state_over old l number base) (state_over new l number base) k
        → Releases r c age (state_over old l number' base') (state_over new l number' base') k }
{}
