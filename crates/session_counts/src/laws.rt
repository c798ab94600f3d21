//! Laws on what a session's heap holds.

ghost use Rattle.std.specs.Prelude.{◌≡◌, ◌↔◌, ◌-◌, ◌*◌, ◌≤◌, ◌<◌, ℕ, false, length, List, true};
ghost use Rattle.std.specs.List.{AllByRecursion, count_by};
ghost use Rattle.heap_layout.specs.declared.block.Kind.TheVariants as kinds;
ghost use Rattle.ideal_heap.specs.Runs.{is_full};
ghost use Rattle.object_model.specs.Counting.{count_words_at, held_in, kind_count};
ghost use Rattle.object_model.specs.Lawful.{IsLawfulButLines};
ghost use Rattle.object_model.specs.Objects.{HeapState, IsHeld};
ghost use Rattle.sessions.specs.Sessions.{InSession, Moment, Setting};
ghost use Rattle.session_counts.specs.HeapCounts.{Distinct, HasOtherSizes};
ghost use Rattle.session_counts.specs.Sizes.{AreSizes, may_fill as may_have};

use heap_layout::BLOCK_WORDS;

/// The held objects of a lawful heap have no more words than the blocks that are not free.
pub fn held_objects_fit()
    ensures { (s : HeapState) → IsLawfulButLines s → count_words_at s (held_in s)
        ≤ BLOCK_WORDS * (s.blocks - kind_count s kinds.Free) }
{}

/// In a session's heap each block that is neither free nor of a large object has an object. So the
/// held objects that are not among some of them have sizes that fill the blocks which those leave.
pub fn held_objects_fill_their_blocks()
    ensures { (t : Setting) (now : Moment) (xs : List ℕ) → IsLawfulButLines now.heap
        → InSession t now → AllByRecursion (IsHeld now.heap) xs → Distinct xs
        → HasOtherSizes now.heap xs }
{}

/// The test says whether there are sizes.
pub fn sizes_are_tested()
    ensures sizes { (objects words large small : ℕ) → may_have objects words large small ≡ true
        → (sizes : List ℕ) × AreSizes objects words large small sizes }
    ensures test { (objects words large small : ℕ) (sizes : List ℕ)
        → AreSizes objects words large small sizes
        → may_have objects words large small ≡ true }
{}

/// A session collects its nursery only with young objects and after a full collection. It makes a
/// full one for each `full` reply, and of each kind no more than commands.
pub fn collections_follow_the_commands()
    ensures young { (t : Setting) (now : Moment) → InSession t now → t.rules.young ≡ false
        → now.nursery ≡ 0 }
    ensures first { (t : Setting) (now : Moment) → InSession t now → 0 < now.nursery
        → 0 < now.full }
    ensures nursery { (t : Setting) (now : Moment) → InSession t now
        → now.nursery ≤ length now.done }
    ensures full { (t : Setting) (now : Moment) → InSession t now → now.full ≤ length now.done }
    ensures refused { (t : Setting) (now : Moment) → InSession t now
        → count_by (λ e. is_full e.reply) now.done ≤ now.full }
{}
