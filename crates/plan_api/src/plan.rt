//! The trait of a plan: its operations and the laws that each plan meets.

ghost use Rattle.std.specs.Prelude.{◌≡◌, ◌↔◌, ◌<◌, ◌≤◌, ◌&&◌, ◌||◌, ℕ, IsTrue, length, map, IfOk};
ghost use Rattle.std.specs.List.{range_with_len};
ghost use Rattle.plan_api.specs.Prelude.{block_at, offset_at, IsRowOf, HeapState, size_of, has_kind, IsHeld, IsInExtent, shown, Collect, Nursery, may_leave_from, IsReleasable, IsWellFormed, IsReadableBlock, LineBitsAreExact, heap_state, Rules, PlanName, rules_of, plan_word, has_holes, Counts, HoldsReserve, allowance_in, after_taking, Fits, allowance_of, class_for_size, first_collection, is_evacuated, is_old_under, Remembers, PlanFlags, flags_of, session_reserve, IsViewOf, AreApart, IsFirstHole, IsHolePart, listed, Releases, Relists};
ghost use Rattle.plan_api.specs.Prelude.kinds;

use crate::ages::is_old;
use crate::block_view::BlockView;
use crate::blocks_to_copy::may_leave;
use crate::cells::class_for;
use crate::counts::Reserve;
use crate::fit::fits;
use crate::flags::PlanFlags;
use crate::grants::block_counts;
use crate::holes::first_hole;
use bitflags::Flags;
use heap_layout::{Kind, Layout, Region};
use ideal_heap::{MAX_NUMS, MAX_REFS};
use object_model::{Collect, HEADER_WORDS, Heap, MAX_MEDIUM_WORDS};
use side_meta::Words;
use std::alloc::{AllocError, Global};

/// A plan, as in MMTk: how blocks are filled, which objects fit, and which collection comes first.
///
/// The contract of each method follows from the plan's rules. A plan has no state. Methods with a
/// body hold for every plan: they ask the plan for the kind that mutators fill, its reserve and its
/// flags.
pub trait Plan {
    // The plan's name in the definitions, its rules, and its flags.
    ghost plan: { PlanName };

    ghost rules: { Rules };

    ghost FLAGS: { PlanFlags };

    /// The flags of the plan's rules.
    const FLAGS: PlanFlags;

    /// The plan's name on the command line and in a report.
    const NAME: &'static str;

    /// Returns `NAME`. A contract can speak of a result, but not of a constant of type `&str`.
    fn plan_name() -> &'static str
        ensures { result.now ≡ plan_word plan };

    /// Whether a collection reclaims anything. If not, it only counts itself.
    fn collects() -> bool
        ensures { result ≡ rules.collects };

    /// The kind of the blocks that mutators fill.
    fn alloc_kind() -> Kind
        ensures { result ≡ rules.fill };

    /// The kind of the blocks that a collection copies into, or Free if it copies nothing.
    fn copy_kind() -> Kind
        ensures { result ≡ rules.copy };

    /// How many Free blocks the plan holds back.
    fn reserve() -> Reserve
        ensures { session_reserve result ≡ rules.reserve };

    /// The class of a Free block that a mutator takes for an object of `size` words.
    fn class_for(size: u32) -> u32
        requires least { HEADER_WORDS ≤ size }
        requires most { size ≤ MAX_MEDIUM_WORDS }
        ensures { result ≡ class_for_size rules.fill size }
    {
        class_for(Self::alloc_kind(), size)
    }

    /// The first part of a hole of the block that has room for `size` words and begins at or after
    /// the offset `from`, in words, or `None`. A free cell is always returned whole.
    ///
    /// For callers that hold a view, as tests do: mutators search the words of a block, by
    /// `hole_in_block`.
    fn hole_in(view: &BlockView, from: u32, size: u32) -> Option<Region>
        requires least { HEADER_WORDS ≤ size }
        requires most { size ≤ MAX_MEDIUM_WORDS }
        ensures { (s : HeapState) (k : ℕ) → IsViewOf s k view.now → AreApart s k
            → IsFirstHole rules.fill s k from size result }
    {
        first_hole(Self::alloc_kind(), view, from, size)
    }

    /// Whether an object of `size` words fits the heap without a collection.
    fn fits(heap: &Heap, size: u32) -> bool
        requires least { HEADER_WORDS ≤ size }
        requires most { size ≤ size_of MAX_REFS MAX_NUMS }
        ensures { IsTrue result ↔ Fits rules (heap_state heap.now) size }
    {
        fits(heap, Self::alloc_kind(), Self::reserve(), size)
    }

    /// Whether the object is old. Under a plan without young objects none is.
    fn old(heap: &Heap, address: u32) -> bool
        requires { IsHeld (heap_state heap.now) address }
        ensures { result ≡ is_old_under rules (heap_state heap.now) address }
    {
        Self::FLAGS.contains(PlanFlags::YOUNG) && is_old(heap, address)
    }

    /// The first collection to run when an object does not fit.
    fn kind(heap: &Heap) -> Collect
        requires { Remembers rules (heap_state heap.now) }
        ensures { result ≡ first_collection rules (heap_state heap.now) };

    /// The number of Free blocks that mutators may take in an epoch.
    fn allowance(heap: &Heap) -> u32
        ensures { result ≡ allowance_of rules.reserve (heap_state heap.now) }
    {
        block_counts(heap).allowance(Self::reserve())
    }

    /// Whether a collection that evacuates the blocks in `from`, which has an entry for each block,
    /// may move the object.
    ///
    /// For callers outside a trace, as tests: a tracer has the list `from`, and asks no plan.
    fn may_move(heap: &Heap, from: &[bool], address: u32) -> bool
        requires held { IsHeld (heap_state heap.now) address }
        requires from { length from.now ≡ (heap_state heap.now).blocks }
        ensures { result ≡ (rules.moves
            && may_leave_from (listed from.now) (heap_state heap.now) address) }
    {
        Self::FLAGS.contains(PlanFlags::MOVES) && may_leave(heap, from, address)
    }

    /// For each block whether a collection of this kind evacuates it.
    ///
    /// Fails if memory runs out.
    fn from_blocks(alloc: Global, heap: &Heap, collect: Collect) -> Result<Vec<bool>, AllocError>
        requires { collect ≡ Nursery → IsTrue rules.young }
        ensures { IfOk result (λ v. v.items
            ≡ map (is_evacuated rules collect (heap_state heap.now))
            (range_with_len 0 (heap_state heap.now).blocks)) };

    /// Ends a collection for one block of the row after a trace: `base` is the base after the
    /// collection. Other blocks may have been released before.
    fn release_block<W: Words>(
        words: &mut W,
        layout: &Layout,
        block: u32,
        collect: Collect,
        base: u64,
    )
        requires extent { IsRowOf layout.now (W.words words.old) }
        requires block { block < layout.now.blocks }
        requires releasable { IsReleasable
            (shown (W.words words.old) layout.now) block }
        ensures { Releases rules collect base (shown (W.words words.old) layout.now)
            (shown (W.words words.new) layout.now) block };

    /// After mutators filled a block, or objects in it died: makes the line bits of an Immix block
    /// those of the lines that objects touch, if the plan fills lines. In every other case changes
    /// nothing.
    fn relist_block<W: Words>(words: &mut W, layout: &Layout, block: u32)
        requires block { IsReadableBlock (shown (W.words words.old) layout.now) block }
        requires apart { AreApart (shown (W.words words.old) layout.now) block }
        ensures { Relists rules (shown (W.words words.old) layout.now)
            (shown (W.words words.new) layout.now) block };

    // The rules are those of the plan, and the flags are those of the rules.
    ghost rules_are_of_plan: { rules ≡ rules_of plan };

    ghost flags_are_of_rules: { FLAGS.0 ≡ flags_of rules };

    // Blocks of the kind that mutators fill have holes.
    ghost fill_has_holes: { IsTrue (has_holes rules.fill) };

    // No word of a held object is in a hole.
    ghost holes_are_clear: { (s : HeapState) (k from size next end a i : ℕ)
        → IsWellFormed s → LineBitsAreExact s k → IsHolePart rules.fill s k from size next end
        → IsHeld s a → IsInExtent s a i → block_at s.blocks i ≡ k
        → next ≤ offset_at s.blocks i → offset_at s.blocks i < end → ⊥ };

    // No block of a large object is evacuated.
    ghost large_objects_stay: { (c : Collect) (s : HeapState) (k : ℕ)
        → IsTrue (is_evacuated rules c s k)
        → IsTrue (has_kind s k kinds.LargeHead || has_kind s k kinds.LargeTail) → ⊥ };

    // If the reserve is there, it is still there after mutators took at most the allowance of Free
    // blocks.
    ghost reserve_is_kept: { (c : Counts) (n : ℕ) → HoldsReserve rules.reserve c
        → n ≤ allowance_in rules.reserve c → HoldsReserve rules.reserve (after_taking c n) };
}
