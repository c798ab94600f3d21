//! Laws of holes, views, reserves and taken blocks.

ghost use Rattle.std.specs.Prelude.{◌≡◌, ◌≢◌, ◌↔◌, ◌+◌, ◌<◌, ◌≤◌, ℕ, List, [], ◌∷◌, filter, IsTrue, None};
ghost use Rattle.plan_api.specs.Prelude.{block_at, offset_at, block_start, all_kinds, Kind, Layout, HeapState, state_over, HasKind, class_at, owner_at, IsHeld, IsInExtent, shown, IsWellFormed, IsReadableBlock, IsTouched, LineBitsAreExact, bit_in, rules_of, Nothing, Copies, Headroom, has_holes, BlockCounts, HoldsReserve, allowance_in, after_taking, IsTail, HasHole, LiesInHole, free_of, counts_of, allowance_of, flags_of, has_cells, TakesBlocks, BlockView, IsViewOf, AreApart, Region, IsHolePart, HasRoomFrom, IsFirstPart, IsFirstHole};
ghost use Rattle.plan_api.specs.Prelude.kinds;
ghost use Rattle.plan_api.specs.Prelude.plans;

use crate::plan::Plan;
use heap_layout::{BLOCK_LINES, BLOCK_WORDS};

/// A hole is its own part from offset 0 on. An object at the start of a part with room lies in the
/// hole, at or after `from`. So does any range of words within a part, unless the block has cells.
/// No word of an object lies in a part.
pub fn hole_parts()
    ensures whole { (fill : Kind) (s : HeapState) (k size at : ℕ)
        → HasHole fill s k at size ↔ ((end : ℕ) × HasRoomFrom fill s k 0 size at end) }
    ensures start { (fill : Kind) (s : HeapState) (k from size next end : ℕ)
        → HasRoomFrom fill s k from size next end
        → (from ≤ next) × LiesInHole fill s k next size }
    ensures within { (fill : Kind) (s : HeapState) (k from size next end at n : ℕ)
        → IsHolePart fill s k from size next end → fill ≢ kinds.Cells
        → next ≤ at → at + n ≤ end → LiesInHole fill s k at n }
    ensures clear { (fill : Kind) (s : HeapState) (k from size next end a i : ℕ)
        → IsWellFormed s → LineBitsAreExact s k → IsHolePart fill s k from size next end
        → IsHeld s a → IsInExtent s a i → block_at s.blocks i ≡ k
        → next ≤ offset_at s.blocks i → offset_at s.blocks i < end → ⊥ }
{}

/// All first parts of a block begin at one offset. If the result is `None`, there is no first part.
/// No hole with room begins before the first part from the block's start on.
pub fn first_parts()
    ensures next { (fill : Kind) (s : HeapState) (k from size : ℕ) (x y : Region)
        → IsFirstPart fill s k from size x → IsFirstPart fill s k from size y
        → x.next ≡ y.next }
    ensures none { (fill : Kind) (s : HeapState) (k from size : ℕ) (x : Region)
        → IsFirstHole fill s k from size None → IsFirstPart fill s k from size x → ⊥ }
    ensures before { (fill : Kind) (s : HeapState) (k size at : ℕ) (x : Region)
        → IsFirstPart fill s k 0 size x → HasHole fill s k at size → x.next ≤ at }
{}

/// A view shows a block's kind, class and owner, where objects begin, and the offset of its tail if
/// the objects of the block do not overlap. In a well-formed heap they do not. Of an Immix block
/// whose line bits are exact it shows the lines that objects touch. Whether a block can be read
/// does not depend on the heap's collection numbers.
pub fn views_show_blocks()
    ensures kind { (s : HeapState) (k : ℕ) (v : BlockView) → IsViewOf s k v
        → HasKind s k v.word.kind × (class_at s k ≡ v.word.class)
        × (owner_at s k ≡ v.word.owner) }
    ensures tail { (s : HeapState) (k : ℕ) (v : BlockView) → IsViewOf s k v → AreApart s k
        → IsTail s k v.end }
    ensures starts { (s : HeapState) (k w : ℕ) (v : BlockView) → IsViewOf s k v
        → w < BLOCK_WORDS
        → IsTrue (bit_in v.starts w) ↔ IsHeld s (block_start s.blocks k + w) }
    ensures lines { (s : HeapState) (k line : ℕ) (v : BlockView) → IsViewOf s k v
        → HasKind s k kinds.Immix → LineBitsAreExact s k → line < BLOCK_LINES
        → IsTrue (bit_in v.lines line) ↔ ∥ IsTouched s k line ∥₁ }
    ensures apart { (s : HeapState) (k : ℕ) → IsWellFormed s → AreApart s k }
    ensures readable { (words : List ℕ) (l : Layout) (number base k : ℕ)
        → IsReadableBlock (state_over words l number base) k
        → IsReadableBlock (shown words l) k }
{}

/// If the reserve is there, it is still there after mutators took at most the allowance of Free
/// blocks.
pub fn reserves_are_kept()
    ensures nothing { (c : BlockCounts) (n : ℕ) → HoldsReserve Nothing c
        → n ≤ allowance_in Nothing c → HoldsReserve Nothing (after_taking c n) }
    ensures copies { (c : BlockCounts) (n : ℕ) → HoldsReserve Copies c
        → n ≤ allowance_in Copies c → HoldsReserve Copies (after_taking c n) }
    ensures headroom { (c : BlockCounts) (n : ℕ) → HoldsReserve Headroom c
        → n ≤ allowance_in Headroom c → HoldsReserve Headroom (after_taking c n) }
{}

/// Each Free block taken lowers the count of Free blocks by one. The other counts stay.
pub fn taken_blocks_are_counted()
    ensures { (fill : Kind) (old new : HeapState) (n : ℕ) → IsTrue (has_holes fill)
        → TakesBlocks fill old new n
        → (n ≤ free_of old) × (counts_of new ≡ after_taking (counts_of old) n) }
{}

/// The laws of each plan, for code that is generic over plans: no word of an object lies in a hole,
/// and the reserve is still there after mutators took at most the allowance of Free blocks.
pub fn plans_hold_reserves<P: Plan>()
    ensures clear { (s : HeapState) (k from size next end a i : ℕ)
        → IsWellFormed s → LineBitsAreExact s k
        → IsHolePart P.rules.fill s k from size next end
        → IsHeld s a → IsInExtent s a i → block_at s.blocks i ≡ k
        → next ≤ offset_at s.blocks i → offset_at s.blocks i < end → ⊥ }
    ensures reserve { (old new : HeapState) (n : ℕ)
        → HoldsReserve P.rules.reserve (counts_of old)
        → n ≤ allowance_of P.rules.reserve old → TakesBlocks P.rules.fill old new n
        → HoldsReserve P.rules.reserve (counts_of new) }
{}

/// The flags of each plan, and the kinds of blocks that have holes or cells.
pub fn plans_have_flags()
    ensures nogc { flags_of (rules_of plans.NoGc) ≡ 0 }
    ensures mark_sweep { flags_of (rules_of plans.MarkSweep) ≡ 8 }
    ensures semi_space { flags_of (rules_of plans.SemiSpace) ≡ 1 }
    ensures gen_copy { flags_of (rules_of plans.GenCopy) ≡ 1 + 2 }
    ensures immix { flags_of (rules_of plans.Immix) ≡ 1 + 4 }
    ensures sticky_immix { flags_of (rules_of plans.StickyImmix) ≡ 1 + 2 + 4 }
    ensures holes { filter has_holes all_kinds
        ≡ kinds.Bump ∷ kinds.Young ∷ kinds.Immix ∷ kinds.Cells ∷ [] }
    ensures cells { filter has_cells all_kinds ≡ kinds.Cells ∷ [] }
{}
