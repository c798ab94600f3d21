//! Laws of the plans, and of where objects fit.

ghost use Rattle.std.specs.Prelude.{◌≡◌, ◌≢◌, ◌↔◌, ℕ, ◌+◌, ◌%◌, ◌<◌, ◌≤◌, Option, Some, None, List, ◌∷◌, [], map, replicate, false, true, codes};
ghost use Rattle.std.specs.List.{range_with_len};
ghost use Rattle.sessions.specs.Prelude.{all_kinds, Kind, HeapState, HasKind, class_at, cell_words, empty_heap, blocks_for, IsLawful, IsClear, with_block, unowned, Plan, NoGc, SemiSpace, GenCopy, Immix, Rules, Reserve, Nothing, Copies, Headroom, rules_of, plan_word, BlockCounts, HoldsReserve, IsGrantable, IsRunGrantable, after_taking, all_plans, counts_with, Fits, MayGrant, MayGrantRun, IsFreeRun, IsTail, IsLineHole, class_of, class_for, HasHole, LiesInHole, HasCellFor, counts_of, total_of, used_of, headroom_of, allowance_of, mixed_heap, heap_used, used_heap, full_heap, split_heap};
ghost use Rattle.sessions.specs.Prelude.kinds;

use heap_layout::BLOCK_WORDS;
use object_model::MAX_MEDIUM_WORDS;

/// The six plans as data, in the order nogc, marksweep, semispace, gencopy, immix, stickyimmix:
/// which reclaim, move objects, have young objects, and fill blocks through clear lines; which
/// kinds of blocks mutators and workers fill; what is held back.
pub fn plans_as_data()
    ensures words { map plan_word all_plans ≡ codes "nogc" ∷ codes "marksweep"
        ∷ codes "semispace" ∷ codes "gencopy" ∷ codes "immix" ∷ codes "stickyimmix" ∷ [] }
    ensures collects { map (λ p. (rules_of p).collects) all_plans
        ≡ false ∷ true ∷ true ∷ true ∷ true ∷ true ∷ [] }
    ensures moves { map (λ p. (rules_of p).moves) all_plans
        ≡ false ∷ false ∷ true ∷ true ∷ true ∷ true ∷ [] }
    ensures young { map (λ p. (rules_of p).young) all_plans
        ≡ false ∷ false ∷ false ∷ true ∷ false ∷ true ∷ [] }
    ensures lines { map (λ p. (rules_of p).lines) all_plans
        ≡ false ∷ false ∷ false ∷ false ∷ true ∷ true ∷ [] }
    ensures fills { map (λ p. (rules_of p).fill) all_plans ≡ kinds.Bump ∷ kinds.Cells
        ∷ kinds.Bump ∷ kinds.Young ∷ kinds.Immix ∷ kinds.Immix ∷ [] }
    ensures copies { map (λ p. (rules_of p).copy) all_plans ≡ kinds.Free ∷ kinds.Free
        ∷ kinds.Bump ∷ kinds.Mature ∷ kinds.Immix ∷ kinds.Immix ∷ [] }
    ensures reserves { map (λ p. (rules_of p).reserve) all_plans ≡ Nothing ∷ Nothing
        ∷ Copies ∷ Copies ∷ Headroom ∷ Headroom ∷ [] }
{}

/// A size's class is the least whose cells have room, up to `MAX_MEDIUM_WORDS`. Each class is that
/// of its cells' size, and one word more has the next class. Only a block of cells has a class.
pub fn size_classes()
    ensures least { (size : ℕ) → size ≤ MAX_MEDIUM_WORDS → (class : ℕ)
        × (class_of size ≡ Some class) × (size ≤ cell_words class)
        × ((d : ℕ) → d < class → cell_words d < size) }
    ensures none { (size : ℕ) → MAX_MEDIUM_WORDS < size → class_of size ≡ None }
    ensures full { map (λ c. class_of (cell_words c)) (range_with_len 0 19)
        ≡ map Some (range_with_len 0 19) }
    ensures next { map (λ c. class_of (cell_words c + 1)) (range_with_len 0 18)
        ≡ map Some (range_with_len 1 18) }
    ensures kinds { map (λ kind. class_for kind 5) all_kinds
        ≡ 0 ∷ 0 ∷ 0 ∷ 0 ∷ 0 ∷ 1 ∷ 0 ∷ 0 ∷ 0 ∷ [] }
    ensures large { class_for kinds.Cells 2049 ≡ 0 }
{}

/// A clear block of the kind that a plan's mutators fill, with the class for a size, has a hole for
/// that size at its start. So has a Free block that becomes such a block. In an empty heap any
/// blocks are a run of Free blocks.
pub fn fresh_blocks_have_holes()
    ensures hole { (p : Plan) (s : HeapState) (k size : ℕ) → HasKind s k (rules_of p).fill
        → class_at s k ≡ class_for (rules_of p).fill size → IsClear s k
        → size ≤ MAX_MEDIUM_WORDS → HasHole (rules_of p).fill s k 0 size }
    ensures taken { (p : Plan) (s : HeapState) (k size : ℕ) → IsLawful s
        → HasKind s k kinds.Free → size ≤ MAX_MEDIUM_WORDS
        → HasHole (rules_of p).fill (with_block s k (unowned (rules_of p).fill
        (class_for (rules_of p).fill size))) k 0 size }
    ensures run { (b k n : ℕ) → k + n ≤ b → IsFreeRun (empty_heap b) k n }
{}

/// Holes by the kinds of blocks. A hole lies within a block of the kind that mutators fill, and no
/// Free, Mature, Kept or large block has one. A block has one tail, and holes of lines that share a
/// line are one. Each part of a hole lies in it, but a cell is taken from its start.
pub fn holes_by_kinds()
    ensures kind { (fill : Kind) (s : HeapState) (k from size : ℕ)
        → LiesInHole fill s k from size → HasKind s k fill }
    ensures none { (fill : Kind) (s : HeapState) (k from size : ℕ)
        → LiesInHole fill s k from size → (HasKind s k kinds.Free → ⊥)
        × (HasKind s k kinds.Mature → ⊥) × (HasKind s k kinds.Kept → ⊥)
        × (HasKind s k kinds.LargeHead → ⊥) × (HasKind s k kinds.LargeTail → ⊥) }
    ensures inside { (fill : Kind) (s : HeapState) (k from size : ℕ)
        → LiesInHole fill s k from size → from + size ≤ BLOCK_WORDS }
    ensures tail { (s : HeapState) (k at from : ℕ) → IsTail s k at → IsTail s k from
        → at ≡ from }
    ensures lines { (s : HeapState) (k line x m y n : ℕ) → IsLineHole s k x m
        → IsLineHole s k y n → x ≤ line → line < x + m → y ≤ line → line < y + n
        → (x ≡ y) × (m ≡ n) }
    ensures parts { (fill : Kind) (s : HeapState) (k at size from n : ℕ) → fill ≢ kinds.Cells
        → HasHole fill s k at size → at ≤ from → from + n ≤ at + size
        → LiesInHole fill s k from n }
    ensures cells { (s : HeapState) (k from size : ℕ)
        → LiesInHole kinds.Cells s k from size ↔ HasHole kinds.Cells s k from size }
    ensures cell { (fill : Kind) (s : HeapState) (k at size : ℕ) → HasHole fill s k at size
        → HasCellFor fill s k at size }
    ensures class { (s : HeapState) (k from size : ℕ) → HasCellFor kinds.Cells s k from size
        → HasKind s k kinds.Cells × (class_of size ≡ Some (class_at s k))
        × (from % cell_words (class_at s k) ≡ 0) }
    ensures no_cells { (fill : Kind) (s : HeapState) (k from size : ℕ) → fill ≢ kinds.Cells
        → HasCellFor fill s k from size }
{}

/// Which sizes fit, under each plan. Up to `MAX_MEDIUM_WORDS` a hole with room or a Free block to
/// grant serves, and nothing else. Above it a run of Free blocks to grant serves, and nothing else.
/// Nothing fits a full heap.
pub fn fits_by_size()
    ensures hole { (r : Rules) (s : HeapState) (k at size : ℕ) → size ≤ MAX_MEDIUM_WORDS
        → HasHole r.fill s k at size → Fits r s size }
    ensures grant { (r : Rules) (s : HeapState) (size : ℕ) → size ≤ MAX_MEDIUM_WORDS
        → MayGrant r.reserve s → Fits r s size }
    ensures run { (r : Rules) (s : HeapState) (k size : ℕ) → MAX_MEDIUM_WORDS < size
        → IsFreeRun s k (blocks_for size) → MayGrantRun r.reserve s (blocks_for size)
        → Fits r s size }
    ensures neither { (r : Rules) (s : HeapState) (size : ℕ) → Fits r s size
        → ((k at : ℕ) → HasHole r.fill s k at size → ⊥) → (MayGrant r.reserve s → ⊥)
        → MAX_MEDIUM_WORDS < size }
    ensures large { (r : Rules) (s : HeapState) (size : ℕ) → MAX_MEDIUM_WORDS < size
        → Fits r s size → MayGrantRun r.reserve s (blocks_for size)
        × ((k : ℕ) × IsFreeRun s k (blocks_for size)) }
    ensures full { (p : Plan) (size : ℕ) → 1 ≤ size → Fits (rules_of p) full_heap size
        → ⊥ }
{}

/// Counts of worked heaps. A large run's head and tails are large, and neither in use nor Free.
/// With 0 to 4 of four blocks in use, each Free block may be granted, half of the blocks less those
/// in use, or all but one of the Free blocks.
pub fn counts_of_worked_heaps()
    ensures mixed { counts_of mixed_heap ≡ counts_with 8 1 2 }
    ensures totals { (total_of mixed_heap ∷ used_of mixed_heap ∷ headroom_of mixed_heap ∷ [])
        ≡ 6 ∷ 5 ∷ 1 ∷ [] }
    ensures used { map (λ n. counts_of (used_heap n)) (range_with_len 0 5) ≡ counts_with 4 4 0
        ∷ counts_with 4 3 0 ∷ counts_with 4 2 0 ∷ counts_with 4 1 0 ∷ counts_with 4 0 0
        ∷ [] }
    ensures full { counts_of full_heap ≡ counts_with 4 0 0 }
    ensures nothing { map (λ n. allowance_of Nothing (used_heap n)) (range_with_len 0 5)
        ≡ 4 ∷ 3 ∷ 2 ∷ 1 ∷ 0 ∷ [] }
    ensures copies { map (λ n. allowance_of Copies (used_heap n)) (range_with_len 0 5)
        ≡ 2 ∷ 1 ∷ 0 ∷ 0 ∷ 0 ∷ [] }
    ensures headroom { map (λ n. allowance_of Headroom (used_heap n)) (range_with_len 0 5)
        ≡ 3 ∷ 2 ∷ 1 ∷ 0 ∷ 0 ∷ [] }
{}

/// Grants on worked heaps: of Free blocks, and of runs. A reserve leaves as many Free blocks as it
/// holds back after the grant, and no fewer. With two of five blocks in use, a copying plan grants
/// a run of one block, but no block for small objects, which would be copied too.
pub fn grants_on_worked_heaps()
    ensures nothing { MayGrant Nothing (used_heap 3) × (MayGrant Nothing (used_heap 4) → ⊥) }
    ensures copies { MayGrant Copies (used_heap 1) × (MayGrant Copies (used_heap 2) → ⊥) }
    ensures headroom { MayGrant Headroom (used_heap 2) × (MayGrant Headroom (used_heap 3)
        → ⊥) }
    ensures run { MayGrantRun Nothing (used_heap 1) 3 × (MayGrantRun Nothing (used_heap 1) 4
        → ⊥) }
    ensures copied { MayGrantRun Copies (used_heap 1) 2 × (MayGrantRun Copies (used_heap 1) 3
        → ⊥) }
    ensures headed { MayGrantRun Headroom (used_heap 1) 2
        × (MayGrantRun Headroom (used_heap 1) 3 → ⊥) }
    ensures mixed { MayGrant Nothing mixed_heap × (MayGrant Copies mixed_heap → ⊥)
        × (MayGrant Headroom mixed_heap → ⊥) }
    ensures odd { MayGrantRun Copies (heap_used 2 3) 1 × (MayGrant Copies (heap_used 2 3)
        → ⊥) }
    ensures holds { (r : Reserve) (c : BlockCounts) → HoldsReserve r c ↔ IsRunGrantable r c 0 }
    ensures after { (r : Reserve) (c : BlockCounts) → c.free + c.large ≤ c.blocks
        → 1 ≤ c.free
        → IsGrantable r c ↔ HoldsReserve r (after_taking c 1) }
{}

/// Runs of Free blocks in worked heaps: each block of a run is Free, up to the heap's end. A run of
/// no blocks does not begin after the end either.
pub fn free_runs_of_worked_heaps()
    ensures end { IsFreeRun (used_heap 1) 1 3 }
    ensures before { IsFreeRun (used_heap 1) 0 4 → ⊥ }
    ensures beyond { IsFreeRun (used_heap 1) 1 4 → ⊥ }
    ensures one { IsFreeRun mixed_heap 6 1 }
    ensures first { IsFreeRun mixed_heap 5 2 → ⊥ }
    ensures last { IsFreeRun mixed_heap 6 2 → ⊥ }
    ensures apart { (k : ℕ) → IsFreeRun split_heap k 2 → ⊥ }
    ensures past { IsFreeRun mixed_heap 8 0 × (IsFreeRun mixed_heap 9 0 → ⊥) }
{}

/// Sizes that fit worked heaps. Half of a heap's blocks serve a copying plan. A large object needs
/// neighbouring Free blocks beside the reserve, one for each 4,096 words.
pub fn fits_of_worked_heaps()
    ensures tail { Fits (rules_of NoGc) (used_heap 4) 2048 }
    ensures other_kind { Fits (rules_of GenCopy) (used_heap 4) 3 → ⊥ }
    ensures granted { Fits (rules_of GenCopy) (used_heap 1) 2048 }
    ensures held_back { Fits (rules_of GenCopy) (used_heap 2) 3 → ⊥ }
    ensures large { Fits (rules_of NoGc) (used_heap 4) 2048
        × (Fits (rules_of NoGc) (used_heap 4) 2049 → ⊥) }
    ensures blocks { Fits (rules_of NoGc) (used_heap 2) 8192
        × (Fits (rules_of NoGc) (used_heap 2) 8193 → ⊥) }
    ensures copied { Fits (rules_of SemiSpace) (used_heap 1) 8192
        × (Fits (rules_of SemiSpace) (used_heap 1) 8193 → ⊥) }
    ensures headed { Fits (rules_of Immix) (used_heap 1) 8192
        × (Fits (rules_of Immix) (used_heap 1) 8193 → ⊥) }
    ensures split { Fits (rules_of NoGc) split_heap 4096
        × (Fits (rules_of NoGc) split_heap 4097 → ⊥) }
{}

/// Holes of a worked heap: the tails after the last objects, the runs of clear lines, and the free
/// cells that lie in the block. A cell with an object in it is no hole.
pub fn holes_of_a_worked_heap()
    ensures bump { HasHole kinds.Bump mixed_heap 0 15 4081 }
    ensures young { HasHole kinds.Young mixed_heap 7 10 4086 }
    ensures tail { (at : ℕ) → IsTail mixed_heap 0 at → at ≡ 15 }
    ensures lines { HasHole kinds.Immix mixed_heap 1 32 128 }
    ensures one_line { HasHole kinds.Immix mixed_heap 1 176 16 }
    ensures last_lines { HasHole kinds.Immix mixed_heap 1 208 2048 }
    ensures more_lines { HasHole kinds.Immix mixed_heap 1 32 129 → ⊥ }
    ensures marked_line { HasHole kinds.Immix mixed_heap 1 160 1 → ⊥ }
    ensures later_line { HasHole kinds.Immix mixed_heap 1 48 1 → ⊥ }
    ensures within_a_line { HasHole kinds.Immix mixed_heap 1 33 1 → ⊥ }
    ensures no_line { (line : ℕ) → IsLineHole mixed_heap 1 line 0 → ⊥ }
    ensures cell { HasHole kinds.Cells mixed_heap 2 2048 1537
        × HasHole kinds.Cells mixed_heap 2 2048 2048 }
    ensures first_cell { HasHole kinds.Cells mixed_heap 3 0 1536 }
    ensures other_class { HasHole kinds.Cells mixed_heap 2 2048 1536 → ⊥ }
    ensures taken_cell { HasHole kinds.Cells mixed_heap 2 0 2048 → ⊥ }
    ensures within_a_cell { HasHole kinds.Cells mixed_heap 3 8 1536 → ⊥ }
    ensures past_the_block { HasHole kinds.Cells mixed_heap 3 3072 1536 → ⊥ }
    ensures any_cell { HasCellFor kinds.Cells mixed_heap 2 0 2048 }
{}
