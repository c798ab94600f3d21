//! Laws of collections: worked heaps, and what a collection makes of them.

ghost use Rattle.std.specs.Prelude.{ℕ, ◌≡◌, ◌<◌, IsTrue, List, [], ◌∷◌, ◌++◌, map, filter, replicate, true, false};
ghost use Rattle.std.specs.List.{range_with_len};
ghost use Rattle.sessions.specs.Prelude.{BLOCK_LINES, Full, Nursery, with_block, HeapState, plain_object, unowned, NoGc, MarkSweep, SemiSpace, GenCopy, Immix, StickyImmix, rules_of, all_plans, IsLineHole, first_collection, young_blocks, holes_in, marked_in, is_hole_start, is_recyclable, is_candidate, is_evacuated, may_move, still_free, IsEmptied, IsCollection, aged_heap, two_young, large_heap, lined_heap, fragmented_heap, evacuated_kinds, movable_heap, heap_before, heap_left, roots_before, roots_moved, unlogged_after, left_in_place, moved_out, first_one, second_one, pinned_one, lonely_one, old_one, remembered_ones, four_kinds, cells_left, run_heap};
ghost use Rattle.sessions.specs.Prelude.kinds;

/// A nursery collection is tried first if the plan has young objects, a full collection was made,
/// some object is young, and at least a quarter of the blocks in use have young objects: one of
/// four is enough, one of five is not, two of eight are, and two of nine are not. So is one of four
/// Immix blocks. A young large object is a young object, but its block is not counted.
pub fn first_collections_have_bounds()
    ensures plans { map (λ p. first_collection (rules_of p) (aged_heap (kinds.Young
        ∷ kinds.Mature
        ∷ kinds.Mature ∷ kinds.Mature ∷ kinds.Free ∷ kinds.Free ∷ []) 1 2)) all_plans
        ≡ Full ∷ Full ∷ Full ∷ Nursery ∷ Full ∷ Nursery ∷ [] }
    ensures full_made { first_collection (rules_of GenCopy) (aged_heap (kinds.Young ∷ kinds.Mature
        ∷ kinds.Mature ∷ kinds.Mature ∷ kinds.Free ∷ kinds.Free ∷ []) 1 0) ≡ Full }
    ensures less { first_collection (rules_of GenCopy) (aged_heap (kinds.Young ∷ kinds.Mature
        ∷ kinds.Mature ∷ kinds.Mature ∷ kinds.Mature ∷ kinds.Free ∷ []) 1 2) ≡ Full }
    ensures lines { first_collection (rules_of StickyImmix) (aged_heap (kinds.Immix ∷ kinds.Immix
        ∷ kinds.Immix ∷ kinds.Immix ∷ kinds.Free ∷ kinds.Free ∷ []) 1 2) ≡ Nursery }
    ensures two { map (λ blocks. first_collection (rules_of GenCopy) (two_young blocks))
        (8 ∷ 9 ∷ []) ≡ Nursery ∷ Full ∷ [] }
    ensures counted { map (λ number. young_blocks (rules_of GenCopy) (aged_heap (kinds.Young
        ∷ kinds.Mature ∷ kinds.Free ∷ kinds.Free ∷ []) number 2)) (0 ∷ 1 ∷ 2 ∷ 3
        ∷ [])
        ≡ 1 ∷ 1 ∷ 0 ∷ 0 ∷ [] }
    ensures large { map (λ number. first_collection (rules_of GenCopy) (large_heap (kinds.LargeHead
        ∷ kinds.Free ∷ kinds.Free ∷ kinds.Free ∷ []) number [])) (1 ∷ 2 ∷ [])
        ≡ Nursery ∷ Full ∷ [] }
    ensures not_counted { first_collection (rules_of GenCopy) (large_heap (kinds.LargeHead
        ∷ kinds.Mature ∷ kinds.Free ∷ kinds.Free ∷ []) 1 (plain_object 1 0 2 [] 0 2 ∷ []))
        ≡ Full }
{}

/// A hole is counted at its first line, at line 0 too. A recyclable block is an Immix block with a
/// marked line and a clear one.
pub fn holes_and_lines_are_counted()
    ensures holes { map (holes_in lined_heap) (range_with_len 0 6)
        ≡ 1 ∷ 3 ∷ 0 ∷ 1 ∷ 1 ∷ 1 ∷ [] }
    ensures marked { map (marked_in lined_heap) (range_with_len 0 6)
        ≡ 0 ∷ 2 ∷ 256 ∷ 255 ∷ 255 ∷ 0 ∷ [] }
    ensures starts { filter (is_hole_start lined_heap 1) (range_with_len 0 256)
        ≡ 0 ∷ 2 ∷ 4 ∷ [] }
    ensures recyclable { filter (is_recyclable lined_heap) (range_with_len 0 6)
        ≡ 1 ∷ 3 ∷ 4 ∷ [] }
    ensures kind { is_recyclable (with_block lined_heap 1 (unowned kinds.Bump 0)) 1 ≡ false }
{}

/// A hole of lines begins where `is_hole_start` says so, and nowhere else.
pub fn hole_starts_begin_holes()
    ensures hole { (s : HeapState) (k line : ℕ) → line < BLOCK_LINES
        → IsTrue (is_hole_start s k line) → (n : ℕ) × IsLineHole s k line n }
    ensures start { (s : HeapState) (k line n : ℕ) → IsLineHole s k line n
        → IsTrue (is_hole_start s k line) }
{}

/// Recyclable blocks are candidates as long as the Free blocks have as many lines as they and those
/// before them have marked ones. A block with more holes is before one with fewer, and of two with
/// as many the lower one. A full collection evacuates them, and no other recyclable block.
pub fn candidates_fit_the_free_blocks()
    ensures exact { filter (is_candidate (fragmented_heap [] kinds.Immix)) (range_with_len 0 6)
        ≡ 0 ∷ 1 ∷ [] }
    ensures one_more { filter (is_candidate (fragmented_heap (plain_object 0 2064 8 [] 0 0 ∷ [])
        kinds.Immix)) (range_with_len 0 6) ≡ 1 ∷ [] }
    ensures room { filter (is_candidate (fragmented_heap (plain_object 0 2064 8 [] 0 0 ∷ [])
        kinds.Free)) (range_with_len 0 6) ≡ 0 ∷ 1 ∷ 2 ∷ [] }
    ensures evacuated { filter (is_evacuated (rules_of Immix) Full (fragmented_heap [] kinds.Immix))
        (range_with_len 0 6) ≡ 0 ∷ 1 ∷ [] }
{}

/// Which blocks, one of each kind, a collection of each plan evacuates.
pub fn plans_evacuate_kinds()
    ensures full { map (evacuated_kinds Full) all_plans
        ≡ [] ∷ [] ∷ (1 ∷ 8 ∷ []) ∷ (2 ∷ 3 ∷ 8 ∷ []) ∷ (4 ∷ []) ∷ (4 ∷ [])
        ∷ [] }
    ensures nursery { map (evacuated_kinds Nursery) all_plans
        ≡ [] ∷ [] ∷ [] ∷ (2 ∷ []) ∷ [] ∷ [] ∷ [] }
{}

/// A small or medium object that is not pinned may move out of a block to evacuate, if the plan
/// moves objects. A pinned one, one of 2,049 words and one in another block may not.
pub fn movable_objects()
    ensures moved { map (may_move (rules_of SemiSpace) Full movable_heap)
        (1003 ∷ 1006 ∷ 5099 ∷ 9195 ∷ 13291 ∷ [])
        ≡ true ∷ false ∷ true ∷ false ∷ false ∷ [] }
    ensures unmoved { map (may_move (record (rules_of SemiSpace) { moves = false }) Full
        movable_heap) (1003 ∷ 1006 ∷ 5099 ∷ 9195 ∷ 13291 ∷ [])
        ≡ replicate 5 false }
{}

/// Full collections of one heap, under each plan. The reachable objects are preserved, and no
/// others. They stay in place, or move to a block that was Free, but for the pinned one. Under a
/// copying plan its block is Kept, and an Immix block stays one. Block 1 is left without objects,
/// and becomes Free.
pub fn full_collections()
    ensures nogc { IsCollection (rules_of NoGc) 1 Full (heap_before kinds.Bump kinds.Bump 0)
        roots_before (record (heap_before kinds.Bump kinds.Bump 0) { number = 4 }) roots_before }
    ensures mark_sweep { IsCollection (rules_of MarkSweep) 1 Full
        (heap_before kinds.Cells kinds.Cells 1) roots_before
        (heap_left cells_left left_in_place 818 4) roots_before }
    ensures semi_space { IsCollection (rules_of SemiSpace) 1 Full
        (heap_before kinds.Bump kinds.Bump 0) roots_before
        (heap_left (four_kinds kinds.Kept kinds.Free kinds.Bump kinds.Free) moved_out 9004 4)
        roots_moved }
    ensures gen_copy { IsCollection (rules_of GenCopy) 1 Full
        (heap_before kinds.Young kinds.Mature 0) roots_before
        (heap_left (four_kinds kinds.Kept kinds.Free kinds.Mature kinds.Free) moved_out 9004 4)
        roots_moved }
    ensures immix { IsCollection (rules_of Immix) 1 Full
        (heap_before kinds.Immix kinds.Immix 0) roots_before
        (heap_left (four_kinds kinds.Immix kinds.Free kinds.Immix kinds.Free) moved_out 9004 4)
        roots_moved }
    ensures sticky_immix { IsCollection (rules_of StickyImmix) 1 Full
        (heap_before kinds.Immix kinds.Immix 0) roots_before
        (heap_left (four_kinds kinds.Immix kinds.Free kinds.Immix kinds.Free) moved_out 9004 4)
        roots_moved }
{}

/// Nursery collections of the same heap. They preserve the old object too, which nothing refers to,
/// and the young object that it refers to. Under `gencopy` the young ones move, under `stickyimmix`
/// none does.
pub fn nursery_collections()
    ensures gen_copy { IsCollection (rules_of GenCopy) 1 Nursery
        (heap_before kinds.Young kinds.Mature 0) roots_before
        (heap_left (four_kinds kinds.Kept kinds.Mature kinds.Mature kinds.Free)
        (moved_out ++ remembered_ones 2 12 9010) 9004 2) roots_moved }
    ensures sticky_immix { IsCollection (rules_of StickyImmix) 1 Nursery
        (heap_before kinds.Immix kinds.Immix 0) roots_before
        (heap_left (four_kinds kinds.Immix kinds.Immix kinds.Free kinds.Free)
        (left_in_place ++ remembered_ones 0 24 830) 818 2) roots_before }
{}

/// Movable objects may stay in place if at most one block per worker was Free and still is: with
/// two such blocks, for two workers and not for one. So it is in a nursery collection with young
/// objects. An old one may always stay there.
pub fn objects_left_in_place()
    ensures two_workers { IsCollection (rules_of SemiSpace) 2 Full
        (heap_before kinds.Bump kinds.Bump 0) roots_before
        (heap_left (four_kinds kinds.Kept kinds.Free kinds.Free kinds.Free) left_in_place 818 4)
        roots_before }
    ensures one_worker { IsCollection (rules_of SemiSpace) 1 Full
        (heap_before kinds.Bump kinds.Bump 0) roots_before
        (heap_left (four_kinds kinds.Kept kinds.Free kinds.Free kinds.Free) left_in_place 818 4)
        roots_before → ⊥ }
    ensures nursery { IsCollection (rules_of GenCopy) 1 Nursery
        (heap_before kinds.Young kinds.Mature 0) roots_before
        (heap_left (four_kinds kinds.Kept kinds.Mature kinds.Free kinds.Free)
        (left_in_place ++ remembered_ones 0 24 830) 818 2) roots_before → ⊥ }
    ensures old { IsCollection (rules_of GenCopy) 0 Nursery
        (heap_before kinds.Young kinds.Young 0) roots_before
        (heap_left (four_kinds kinds.Kept kinds.Kept kinds.Mature kinds.Free)
        (moved_out ++ remembered_ones 2 12 9010) 9004 2) roots_moved }
    ensures full { IsCollection (rules_of GenCopy) 0 Full
        (heap_before kinds.Young kinds.Mature 0) (0 ∷ 4902 ∷ [])
        (heap_left (four_kinds kinds.Kept kinds.Kept kinds.Mature kinds.Free)
        (moved_out ++ plain_object 2 12 5 [] 3 4 ∷ plain_object 1 0 6 (9010 ∷ 0 ∷ []) 1 4
        ∷ [])
        9004 4) (0 ∷ 4902 ∷ []) → ⊥ }
    ensures free { still_free (heap_before kinds.Bump kinds.Bump 0)
        (heap_left (four_kinds kinds.Kept kinds.Free kinds.Bump kinds.Free) left_in_place 818 4)
        ≡ 1 }
{}

/// A full collection keeps no dead object and loses no reachable one. It moves no pinned object,
/// and leaves no field and no root with the address of an object that moved.
pub fn wrong_objects()
    ensures dead_kept { IsCollection (rules_of MarkSweep) 1 Full
        (heap_before kinds.Cells kinds.Cells 1) roots_before
        (heap_left cells_left (left_in_place ++ lonely_one ∷ []) 818 4) roots_before → ⊥ }
    ensures live_lost { IsCollection (rules_of MarkSweep) 1 Full
        (heap_before kinds.Cells kinds.Cells 1) roots_before
        (heap_left cells_left (first_one 0 (812 ∷ 818 ∷ []) 4 ∷ pinned_one ∷ []) 818 4)
        roots_before → ⊥ }
    ensures pinned_moved { IsCollection (rules_of SemiSpace) 1 Full
        (heap_before kinds.Bump kinds.Bump 0) roots_before
        (heap_left (four_kinds kinds.Free kinds.Free kinds.Bump kinds.Free)
        (first_one 2 (9010 ∷ 9004 ∷ []) 4 ∷ record pinned_one { block = 2; offset = 12 }
        ∷ second_one 2 6 8998 ∷ []) 9004 4) roots_moved → ⊥ }
    ensures field_left { IsCollection (rules_of SemiSpace) 1 Full
        (heap_before kinds.Bump kinds.Bump 0) roots_before
        (heap_left (four_kinds kinds.Kept kinds.Free kinds.Bump kinds.Free)
        (first_one 2 (812 ∷ 818 ∷ []) 4 ∷ pinned_one ∷ second_one 2 6 8998 ∷ []) 9004 4)
        roots_moved → ⊥ }
    ensures root_left { IsCollection (rules_of SemiSpace) 1 Full
        (heap_before kinds.Bump kinds.Bump 0) roots_before
        (heap_left (four_kinds kinds.Kept kinds.Free kinds.Bump kinds.Free) moved_out 9004 4)
        roots_before → ⊥ }
{}

/// After a collection a block without objects is Free. A block that was Free and has objects has
/// the kind that workers fill, an evacuated one with objects is Kept, but for an Immix block, and
/// any other with objects keeps its word.
pub fn wrong_blocks()
    ensures emptied { IsCollection (rules_of SemiSpace) 1 Full
        (heap_before kinds.Bump kinds.Bump 0) roots_before
        (heap_left (four_kinds kinds.Kept kinds.Bump kinds.Bump kinds.Free) moved_out 9004 4)
        roots_moved → ⊥ }
    ensures taken { IsCollection (rules_of GenCopy) 1 Full
        (heap_before kinds.Young kinds.Mature 0) roots_before
        (heap_left (four_kinds kinds.Kept kinds.Free kinds.Young kinds.Free) moved_out 9004 4)
        roots_moved → ⊥ }
    ensures kept { IsCollection (rules_of SemiSpace) 1 Full
        (heap_before kinds.Bump kinds.Bump 0) roots_before
        (heap_left (four_kinds kinds.Bump kinds.Free kinds.Bump kinds.Free) moved_out 9004 4)
        roots_moved → ⊥ }
    ensures lines { IsCollection (rules_of Immix) 1 Full
        (heap_before kinds.Immix kinds.Immix 0) roots_before
        (heap_left (four_kinds kinds.Kept kinds.Free kinds.Immix kinds.Free) moved_out 9004 4)
        roots_moved → ⊥ }
    ensures others { IsCollection (rules_of MarkSweep) 1 Full
        (heap_before kinds.Cells kinds.Cells 1) roots_before
        (heap_left (four_kinds kinds.Cells kinds.Free kinds.Free kinds.Free) left_in_place 818 4)
        roots_before → ⊥ }
    ensures crossed { IsEmptied (run_heap 4097) 1 → ⊥ }
    ensures not_crossed { IsEmptied (run_heap 4096) 1 }
{}

/// Under a plan with young objects a collection leaves no object young and none logged. Under every
/// plan that reclaims it leaves no unlog bit of an object clear, and a full one no older number.
pub fn wrong_ages()
    ensures young { IsCollection (rules_of GenCopy) 1 Full
        (heap_before kinds.Young kinds.Mature 0) roots_before
        (heap_left (four_kinds kinds.Kept kinds.Free kinds.Mature kinds.Free)
        (first_one 2 (812 ∷ 9004 ∷ []) 3 ∷ pinned_one ∷ second_one 2 6 8998 ∷ []) 9004 4)
        roots_moved → ⊥ }
    ensures logged { IsCollection (rules_of GenCopy) 1 Full
        (heap_before kinds.Young kinds.Mature 0) roots_before
        (unlogged_after false (four_kinds kinds.Kept kinds.Free kinds.Mature kinds.Free) moved_out
        9004 4) roots_moved → ⊥ }
    ensures unlogged { IsCollection (rules_of SemiSpace) 1 Full
        (heap_before kinds.Bump kinds.Bump 0) roots_before
        (unlogged_after false (four_kinds kinds.Kept kinds.Free kinds.Bump kinds.Free) moved_out
        9004 4) roots_moved → ⊥ }
    ensures number { IsCollection (rules_of SemiSpace) 1 Full
        (heap_before kinds.Bump kinds.Bump 0) roots_before
        (heap_left (four_kinds kinds.Kept kinds.Free kinds.Bump kinds.Free)
        (first_one 2 (812 ∷ 9004 ∷ []) 3 ∷ pinned_one ∷ second_one 2 6 8998 ∷ []) 9004 4)
        roots_moved → ⊥ }
{}

/// A nursery collection loses no old object and none that an old one refers to, and keeps no young
/// one that nothing else refers to. It leaves an old object the number that it had, and a young one
/// its own.
pub fn wrong_nurseries()
    ensures old_lost { IsCollection (rules_of StickyImmix) 1 Nursery
        (heap_before kinds.Immix kinds.Immix 0) roots_before
        (heap_left (four_kinds kinds.Immix kinds.Free kinds.Free kinds.Free) left_in_place 818 2)
        roots_before → ⊥ }
    ensures remembered_lost { IsCollection (rules_of StickyImmix) 1 Nursery
        (heap_before kinds.Immix kinds.Immix 0) roots_before
        (heap_left (four_kinds kinds.Immix kinds.Immix kinds.Free kinds.Free)
        (left_in_place ++ old_one 830 ∷ []) 818 2) roots_before → ⊥ }
    ensures young_kept { IsCollection (rules_of StickyImmix) 1 Nursery
        (heap_before kinds.Immix kinds.Immix 0) roots_before
        (heap_left (four_kinds kinds.Immix kinds.Immix kinds.Free kinds.Free)
        (left_in_place ++ lonely_one ∷ remembered_ones 0 24 830) 818 2) roots_before → ⊥ }
    ensures old_claimed { IsCollection (rules_of StickyImmix) 1 Nursery
        (heap_before kinds.Immix kinds.Immix 0) roots_before
        (heap_left (four_kinds kinds.Immix kinds.Immix kinds.Free kinds.Free)
        (left_in_place ++ plain_object 0 24 5 [] 3 4 ∷ record (old_one 830) { number = 4 } ∷ [])
        818 2) roots_before → ⊥ }
    ensures young_unclaimed { IsCollection (rules_of StickyImmix) 1 Nursery
        (heap_before kinds.Immix kinds.Immix 0) roots_before
        (heap_left (four_kinds kinds.Immix kinds.Immix kinds.Free kinds.Free)
        (first_one 0 (812 ∷ 818 ∷ []) 3 ∷ pinned_one ∷ second_one 0 12 806
        ∷ remembered_ones 0 24 830) 818 2) roots_before → ⊥ }
{}
