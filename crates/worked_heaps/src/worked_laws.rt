//! Laws by example, on heaps that are built from blocks and objects.

ghost use Rattle.std.specs.Prelude.{None, Some, nat_eq, if◌then◌else◌, ◌≡◌, ◌^◌, IsTrue, false, true, [], ◌∷◌, map, filter, replicate, ◌++◌};
ghost use Rattle.std.specs.List.{range_with_len, list_any};
ghost use Rattle.heap_layout.specs.Zones.{row_words};
ghost use Rattle.ideal_heap.specs.Names.{name};
ghost use Rattle.ideal_heap.specs.Ideal.{Nil, At, empty, no_fields};
ghost use Rattle.object_model.specs.Objects.{HeapState, empty_heap, global_at, block_word, line_marked, is_start, is_pinned, is_unlogged, name_at, size_at, refs_at, nums_at, number_at, target_at, ref_at, num_at, record_at};
ghost use Rattle.object_model.specs.Ages.{is_old, is_logged, is_survivor, RemembersYoung, ListsLogged};
ghost use Rattle.heap_graph.specs.Places.{IsGraphOf};
ghost use Rattle.object_model.specs.Graphs.{IsMutatorState, AreMutators, Represents, new_mutator};
ghost use Rattle.object_model.specs.Changes.{ClearsUnlog};
ghost use Rattle.object_model.specs.Agreement.{AgreesOn};
ghost use Rattle.object_model.specs.Births.{MarksLinesOfBirth, MakesRun};
ghost use Rattle.object_model.specs.Lawful.{IsLawful};
ghost use Rattle.object_model.specs.WorkedHeaps.{unowned, plain_object};
ghost use Rattle.worked_heaps.specs.WorkedKinds.{kinds_heap, kinds_held, kinds_mutators, kinds_ideal, worked_object, three_free, small_heap, bump_with, two_logged, with_word};
ghost use Rattle.heap_layout.specs.declared.block.Kind.TheVariants as kinds;

/// A built heap reads back as the blocks and objects that it was built from.
pub fn built_heaps_read_back()
    ensures held { filter (is_start kinds_heap) (range_with_len 0 (row_words 6)) ≡ kinds_held }
    ensures pinned { filter (is_pinned kinds_heap) (range_with_len 0 (row_words 6))
        ≡ 1212 ∷ 19632 ∷ [] }
    ensures unlogged { filter (is_unlogged kinds_heap) (range_with_len 0 (row_words 6))
        ≡ 5312 ∷ 9384 ∷ [] }
    ensures names { map (name_at kinds_heap) kinds_held
        ≡ name 1 1 ∷ name 16 1 ∷ name 1 2 ∷ name 1 3 ∷ name 16 2 ∷ [] }
    ensures refs { map (refs_at kinds_heap) kinds_held ≡ 2 ∷ 1 ∷ 2 ∷ 0 ∷ 1 ∷ [] }
    ensures nums { map (nums_at kinds_heap) kinds_held ≡ 1 ∷ 0 ∷ 3 ∷ 4094 ∷ 2044 ∷ [] }
    ensures sizes { map (size_at kinds_heap) kinds_held ≡ 6 ∷ 4 ∷ 8 ∷ 4097 ∷ 2048 ∷ [] }
    ensures numbers { map (number_at kinds_heap) kinds_held ≡ 0 ∷ 3 ∷ 2 ∷ 1 ∷ 2 ∷ [] }
    ensures targets { map (target_at kinds_heap) kinds_held
        ≡ 0 ∷ 5312 ∷ 9384 ∷ 9392 ∷ 19632 ∷ [] }
    ensures records { map (record_at kinds_heap) (1212 ∷ 5312 ∷ 9384 ∷ [])
        ≡ (record { refs = At (name 1 3) ∷ Nil ∷ []; nums = 7 ∷ [] })
        ∷ (record { refs = At (name 16 2) ∷ []; nums = [] })
        ∷ (record { refs = Nil ∷ At (name 16 1) ∷ []; nums = 8 ∷ 9 ∷ 10 ∷ [] }) ∷ [] }
    ensures fields { ref_at kinds_heap 9384 1 ∷ num_at kinds_heap 9384 2
        ∷ num_at kinds_heap 9392 4093 ∷ ref_at kinds_heap 19632 0 ∷ []
        ≡ 5312 ∷ 10 ∷ 11 ∷ 1212 ∷ [] }
    ensures globals { map (global_at kinds_heap) (range_with_len 0 16)
        ≡ 1212 ∷ replicate 14 0 ++ 9392 ∷ [] }
    ensures blocks { map (block_word kinds_heap) (range_with_len 0 6)
        ≡ 4 ∷ 517 ∷ 518 ∷ 7 ∷ 3 ∷ 0 ∷ [] }
    ensures lines { map (λ k. filter (line_marked kinds_heap k) (range_with_len 0 256))
        (range_with_len 0 6)
        ≡ (0 ∷ 1 ∷ []) ∷ [] ∷ [] ∷ [] ∷ [] ∷ [] ∷ [] }
    ensures lines_of_two { filter (line_marked (small_heap (three_free (unowned kinds.Immix 0))
        (plain_object 0 240 1 [] 13 0 ∷ plain_object 0 320 2 [] 14 0 ∷ [])) 0)
        (range_with_len 0 256) ≡ 15 ∷ 20 ∷ 21 ∷ [] }
    ensures plain { let s : HeapState = bump_with (plain_object 0 0 3 (0 ∷ []) 2 1 ∷ []) in
        (name_at s 806 ≡ name 1 3) × (number_at s 806 ≡ 1)
        × (record_at s 806 ≡ record { refs = Nil ∷ []; nums = 0 ∷ 0 ∷ [] })
        × (is_pinned s 806 ≡ false) × (is_unlogged s 806 ≡ false) }
{}

/// Old, logged and surviving objects of a heap whose last full collection is number 2, and of the
/// same heap after other full collections. An index that is no object's address is not logged. That
/// heap remembers its young objects, of which a logged old object and a young one hold some. A heap
/// does not if an old unlogged object's last field refers to a young object, or to no object, nor
/// if the unlog bit of a young object is set. What is no object, since its start bit is clear, may
/// refer to anything and have any bit. An old object whose unlog bit is clear may refer to a young
/// one. No list with a greater address before a lower one lists logged objects, nor one with an
/// address twice.
pub fn worked_ages()
    ensures old { filter (is_old kinds_heap) kinds_held ≡ 5312 ∷ 9384 ∷ 19632 ∷ [] }
    ensures old_from_one { filter (is_old (record kinds_heap { base = 1 })) kinds_held
        ≡ 5312 ∷ 9384 ∷ 9392 ∷ 19632 ∷ [] }
    ensures none_old { filter (is_old (record kinds_heap { base = 0 })) kinds_held ≡ [] }
    ensures logged { filter (is_logged kinds_heap) (range_with_len 0 (row_words 6))
        ≡ 19632 ∷ [] }
    ensures survivors { map (λ base. filter (is_survivor kinds_heap base) kinds_held)
        (range_with_len 0 5)
        ≡ (5312 ∷ 9384 ∷ 9392 ∷ 19632 ∷ []) ∷ (5312 ∷ 9384 ∷ 9392 ∷ 19632 ∷ [])
        ∷ (5312 ∷ 9384 ∷ 19632 ∷ []) ∷ (5312 ∷ []) ∷ [] ∷ [] }
    ensures remembers { RemembersYoung kinds_heap }
    ensures forgets { RemembersYoung (bump_with (plain_object 0 0 1 [] 0 0
        ∷ worked_object 0 10 (name 1 2) (0 ∷ 806 ∷ []) [] 2 false true ∷ [])) → ⊥ }
    ensures dangles { RemembersYoung (bump_with (
        worked_object 0 0 (name 1 1) [] (2 ^ 25 ∷ []) 2 false false
        ∷ worked_object 0 10 (name 1 2) (807 ∷ []) [] 2 false true ∷ [])) → ⊥ }
    ensures unheld { RemembersYoung (with_word (bump_with (plain_object 0 0 1 [] 0 0
        ∷ worked_object 0 10 (name 1 2) (0 ∷ 806 ∷ []) [] 2 false true ∷ [])) 38 0) }
    ensures young_unlogged { RemembersYoung (bump_with (
        worked_object 0 0 (name 1 1) [] [] 1 false true ∷ [])) → ⊥ }
    ensures old_logged { RemembersYoung (bump_with (plain_object 0 0 1 [] 0 0
        ∷ worked_object 0 10 (name 1 2) (0 ∷ 806 ∷ []) [] 2 false false ∷ [])) }
    ensures falling { ListsLogged two_logged (816 ∷ 806 ∷ []) → ⊥ }
    ensures twice { ListsLogged two_logged (806 ∷ 806 ∷ 816 ∷ []) → ⊥ }
{}

/// A heap with objects of two mutators in Immix, Cells and Mature blocks, and in a run of two
/// blocks, is lawful.
pub fn heap_of_five_kinds()
    ensures { IsLawful kinds_heap }
{}

/// Heaps that are not lawful by the words of an object, or of what refers to it.
pub fn unlawful_objects()
    ensures mutator { IsLawful (bump_with
        (worked_object 0 0 (name 17 1) [] [] 0 false false ∷ [])) → ⊥ }
    ensures birth { IsLawful (bump_with (plain_object 0 0 0 [] 0 0 ∷ [])) → ⊥ }
    ensures refs { IsLawful (bump_with (plain_object 0 0 1 (replicate 1025 0) 0 0 ∷ [])) → ⊥ }
    ensures number { IsLawful (bump_with (plain_object 0 0 1 [] 0 4 ∷ [])) → ⊥ }
    ensures over_block { IsLawful (bump_with (plain_object 0 4094 1 [] 0 0 ∷ [])) → ⊥ }
    ensures overlap { IsLawful (bump_with
        (plain_object 0 0 1 [] 1 0 ∷ plain_object 0 3 2 [] 0 0 ∷ [])) → ⊥ }
    ensures same_name { IsLawful (bump_with
        (plain_object 0 0 1 [] 0 0 ∷ plain_object 0 3 1 [] 0 0 ∷ [])) → ⊥ }
    ensures field { IsLawful (bump_with
        (plain_object 0 0 1 (0 ∷ 807 ∷ []) 0 0 ∷ [])) → ⊥ }
    ensures global { IsLawful (with_word (bump_with []) 17 806) → ⊥ }
    ensures pin { IsLawful (with_word (bump_with []) 294 1) → ⊥ }
    ensures unlog { IsLawful (with_word (bump_with []) 550 1) → ⊥ }
    ensures base { IsLawful (record (bump_with []) { base = 4 }) → ⊥ }
{}

/// Heaps that are not lawful by what lies in a block, by a block's word, or by a line bit.
pub fn unlawful_blocks()
    ensures free_block { IsLawful (bump_with (plain_object 1 0 1 [] 0 0 ∷ [])) → ⊥ }
    ensures tail { IsLawful (small_heap
        (unowned kinds.LargeHead 2 ∷ unowned kinds.LargeTail 0 ∷ unowned kinds.Free 0
        ∷ unowned kinds.Free 0 ∷ [])
        (plain_object 0 0 1 [] 4094 0 ∷ plain_object 1 100 2 [] 0 0 ∷ [])) → ⊥ }
    ensures cell_start { IsLawful (small_heap (three_free (unowned kinds.Cells 2))
        (plain_object 0 4 1 [] 0 0 ∷ [])) → ⊥ }
    ensures last_cell { IsLawful (small_heap (three_free (unowned kinds.Cells 5))
        (plain_object 0 4080 1 [] 0 0 ∷ [])) → ⊥ }
    ensures run_class { IsLawful (small_heap
        (unowned kinds.LargeHead 3 ∷ unowned kinds.LargeTail 0 ∷ unowned kinds.LargeTail 0
        ∷ unowned kinds.Free 0 ∷ []) (plain_object 0 0 1 [] 4094 0 ∷ [])) → ⊥ }
    ensures run_start { IsLawful (small_heap (three_free (unowned kinds.LargeHead 1))
        (plain_object 0 16 1 [] 2046 0 ∷ [])) → ⊥ }
    ensures run_end { IsLawful (small_heap
        (unowned kinds.Free 0 ∷ unowned kinds.Free 0 ∷ unowned kinds.Free 0
        ∷ unowned kinds.LargeHead 2 ∷ []) (plain_object 3 0 1 [] 4094 0 ∷ [])) → ⊥ }
    ensures no_object { IsLawful (small_heap (three_free (unowned kinds.LargeHead 1)) []) → ⊥ }
    ensures medium_run { IsLawful (small_heap (three_free (unowned kinds.LargeHead 1))
        (plain_object 0 0 1 [] 2045 0 ∷ [])) → ⊥ }
    ensures lone_tail { IsLawful (small_heap
        (unowned kinds.LargeHead 1 ∷ unowned kinds.LargeTail 0 ∷ unowned kinds.Free 0
        ∷ unowned kinds.Free 0 ∷ []) (plain_object 0 0 1 [] 2046 0 ∷ [])) → ⊥ }
    ensures class { IsLawful (small_heap (three_free (unowned kinds.Bump 1)) []) → ⊥ }
    ensures owner { IsLawful (with_word (bump_with []) 21 65537) → ⊥ }
    ensures free_line { IsLawful (with_word (bump_with []) 29 (2 ^ 63)) → ⊥ }
    ensures marked_line { IsLawful (with_word
        (small_heap (three_free (unowned kinds.Immix 0)) []) 25 (2 ^ 63)) → ⊥ }
    ensures unmarked_line { IsLawful (with_word (small_heap (three_free (unowned kinds.Immix 0))
        (plain_object 0 4093 1 [] 0 0 ∷ [])) 25 0) → ⊥ }
{}

/// The heap of five kinds and mutators 1 and 16 represent an ideal heap. They represent none that
/// differs from it in a register, a global, a count of births, a record or a pin. No mutator has
/// number 0 or 17 or fifteen registers, and no two have the same number.
pub fn kinds_heap_represents()
    ensures represents { Represents kinds_heap kinds_mutators kinds_ideal }
    ensures numbers { IsMutatorState (new_mutator 1) × IsMutatorState (new_mutator 16) }
    ensures number_0 { IsMutatorState (new_mutator 0) → ⊥ }
    ensures number_17 { IsMutatorState (new_mutator 17) → ⊥ }
    ensures fifteen { IsMutatorState (record (new_mutator 1) { registers = replicate 15 0 })
        → ⊥ }
    ensures twice { AreMutators (new_mutator 3 ∷ new_mutator 3 ∷ []) → ⊥ }
    ensures register { Represents kinds_heap kinds_mutators
        (record kinds_ideal { registers = λ m d. None }) → ⊥ }
    ensures name { Represents kinds_heap kinds_mutators
        (record kinds_ideal { registers = λ m d. Some (name 1 1) }) → ⊥ }
    ensures register_16 { Represents kinds_heap kinds_mutators (record kinds_ideal
        { registers = λ m d. if nat_eq d 16 then Some (name 1 2) else kinds_ideal.registers m d })
        → ⊥ }
    ensures global { Represents kinds_heap kinds_mutators
        (record kinds_ideal { globals = λ g. None }) → ⊥ }
    ensures births { Represents kinds_heap kinds_mutators
        (record kinds_ideal { births = λ m. 3 }) → ⊥ }
    ensures records { Represents kinds_heap kinds_mutators
        (record kinds_ideal { records = λ n. None }) → ⊥ }
    ensures pins { Represents kinds_heap kinds_mutators
        (record kinds_ideal { pinned = λ n. false }) → ⊥ }
{}

/// Lists that are no graph of the heap of five kinds without roots, whose globals refer to the
/// objects at 1212 and 9392: an object has another size or name, a later one has no later name, one
/// is missing, or one is there that nothing refers to.
pub fn wrong_graphs()
    ensures size { IsGraphOf kinds_heap [] ((record { name = name 1 1; at = 1212; size = 7 })
        ∷ (record { name = name 1 3; at = 9392; size = 4097 }) ∷ []) → ⊥ }
    ensures name { IsGraphOf kinds_heap [] ((record { name = name 1 2; at = 1212; size = 6 })
        ∷ (record { name = name 1 3; at = 9392; size = 4097 }) ∷ []) → ⊥ }
    ensures order { IsGraphOf kinds_heap [] ((record { name = name 1 3; at = 9392; size = 4097 })
        ∷ (record { name = name 1 1; at = 1212; size = 6 }) ∷ []) → ⊥ }
    ensures twice { IsGraphOf kinds_heap [] ((record { name = name 1 1; at = 1212; size = 6 })
        ∷ (record { name = name 1 1; at = 1212; size = 6 })
        ∷ (record { name = name 1 3; at = 9392; size = 4097 }) ∷ []) → ⊥ }
    ensures missing { IsGraphOf kinds_heap [] [] → ⊥ }
    ensures extra { IsGraphOf kinds_heap [] ((record { name = name 1 1; at = 1212; size = 6 })
        ∷ (record { name = name 1 2; at = 9384; size = 8 })
        ∷ (record { name = name 1 3; at = 9392; size = 4097 }) ∷ []) → ⊥ }
{}

/// No heap agrees with an ideal heap on a set with an address that no object has, or without the
/// address in a register, a global or a field of the set.
pub fn heaps_disagree_on_sets()
    ensures closed { AgreesOn kinds_heap kinds_mutators kinds_ideal (λ a. IsTrue
        (list_any (nat_eq a) (1212 ∷ 9384 ∷ 9392 ∷ 19632 ∷ []))) → ⊥ }
    ensures registers { AgreesOn kinds_heap kinds_mutators kinds_ideal (λ a. IsTrue
        (list_any (nat_eq a) (1212 ∷ 5312 ∷ 9392 ∷ 19632 ∷ []))) → ⊥ }
    ensures globals { AgreesOn kinds_heap [] kinds_ideal (λ a. ⊥) → ⊥ }
    ensures held { AgreesOn (empty_heap 4) [] (record empty { records = λ n. Some no_fields })
        (λ a. a ≡ 0) → ⊥ }
{}

/// Changes whose result is there already leave the heap of five kinds as it is: marked lines, a
/// large run, and a clear unlog bit.
pub fn changes_of_nothing()
    ensures lines { MarksLinesOfBirth kinds_heap kinds_heap 1212 6 }
    ensures run { MakesRun kinds_heap kinds_heap 2 2 }
    ensures log { ClearsUnlog kinds_heap kinds_heap 9392 }
{}
