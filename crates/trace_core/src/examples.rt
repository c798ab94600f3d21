//! Worked tracings: the machine, step by step, on small heaps.

ghost use Rattle.std.specs.Prelude.{◌≡◌, ℕ, ◌+◌, ◌*◌, ◌^◌, true, false, List, [], ◌∷◌, map, replicate};
ghost use Rattle.heap_layout.specs.declared.block.Kind.TheVariants as kinds;
ghost use Rattle.object_model.specs.Objects.{word_at};
ghost use Rattle.trace_core.specs.Setups.{Setup, TraceMayBegin, stays_old, was_logged, keeps_its_words, may_be_moved};
ghost use Rattle.trace_core.specs.Machine.{Unclaimed, Scanning, Claim, Copy, TakeBlock, ByGlobal, first_stage};
ghost use Rattle.trace_core.specs.Outcomes.{image, HaveAsked, NoOthersAsked};
ghost use Rattle.trace_core.specs.Traces.{IsTracing, IsFinished, machine_after, heap_after, stage_of};
ghost use Rattle.trace_core.specs.WorkedTraces.{cycle_setup, cycle_events, nursery_setup, nursery_events, shared_setup, worked_share_events, full_setup, full_events};

/// Two objects that refer to each other move to block 1, and the global follows. Their old words
/// have the collector word alone changed.
pub fn cycle_moves()
    ensures trace { IsTracing cycle_setup cycle_events }
    ensures finished { IsFinished cycle_setup (machine_after cycle_setup cycle_events) }
    ensures roots { HaveAsked (806 ∷ 0 ∷ [])
        (machine_after cycle_setup cycle_events).asked }
    ensures alone { NoOthersAsked (806 ∷ 0 ∷ [])
        (machine_after cycle_setup cycle_events).asked }
    ensures targets { map (image (stage_of cycle_setup cycle_events))
        (0 ∷ 806 ∷ 810 ∷ 814 ∷ []) ≡ 0 ∷ 4902 ∷ 4906 ∷ 0 ∷ [] }
    ensures stages { map (stage_of cycle_setup cycle_events) (806 ∷ 810 ∷ [])
        ≡ Scanning 4902 1 ∷ Scanning 4906 1 ∷ [] }
    ensures first { map (word_at (heap_after cycle_setup cycle_events))
        (4902 ∷ 4903 ∷ 4904 ∷ 4905 ∷ [])
        ≡ 33 ∷ 1 ∷ (2 ^ 24 + 4902) ∷ 4906 ∷ [] }
    ensures second { map (word_at (heap_after cycle_setup cycle_events))
        (4906 ∷ 4907 ∷ 4908 ∷ 4909 ∷ 4910 ∷ [])
        ≡ 65 ∷ 65537 ∷ (2 ^ 24 + 4906) ∷ 4902 ∷ 0 ∷ [] }
    ensures left { map (word_at (heap_after cycle_setup cycle_events))
        (806 ∷ 807 ∷ 808 ∷ 809 ∷ 810 ∷ 811 ∷ 812 ∷ 813 ∷ 814 ∷ [])
        ≡ 33 ∷ 1 ∷ (2 ^ 24 + 4902) ∷ 810 ∷ 65 ∷ 65537 ∷ (2 ^ 24 + 4906) ∷ 806
        ∷ 0 ∷ [] }
    ensures asked { map (machine_after cycle_setup cycle_events).asked (806 ∷ 810 ∷ [])
        ≡ 1 ∷ 0 ∷ [] }
    // global 0, the words of blocks 0 and 1, line bits of block 1, start bits, unlog bits
    ensures sides { map (word_at (heap_after cycle_setup cycle_events))
        (2 ∷ 18 ∷ 19 ∷ 26 ∷ 38 ∷ 102 ∷ 550 ∷ 614 ∷ [])
        ≡ 4902 ∷ 1 ∷ (1 + 65536 * 17) ∷ 1 ∷ 17 ∷ 17 ∷ 0 ∷ 17 ∷ [] }
{}

/// The words of an object are copied in order, but for the collector word.
pub fn collector_word_is_copied_last()
    ensures { map (word_at (heap_after cycle_setup (TakeBlock 1 1
        ∷ Claim 806 4902 (ByGlobal 0) ∷ replicate 3 (Copy 806))))
        (4902 ∷ 4903 ∷ 4904 ∷ 4905 ∷ []) ≡ 33 ∷ 1 ∷ 0 ∷ 810 ∷ [] }
{}

/// A pinned object stays in the block that is evacuated. The object that it and another one refer
/// to moves once, and both fields follow.
pub fn shared_object_moves_once()
    ensures trace { IsTracing shared_setup worked_share_events }
    ensures finished { IsFinished shared_setup (machine_after shared_setup worked_share_events) }
    ensures stages { map (stage_of shared_setup worked_share_events) (806 ∷ 810 ∷ 814 ∷ [])
        ≡ Scanning 806 1 ∷ Scanning 4902 1 ∷ Scanning 4906 0 ∷ [] }
    // the fields of the first two objects, the globals, the unlog bits
    ensures words { map (word_at (heap_after shared_setup worked_share_events))
        (809 ∷ 4905 ∷ 2 ∷ 3 ∷ 550 ∷ 614 ∷ [])
        ≡ 4906 ∷ 4906 ∷ 806 ∷ 4902 ∷ 1 ∷ 17 ∷ [] }
    ensures moves { map (may_be_moved shared_setup) (806 ∷ 810 ∷ 814 ∷ [])
        ≡ false ∷ true ∷ true ∷ [] }
{}

/// When the last Free block is taken, an object that may move is claimed where it is.
pub fn object_stays_in_a_full_heap()
    ensures trace { IsTracing full_setup full_events }
    ensures finished { IsFinished full_setup (machine_after full_setup full_events) }
    ensures asked { (machine_after full_setup full_events).asked 806 ≡ 1 }
    ensures moves { may_be_moved full_setup 806 ≡ true }
    ensures stage { stage_of full_setup full_events 806 ≡ Scanning 806 0 }
    ensures words { map (word_at (heap_after full_setup full_events)) (2 ∷ 808 ∷ 550 ∷ [])
        ≡ 806 ∷ (2 ^ 24 + 806) ∷ 1 ∷ [] }
{}

/// In a nursery collection old objects begin in place: the fields of a logged one are to be
/// scanned, and those of another count as scanned. The young object moves, and the field follows.
pub fn nursery_moves_young_objects()
    ensures trace { IsTracing nursery_setup nursery_events }
    ensures finished { IsFinished nursery_setup (machine_after nursery_setup nursery_events) }
    ensures old { map (stays_old nursery_setup) (806 ∷ 810 ∷ 814 ∷ [])
        ≡ true ∷ true ∷ false ∷ [] }
    ensures logged { map (was_logged nursery_setup) (806 ∷ 810 ∷ 814 ∷ [])
        ≡ false ∷ true ∷ false ∷ [] }
    ensures first { map (first_stage nursery_setup) (806 ∷ 810 ∷ 814 ∷ [])
        ≡ Scanning 806 1 ∷ Scanning 810 0 ∷ Unclaimed ∷ [] }
    ensures stages { map (stage_of nursery_setup nursery_events) (806 ∷ 810 ∷ 814 ∷ [])
        ≡ Scanning 806 1 ∷ Scanning 810 1 ∷ Scanning 4902 0 ∷ [] }
    // the collector words, the field, the word of block 1, the unlog bits
    ensures words { map (word_at (heap_after nursery_setup nursery_events))
        (808 ∷ 812 ∷ 816 ∷ 4904 ∷ 813 ∷ 19 ∷ 550 ∷ 614 ∷ [])
        ≡ (2 ^ 24 + 806) ∷ (2 ^ 24 + 810) ∷ (2 * 2 ^ 24 + 4902) ∷ (2 * 2 ^ 24 + 4902)
        ∷ 4902 ∷ (3 + 65536 * 18) ∷ 17 ∷ 1 ∷ [] }
{}

/// A tracing of the cycle may begin. It may not with no worker or more than 16, with cells or a
/// block kept in place to copy into, with objects that leave a block where none are copied, or as a
/// nursery collection before a full one. That of a nursery may not begin as a full collection while
/// unlog bits are set, nor with an old object that refers to a young one and was not logged.
pub fn setups_are_refused()
    ensures ready { TraceMayBegin cycle_setup }
    ensures none { TraceMayBegin (record cycle_setup { workers = 0 }) → ⊥ }
    ensures many { TraceMayBegin (record cycle_setup { workers = 17 }) → ⊥ }
    ensures cells { TraceMayBegin (record cycle_setup { copy = kinds.Cells }) → ⊥ }
    ensures kept { TraceMayBegin (record cycle_setup { copy = kinds.Kept }) → ⊥ }
    ensures fixed { TraceMayBegin (record cycle_setup { copy = kinds.Free }) → ⊥ }
    ensures base { TraceMayBegin (record cycle_setup { nursery = true }) → ⊥ }
    ensures marked { TraceMayBegin (record nursery_setup { nursery = false }) → ⊥ }
    ensures forgotten { TraceMayBegin (record nursery_setup { logged = λ a. false }) → ⊥ }
    ensures moves { map (may_be_moved cycle_setup) (806 ∷ 810 ∷ 4902 ∷ [])
        ≡ true ∷ true ∷ false ∷ [] }
{}
