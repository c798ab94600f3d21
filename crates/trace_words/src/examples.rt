//! Worked tracings: what each step needs and shows, one after another.

ghost use Rattle.std.specs.Prelude.{◌≡◌, ℕ, ◌+◌, ◌<◌, [], ◌∷◌};
ghost use Rattle.forward_word.specs.CollectorWords.{collector_word};
ghost use Rattle.object_model.specs.Times.{times};
ghost use Rattle.object_model.specs.Objects.{word_at, ref_at};
ghost use Rattle.trace_core.specs.Machine.{ByRoot, ByField};
ghost use Rattle.trace_core.specs.Views.{hits};
ghost use Rattle.trace_core.specs.WorkedTraces.{nursery_setup};
ghost use Rattle.trace_core.specs.declared.run.TraceRun.{TraceRun};
ghost use Rattle.trace_words.specs.declared.share.Share.{Share};
ghost use Rattle.trace_words.specs.Rule.{SeatShare};
ghost use Rattle.trace_words.specs.Shares.{first_share, learns, sees_busy, takes_after_full};
ghost use Rattle.trace_words.specs.Steps.{MayLeave, MayClaim, LacksRoom, FitsRoom, MayCopy, MayScan, MayMark, Knows, IsLast, MaySet, IsWhole, IsDone, ShowsClaim, ShowsBlock, TakesBlock, ClaimsMoved};
ghost use Rattle.trace_words.specs.WorkedShares.{begun, without_worker, helper, with_room, copied_to, moved, set_below};
ghost use Rattle.trace_words.specs.WorkedShares.{crowded_setup, crowded_begun, first_room, first_claimed, first_filled, second_room, second_claimed, second_filled, helped, stayed, asked_twice, all_taken_in};

/// The first share gives a worker's seat, and in a token the right to scan a logged object. The
/// worker takes the token in, takes a block, claims, moves and copies a young object, and scans the
/// logged one. The first share takes it in, and sets the globals. Then nothing is left to do, so
/// that `take_row_back` says that the trace is finished.
pub fn share_makes_a_whole_trace()
    ensures begins { (run : TraceRun) → run.logged.items ≡ 810 ∷ [] → first_share run 2 ≡ begun }
    ensures seats { (1 < begun.parts) × (0 < times 2 begun.numbers) }
    ensures gives { (0 < hits 810 0 without_worker.grey)
        × (0 < hits 810 810 without_worker.known) }
    ensures takes { MayLeave nursery_setup helper }
    ensures claims { MayClaim nursery_setup with_room 814 (ByField 810 0)
        (word_at nursery_setup.before 816) }
    ensures moves { FitsRoom nursery_setup with_room 814 }
    ensures copies { (k : ℕ) → k < 5 → MayCopy nursery_setup (copied_to k) 814 4902 k }
    ensures scans { MayScan nursery_setup moved 810 810 0 }
    ensures last { IsLast moved (ref_at nursery_setup.before 810 0) 4902 }
    ensures globals { (g : ℕ) → g < 16 → MaySet nursery_setup (set_below g) g }
    ensures whole { IsWhole nursery_setup (set_below 16) }
    ensures done { IsDone nursery_setup (set_below 16) }
{}

/// A worker fills one block, leaves it for want of room for an object of 1,600 words, and fills
/// another. It takes in a second worker, so that each block is seen not to be Free, and claims an
/// object in place that may move. A root asks once more for the first object, whose first line is
/// marked. The first share, which takes the worker's in, has its blocks and lines.
pub fn workers_fill_a_heap()
    ensures begins { (run : TraceRun) → run.logged.items ≡ [] → first_share run 2 ≡ crowded_begun }
    ensures claims { MayClaim crowded_setup first_room 806 ByRoot
        (word_at crowded_setup.before 808) }
    ensures moves { FitsRoom crowded_setup first_room 806
        × FitsRoom crowded_setup first_claimed 4902
        × FitsRoom crowded_setup second_room 6402
        × FitsRoom crowded_setup second_claimed 1806 }
    ensures leaves { MayLeave crowded_setup first_filled }
    ensures left { (second_room.full ≡ 2 ∷ []) × (second_room.sparse ≡ [])
        × (second_room.filling ≡ 3 ∷ []) }
    ensures lacks { LacksRoom crowded_setup helped 3306 }
    ensures stays { MayClaim crowded_setup helped 3306 ByRoot
        (word_at crowded_setup.before 3308) }
    ensures copies { MayCopy crowded_setup stayed 3306 3306 1500 }
    ensures asks { Knows crowded_setup stayed 806 8998 }
    ensures marks { MayMark crowded_setup asked_twice 806 8998 30 1 }
    ensures blocks { (all_taken_in.blocks ≡ 3 ∷ 2 ∷ []) × (all_taken_in.last ≡ 3 ∷ [])
        × (all_taken_in.full ≡ 2 ∷ []) × (all_taken_in.sparse ≡ [])
        × (all_taken_in.owned ≡ (3, 1) ∷ (2, 1) ∷ []) }
    ensures lines { all_taken_in.lined ≡ (30, 1) ∷ [] }
    ensures whole { IsWhole crowded_setup all_taken_in }
{}

/// What loads and lost exchanges show. The word of a block that is not Free shows that, met by a
/// load or by an exchange. A collector word of this collection has the object's target, met by
/// either, and one of an old object says that it stays.
pub fn words_that_are_met_show_more()
    ensures block { (b : ℕ) (v : Share) (now : SeatShare) → ShowsBlock b (v, []) 17 now
        → now.0 ≡ sees_busy b v }
    ensures lost_block { (b : ℕ) (v : Share) (now : SeatShare)
        → TakesBlock b (takes_after_full crowded_setup b) (v, []) 17 now
        → now.0 ≡ sees_busy b v }
    ensures claim { (v : Share) (now : SeatShare)
        → ShowsClaim crowded_setup 806 (v, []) (collector_word 1 8998) now
        → now.0 ≡ learns 806 8998 v }
    ensures lost_claim { (v : Share) (now : SeatShare)
        → ClaimsMoved crowded_setup 806 ByRoot 0 (v, []) (collector_word 1 8998) now
        → now.0 ≡ learns 806 8998 v }
    ensures old { (v : Share) (now : SeatShare)
        → ShowsClaim nursery_setup 806 (v, []) (collector_word 1 806) now
        → now.0 ≡ learns 806 806 v }
{}
