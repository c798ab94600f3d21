//! Laws on the live line and the map: they show the ideal heap.

ghost use Rattle.std.specs.Prelude.{◌≡◌, ℕ, ◌≤◌, ◌++◌, ◌∷◌, [], Bool, List, length, map, codes, true, false, None, Some};
ghost use Rattle.std.specs.List.{AllByRecursion, flat_map};
ghost use Rattle.driver.specs.Prelude.{Command, Name, name, IdealHeap, At, empty, record_of, is_full, name_at, size_at, record_at, count_words_at, Setting, Moment, IsSound, IsWhole, ideal_at, AreLive, live_line, replies_part, map_part, AreLiveNames, record_size, count_words_named, ideal_live_line, heap_alone, MapPlace, place_of, place_line, LiesInBlocks, AreDisjoint, IsMapOf, Plan, IsSessionText, IsSummary, Job, Files, Made, Content, AreTracesOf, IsWholeText, job_of, setting_of, HasFullLine, mutator_text, alone, worked_end, worked_ideal, worked_names, worked_trace, place_at, worked_map};

use heap_layout::{MAX_BLOCKS, MIN_BLOCKS};

/// The live objects at a sound moment are those of the ideal heap: their names are the names that
/// it reaches, in that order, and each has the size of its record. So the live line of a text can
/// be told from the ideal heap alone, which has one list of live names.
pub fn live_objects_are_ideal()
    ensures names { (t : Setting) (now : Moment) (live : List ℕ) → IsSound t now
        → AreLive now live → AreLiveNames (ideal_at now) (map (name_at now.heap) live) }
    ensures sizes { (t : Setting) (now : Moment) (live : List ℕ) → IsSound t now
        → AreLive now live → AllByRecursion (λ a. size_at now.heap a
        ≡ record_size (record_of (ideal_at now) (name_at now.heap a))) live }
    ensures words { (t : Setting) (now : Moment) (live : List ℕ) → IsSound t now
        → AreLive now live → count_words_at now.heap live
        ≡ count_words_named (ideal_at now) (map (name_at now.heap) live) }
    ensures one { (h : IdealHeap) (ms ns : List Name) → AreLiveNames h ms → AreLiveNames h ns
        → ms ≡ ns }
    ensures line { (t : Setting) (now : Moment) (live : List ℕ) (names : List Name)
        → IsSound t now → AreLive now live → AreLiveNames (ideal_at now) names
        → live_line now.heap live ≡ ideal_live_line (ideal_at now) names }
    ensures text { (t : Setting) (plan : Plan) (n : ℕ) (has_map : Bool) (last : Moment)
        (text : List ℕ) (names : List Name) → IsSound t last
        → IsSessionText plan n has_map last text → AreLiveNames (ideal_at last) names
        → (front : List ℕ) × (rest : List ℕ)
        × (text ≡ front ++ ideal_live_line (ideal_at last) names ++ rest) }
{}

/// At a sound moment the lines of a map are those of the places of the objects that the ideal heap
/// reaches. They lie in the heap's blocks, and no two overlap. So a text that is printed with a map
/// ends in such lines.
pub fn maps_show_the_ideal_heap()
    ensures lines { (last : Moment) (live : List ℕ)
        → map_part last live ≡ flat_map place_line (map (place_of last.heap) live) }
    ensures places { (t : Setting) (now : Moment) (live : List ℕ) → IsSound t now
        → AreLive now live
        → IsMapOf (ideal_at now) now.heap.blocks (map (place_of now.heap) live) }
    ensures text { (t : Setting) (plan : Plan) (n : ℕ) (last : Moment) (text : List ℕ)
        → IsSound t last → IsSessionText plan n true last text
        → (front : List ℕ) × (places : List MapPlace)
        × IsMapOf (ideal_at last) last.heap.blocks places
        × (text ≡ front ++ flat_map place_line places) }
{}

/// If no `new` was refused, the replies and the live line of a whole session of one trace are
/// functions of the trace. So they are the same under each plan, with any number of blocks and
/// workers, and however often the heap was collected, and so is the summary of a made trace.
pub fn live_lines_of_one()
    ensures ideal { (t : Setting) (trace : List Command) (last : Moment)
        → t.traces ≡ trace ∷ [] → IsWhole t last
        → AllByRecursion (λ e. is_full e.reply ≡ false) last.done
        → ideal_at last ≡ heap_alone empty 1 trace }
    ensures line { (t : Setting) (trace : List Command) (last : Moment) (live : List ℕ)
        (names : List Name) → MIN_BLOCKS ≤ t.blocks → t.blocks ≤ MAX_BLOCKS
        → t.traces ≡ trace ∷ [] → IsWhole t last
        → AllByRecursion (λ e. is_full e.reply ≡ false) last.done → AreLive last live
        → AreLiveNames (heap_alone empty 1 trace) names
        → live_line last.heap live ≡ ideal_live_line (heap_alone empty 1 trace) names }
    ensures same { (t u : Setting) (trace : List Command) (last end : Moment)
        (live left : List ℕ) → MIN_BLOCKS ≤ t.blocks → t.blocks ≤ MAX_BLOCKS
        → MIN_BLOCKS ≤ u.blocks → u.blocks ≤ MAX_BLOCKS → t.traces ≡ trace ∷ []
        → u.traces ≡ trace ∷ [] → IsWhole t last → IsWhole u end
        → AllByRecursion (λ e. is_full e.reply ≡ false) last.done
        → AllByRecursion (λ e. is_full e.reply ≡ false) end.done
        → AreLive last live → AreLive end left
        → (replies_part 1 last ≡ replies_part 1 end)
        × (live_line last.heap live ≡ live_line end.heap left) }
    ensures text { (t : Setting) (trace : List Command) (plan : Plan) (has_map : Bool)
        (last : Moment) (text : List ℕ) (names : List Name) → MIN_BLOCKS ≤ t.blocks
        → t.blocks ≤ MAX_BLOCKS → t.traces ≡ trace ∷ [] → IsWhole t last
        → IsSessionText plan 1 has_map last text → (HasFullLine text → ⊥)
        → AreLiveNames (heap_alone empty 1 trace) names
        → (middle : List ℕ) × (rest : List ℕ)
        × (text ≡ mutator_text 1 (alone empty 1 trace) ++ middle
        ++ ideal_live_line (heap_alone empty 1 trace) names ++ rest) }
    ensures summary { (t u : Setting) (trace : List Command) (n : ℕ) (last end : Moment)
        (text other : List ℕ) → MIN_BLOCKS ≤ t.blocks → t.blocks ≤ MAX_BLOCKS
        → MIN_BLOCKS ≤ u.blocks → u.blocks ≤ MAX_BLOCKS → t.traces ≡ trace ∷ []
        → u.traces ≡ trace ∷ [] → IsWhole t last → IsWhole u end
        → AllByRecursion (λ e. is_full e.reply ≡ false) last.done
        → AllByRecursion (λ e. is_full e.reply ≡ false) end.done
        → IsSummary n last text → IsSummary n end other → text ≡ other }
{}

/// The whole text of a job that arguments name is that of a session, and the session's last moment
/// is sound, with as many blocks as the job says. So the live line and the map that are printed
/// show the ideal heap.
pub fn whole_texts_are_of_sound_moments()
    ensures sound { (words : List (List ℕ)) (job : Job) (content : Content)
        (traces : List (List Command)) (text : List ℕ) → job_of words ≡ Some job
        → AreTracesOf content job.work traces → (w : IsWholeText job traces text)
        → IsSound (setting_of job traces) w.last }
    ensures blocks { (job : Job) (traces : List (List Command)) (text : List ℕ)
        → (w : IsWholeText job traces text) → w.last.heap.blocks ≡ job.blocks }
    ensures files { (job : Job) (files : List (List ℕ)) (traces : List (List Command))
        (text : List ℕ) → job.work ≡ Files files → (w : IsWholeText job traces text)
        → IsSessionText job.plan (length traces) job.map w.last text }
    ensures made { (job : Job) (n : ℕ) (traces : List (List Command)) (text : List ℕ)
        → job.work ≡ Made n → (w : IsWholeText job traces text) → IsSummary n w.last text }
{}

/// The live names and the live line of a worked ideal heap, which are those of the worked heap.
pub fn worked_live_names()
    ensures live { AreLiveNames worked_ideal worked_names }
    ensures by_birth { AreLiveNames worked_ideal (name 1 2 ∷ name 2 1 ∷ name 1 3 ∷ []) → ⊥ }
    ensures twice { AreLiveNames worked_ideal (name 1 2 ∷ name 1 2 ∷ name 1 3 ∷ name 2 1 ∷ [])
        → ⊥ }
    ensures dead { AreLiveNames worked_ideal (name 1 1 ∷ name 1 2 ∷ name 1 3 ∷ name 2 1 ∷ [])
        → ⊥ }
    ensures missing { AreLiveNames worked_ideal (name 1 2 ∷ name 2 1 ∷ []) → ⊥ }
    ensures line { ideal_live_line worked_ideal worked_names
        ≡ codes "live objects 3 words 2060\n" }
    ensures heap { (map (name_at worked_end.heap) (9195 ∷ 13307 ∷ 1008 ∷ []) ≡ worked_names)
        × (map (λ a. (record_at worked_end.heap a).refs) (9195 ∷ 13307 ∷ 1008 ∷ [])
        ≡ map (λ n. (record_of worked_ideal n).refs) worked_names)
        × (map (size_at worked_end.heap) (9195 ∷ 13307 ∷ 1008 ∷ [])
        ≡ map (λ n. record_size (record_of worked_ideal n)) worked_names) }
{}

/// The ideal heap after a worked trace of one mutator, the first or the second.
pub fn worked_heap_alone()
    ensures record { record_of (heap_alone empty 1 worked_trace) (name 1 1)
        ≡ record { refs = At (name 1 2) ∷ []; nums = [] } }
    ensures numbers { (record_of (heap_alone empty 1 worked_trace) (name 1 2)).nums
        ≡ 0 ∷ 0 ∷ 7 ∷ [] }
    ensures roots { ((heap_alone empty 1 worked_trace).globals 5 ≡ Some (name 1 1))
        × ((heap_alone empty 1 worked_trace).registers 1 0 ≡ None)
        × ((heap_alone empty 1 worked_trace).registers 1 1 ≡ Some (name 1 2)) }
    ensures births { ((heap_alone empty 1 worked_trace).births 1 ≡ 2)
        × ((heap_alone empty 2 worked_trace).births 2 ≡ 2) }
{}

/// Places that share a word or do not, and that lie in a heap of five blocks or do not.
pub fn worked_places()
    ensures apart { AreDisjoint (place_at 0 5 4) (place_at 0 9 3) }
    ensures shared { AreDisjoint (place_at 0 5 4) (place_at 0 8 3) → ⊥ }
    ensures across { AreDisjoint (place_at 0 0 4100) (place_at 1 3 3) → ⊥ }
    ensures last { LiesInBlocks 5 (place_at 4 4092 4) }
    ensures run { LiesInBlocks 5 (place_at 3 0 8192) }
    ensures past { LiesInBlocks 5 (place_at 3 0 8193) → ⊥ }
    ensures outside { LiesInBlocks 5 (place_at 5 0 3) → ⊥ }
    ensures split { LiesInBlocks 5 (place_at 3 2049 2048) → ⊥ }
    ensures inner { LiesInBlocks 5 (place_at 3 1 2049) → ⊥ }
{}

/// The map of a worked heap is one of its ideal heap. With the place of one object changed it is
/// not: by its name, its size, or where it lies.
pub fn worked_maps()
    ensures places { map (place_of worked_end.heap) (9195 ∷ 13307 ∷ 1008 ∷ [])
        ≡ worked_map (place_at 3 16 7) }
    ensures is { IsMapOf worked_ideal 5 (worked_map (place_at 3 16 7)) }
    ensures dead { IsMapOf worked_ideal 5
        (worked_map (record (place_at 3 16 7) { name = name 1 1 })) → ⊥ }
    ensures larger { IsMapOf worked_ideal 5 (worked_map (place_at 3 16 8)) → ⊥ }
    ensures outside { IsMapOf worked_ideal 5 (worked_map (place_at 5 16 7)) → ⊥ }
    ensures overlapping { IsMapOf worked_ideal 5 (worked_map (place_at 0 8 7)) → ⊥ }
{}
