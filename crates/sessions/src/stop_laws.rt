//! Laws of the steps of a stop: collections, objects that are placed, needs, `meet`s, and what an
//! epoch adds.

ghost use Rattle.std.specs.Prelude.{◌≡◌, ◌≢◌, ◌↔◌, ◌⊎◌, ℕ, ◌+◌, ◌*◌, ◌<◌, ◌≤◌, ◌^◌, true, false, List, [], ◌∷◌, ◌++◌, map, filter, length, take, None, Some};
ghost use Rattle.std.specs.List.{AllByRecursion};
ghost use Rattle.sessions.specs.Prelude.{block_at, offset_at, block_start, IsAddress, Kind, Name, is_meet, PathReaches, Entry, entry, IsMutator, commands_of, of_mutator, trace_of, Collect, Full, Nursery, HeapState, empty_heap, HasKind, word_at, global_at, block_word, is_pinned, is_unlogged, IsHeld, name_at, refs_at, nums_at, number_at, ref_at, num_at, size_of, blocks_for, is_old, new_mutator, numbers_of, roots_of, IsReachable, Plan, Rules, MarkSweep, GenCopy, rules_of, Fits, HasHole, HasSomeHole, Collects, first_collection, Setting, Moment, Cause, traced_mutators, first_moment, next_in, ideal_at, is_at_gc, is_at_need, is_at_meet, is_waiting, all_done, refused_entry, IsOfPart, IsSound, MakesCollection, OnlyReplies, CollectsFor, PlacesSmall, PlacesLarge, UsesBlock, UsesRun, AddsObject, ChangesBlocks, Places, ServesNeed, ServesAll, Meets, IsEpoch, InSession, IsWhole, worked_setting, worked_moment};
ghost use Rattle.sessions.specs.Prelude.kinds;
ghost use Rattle.sessions.specs.Prelude.c;
ghost use Rattle.sessions.specs.Prelude.r;

use heap_layout::GLOBALS;
use object_model::MAX_MEDIUM_WORDS;

/// A collection is counted, adds no entry, and keeps how many objects each mutator has allocated.
/// Its job has the rules and the workers of the setting, and the registers of all mutators as
/// roots. At a stop one full collection is made for all mutators at `gc`, each of which gets `ok`,
/// and none if nobody is at `gc`.
pub fn stops_make_collections()
    ensures full { (t : Setting) (before now : Moment) → MakesCollection t Full before now
        → (now.nursery ≡ before.nursery) × (now.full ≡ before.full + 1) }
    ensures nursery { (t : Setting) (before now : Moment) → MakesCollection t Nursery before now
        → (now.nursery ≡ before.nursery + 1) × (now.full ≡ before.full) }
    ensures next { (t : Setting) (collect : Collect) (before now : Moment)
        → MakesCollection t collect before now → (m : ℕ)
        → next_in t now m ≡ next_in t before m }
    ensures births { (t : Setting) (collect : Collect) (before now : Moment)
        → MakesCollection t collect before now
        → (numbers_of now.mutators ≡ numbers_of before.mutators)
        × (map (λ m. m.births) now.mutators ≡ map (λ m. m.births) before.mutators) }
    ensures job { (t : Setting) (collect : Collect) (before now : Moment)
        → t.rules.collects ≡ true → MakesCollection t collect before now
        → Collects t.rules t.workers collect before.heap (roots_of before.mutators) now.heap
        (roots_of now.mutators) }
    ensures nobody { (t : Setting) (before now : Moment) → CollectsFor t [] before now
        → (now.heap ≡ before.heap) × (now.done ≡ before.done) × (now.full ≡ before.full) }
    ensures for_all { (t : Setting) (m : ℕ) (ms : List ℕ) (before now : Moment)
        → CollectsFor t (m ∷ ms) before now
        → (now.done ≡ before.done ++ all_done c.Gc (m ∷ ms)) × (now.full ≡ before.full + 1)
        × (now.nursery ≡ before.nursery) × (now.heap.number ≡ before.heap.number + 1) }
    ensures replies { (es : List Entry) (before now : Moment) → OnlyReplies es before now
        → (now.heap ≡ before.heap) × (now.mutators ≡ before.mutators)
        × (now.nursery ≡ before.nursery) × (now.full ≡ before.full) }
    ensures done { all_done c.Gc (1 ∷ 3 ∷ [])
        ≡ entry 1 c.Gc r.Done ∷ entry 3 c.Gc r.Done ∷ [] }
{}

/// The heap and the size determine where a stop places an object. No hole with room begins before a
/// small or medium object. If there is no such hole, no Free block begins before it.
pub fn places_are_determined()
    ensures small { (s : HeapState) (a x size : ℕ) → IsAddress s.blocks a
        → IsAddress s.blocks x
        → (rules : Rules) → PlacesSmall rules s a size → PlacesSmall rules s x size
        → a ≡ x }
    ensures large { (s : HeapState) (a x size : ℕ) → IsAddress s.blocks a
        → IsAddress s.blocks x
        → PlacesLarge s a size → PlacesLarge s x size → a ≡ x }
    ensures hole { (s : HeapState) (a k at size : ℕ) → IsAddress s.blocks a → (rules : Rules)
        → PlacesSmall rules s a size → HasHole rules.fill s k at size
        → a ≤ block_start s.blocks k + at }
    ensures free { (s : HeapState) (a k size : ℕ) → IsAddress s.blocks a → (rules : Rules)
        → PlacesSmall rules s a size → (HasSomeHole rules.fill s size → ⊥)
        → HasKind s k kinds.Free → a ≤ block_start s.blocks k }
{}

/// An object that is placed was not held before, and is the only one more. It has its shape, nil
/// references and zeros, no collection has met it, and it is neither pinned nor unlogged. The
/// others keep their names, shapes, references, numbers and bits.
pub fn placed_objects_are_blank()
    ensures shape { (old new : HeapState) (a refs nums : ℕ) → AddsObject old new a refs nums
        → refs < 65536 → (refs_at new a ≡ refs) × (nums_at new a ≡ nums) }
    ensures number { (old new : HeapState) (a refs nums : ℕ) → AddsObject old new a refs nums
        → number_at new a ≡ 0 }
    ensures references { (old new : HeapState) (a refs nums : ℕ)
        → AddsObject old new a refs nums
        → (i : ℕ) → i < refs → ref_at new a i ≡ 0 }
    ensures numbers { (old new : HeapState) (a refs nums : ℕ) → AddsObject old new a refs nums
        → refs < 65536 → (j : ℕ) → j < nums → num_at new a j ≡ 0 }
    ensures held { (old new : HeapState) (a refs nums : ℕ) → AddsObject old new a refs nums
        → (x : ℕ) → IsHeld new x ↔ ((x ≡ a) ⊎ IsHeld old x) }
    ensures fresh { (old new : HeapState) (a refs nums : ℕ) → AddsObject old new a refs nums
        → IsHeld old a → ⊥ }
    ensures bits { (old new : HeapState) (a refs nums : ℕ) → AddsObject old new a refs nums
        → (is_pinned new a ≡ false) × (is_unlogged new a ≡ false) }
    ensures other_name { (old new : HeapState) (a refs nums : ℕ)
        → AddsObject old new a refs nums
        → (x : ℕ) → IsHeld old x → name_at new x ≡ name_at old x }
    ensures other_shape { (old new : HeapState) (a refs nums : ℕ)
        → AddsObject old new a refs nums → (x : ℕ) → IsHeld old x
        → (refs_at new x ≡ refs_at old x) × (nums_at new x ≡ nums_at old x) }
    ensures other_field { (old new : HeapState) (a refs nums : ℕ)
        → AddsObject old new a refs nums → (x : ℕ) → IsHeld old x → (i : ℕ)
        → i < refs_at old x
        → ref_at new x i ≡ ref_at old x i }
    ensures other_num { (old new : HeapState) (a refs nums : ℕ) → AddsObject old new a refs nums
        → (x : ℕ) → IsHeld old x → (j : ℕ) → j < nums_at old x
        → num_at new x j ≡ num_at old x j }
    ensures other_bits { (old new : HeapState) (a refs nums : ℕ)
        → AddsObject old new a refs nums
        → (x : ℕ) → IsHeld old x
        → (is_pinned new x ≡ is_pinned old x) × (is_unlogged new x ≡ is_unlogged old x) }
{}

/// A Free block that is used for 5 words becomes one of cells of 6 words under `marksweep`, and a
/// Young one under `gencopy`, without owner; a block in use keeps its word. A run of three blocks
/// is a head of class 3 and two tails. Neither changes the blocks beside it.
pub fn used_blocks_get_their_kinds()
    ensures cells { (old new : HeapState) (k : ℕ) → UsesBlock (rules_of MarkSweep) old new k 5
        → HasKind old k kinds.Free → block_word new k ≡ 261 }
    ensures young { (old new : HeapState) (k : ℕ) → UsesBlock (rules_of GenCopy) old new k 5
        → HasKind old k kinds.Free → block_word new k ≡ 2 }
    ensures in_use { (rules : Rules) (old new : HeapState) (k size : ℕ) (kind : Kind)
        → UsesBlock rules old new k size → HasKind old k kind → kind ≢ kinds.Free
        → block_word new k ≡ block_word old k }
    ensures others { (rules : Rules) (old new : HeapState) (k j size : ℕ)
        → UsesBlock rules old new k size → j < old.blocks → j ≢ k
        → block_word new j ≡ block_word old j }
    ensures run { (old new : HeapState) (k : ℕ) → UsesRun old new k 3
        → (block_word new k ≡ 774) × (block_word new (k + 1) ≡ 7)
        × (block_word new (k + 2) ≡ 7) }
    ensures beside { (old new : HeapState) (k : ℕ) → UsesRun old new (k + 1) 2
        → k + 3 < old.blocks → (block_word new k ≡ block_word old k)
        × (block_word new (k + 3) ≡ block_word old (k + 3)) }
    ensures globals { (old new : HeapState) (used n g : ℕ) → ChangesBlocks old new used n
        → new.blocks ≡ old.blocks → g < GLOBALS → global_at new g ≡ global_at old g }
    ensures words { (old new : HeapState) (k n i : ℕ) → ChangesBlocks old new (k + 1) n
        → IsAddress old.blocks i
        → (block_at old.blocks i ≡ k) ⊎ (block_at old.blocks i ≡ k + 1 + n)
        → word_at new i ≡ word_at old i }
{}

/// A `new` that is placed makes no collection and adds one entry, which replies the name of the one
/// new object. It is placed only if it fits, and changes no global and no other block. Its block is
/// then of the kind that mutators fill. A large object is at the start of a Free block, which
/// becomes a head.
pub fn places_add_one_object()
    ensures entry { (t : Setting) (m d refs nums : ℕ) (before now : Moment)
        → Places t m d refs nums before now → (n : Name) × (a : ℕ)
        × (now.done ≡ before.done ++ entry m (c.New d refs nums) (r.New n) ∷ [])
        × IsHeld now.heap a × (IsHeld before.heap a → ⊥) × (name_at now.heap a ≡ n) }
    ensures counts { (t : Setting) (m d refs nums : ℕ) (before now : Moment)
        → Places t m d refs nums before now → (now.nursery ≡ before.nursery)
        × (now.full ≡ before.full) × (now.heap.blocks ≡ before.heap.blocks)
        × (now.heap.number ≡ before.heap.number) × (now.heap.base ≡ before.heap.base) }
    ensures fits { (t : Setting) (m d refs nums : ℕ) (before now : Moment)
        → (Fits t.rules before.heap (size_of refs nums) → ⊥)
        → Places t m d refs nums before now → ⊥ }
    ensures globals { (t : Setting) (m d refs nums : ℕ) (before now : Moment)
        → Places t m d refs nums before now → (g : ℕ) → g < GLOBALS
        → global_at now.heap g ≡ global_at before.heap g }
    ensures small_kind { (t : Setting) (m d refs nums : ℕ) (before now : Moment)
        → (p : Places t m d refs nums before now) → size_of refs nums ≤ MAX_MEDIUM_WORDS
        → HasKind now.heap (block_at before.heap.blocks p.place) t.rules.fill }
    ensures small_blocks { (t : Setting) (m d refs nums : ℕ) (before now : Moment)
        → (p : Places t m d refs nums before now) → size_of refs nums ≤ MAX_MEDIUM_WORDS
        → (j : ℕ) → j < before.heap.blocks → j ≢ block_at before.heap.blocks p.place
        → block_word now.heap j ≡ block_word before.heap j }
    ensures small_words { (t : Setting) (m d refs nums : ℕ) (before now : Moment)
        → (p : Places t m d refs nums before now) → size_of refs nums ≤ MAX_MEDIUM_WORDS
        → (i : ℕ) → IsAddress before.heap.blocks i
        → block_at before.heap.blocks i ≢ block_at before.heap.blocks p.place
        → word_at now.heap i ≡ word_at before.heap i }
    ensures large_block { (t : Setting) (m d refs nums : ℕ) (before now : Moment)
        → (p : Places t m d refs nums before now) → MAX_MEDIUM_WORDS < size_of refs nums
        → (offset_at before.heap.blocks p.place ≡ 0)
        × HasKind before.heap (block_at before.heap.blocks p.place) kinds.Free
        × HasKind now.heap (block_at before.heap.blocks p.place) kinds.LargeHead }
    ensures large_words { (t : Setting) (m d refs nums : ℕ) (before now : Moment)
        → (p : Places t m d refs nums before now) → MAX_MEDIUM_WORDS < size_of refs nums
        → (i : ℕ) → IsAddress before.heap.blocks i
        → (block_at before.heap.blocks i < block_at before.heap.blocks p.place)
        ⊎ (block_at before.heap.blocks p.place + blocks_for (size_of refs nums)
        ≤ block_at before.heap.blocks i) → word_at now.heap i ≡ word_at before.heap i }
{}

/// A need that fits is served without a collection. One that does not fit has the collection to try
/// first, and a full one after a nursery collection only if it still does not fit. Each need adds
/// one entry, and needs are served in the order of the mutators.
pub fn needs_are_served()
    ensures at_once { (t : Setting) (m d refs nums : ℕ) (before now : Moment)
        → Fits t.rules before.heap (size_of refs nums) → ServesNeed t m d refs nums before now
        → Places t m d refs nums before now }
    ensures full_first { (t : Setting) (m d refs nums : ℕ) (before now : Moment)
        → (Fits t.rules before.heap (size_of refs nums) → ⊥)
        → first_collection t.rules before.heap ≡ Full → ServesNeed t m d refs nums before now
        → (now.nursery ≡ before.nursery) × (now.full ≡ before.full + 1) }
    ensures nursery_first { (t : Setting) (m d refs nums : ℕ) (before now : Moment)
        → (Fits t.rules before.heap (size_of refs nums) → ⊥)
        → first_collection t.rules before.heap ≡ Nursery → ServesNeed t m d refs nums before now
        → (mid : Moment) × MakesCollection t Nursery before mid
        × (Places t m d refs nums mid now ⊎ ((Fits t.rules mid.heap (size_of refs nums) → ⊥)
        × (now.nursery ≡ mid.nursery) × (now.full ≡ mid.full + 1))) }
    ensures one_entry { (t : Setting) (m d refs nums : ℕ) (before now : Moment)
        → ServesNeed t m d refs nums before now
        → (e : Entry) × (now.done ≡ before.done ++ e ∷ [])
        × (e.mutator ≡ m) × (e.command ≡ c.New d refs nums) }
    ensures after_nursery { (t : Setting) (m d refs nums : ℕ) (before now mid : Moment)
        → (Fits t.rules before.heap (size_of refs nums) → ⊥)
        → first_collection t.rules before.heap ≡ Nursery
        → MakesCollection t Nursery before mid
        → Places t m d refs nums mid now → ServesNeed t m d refs nums before now }
    ensures after_full { (t : Setting) (m d refs nums : ℕ) (before now late : Moment)
        → (Fits t.rules before.heap (size_of refs nums) → ⊥)
        → first_collection t.rules before.heap ≡ Full → MakesCollection t Full before late
        → Places t m d refs nums late now ⊎ ((Fits t.rules late.heap (size_of refs nums)
        → ⊥)
        × OnlyReplies (refused_entry m d refs nums ∷ []) late now)
        → ServesNeed t m d refs nums before now }
    ensures after_both { (t : Setting) (m d refs nums : ℕ) (before now mid late : Moment)
        → (Fits t.rules before.heap (size_of refs nums) → ⊥)
        → first_collection t.rules before.heap ≡ Nursery
        → MakesCollection t Nursery before mid
        → (Fits t.rules mid.heap (size_of refs nums) → ⊥) → MakesCollection t Full mid late
        → Places t m d refs nums late now ⊎ ((Fits t.rules late.heap (size_of refs nums)
        → ⊥)
        × OnlyReplies (refused_entry m d refs nums ∷ []) late now)
        → ServesNeed t m d refs nums before now }
    ensures refused { refused_entry 2 0 1 3 ≡ entry 2 (c.New 0 1 3) r.Full }
    ensures order { (t : Setting) (ms : List ℕ) (before now : Moment)
        → ServesAll t ms before now
        → (es : List Entry) × (now.done ≡ before.done ++ es)
        × (map (λ e. e.mutator) es ≡ ms) }
    ensures next { (t : Setting) (m : ℕ) (ms : List ℕ) (before now : Moment)
        → ServesAll t (m ∷ ms) before now
        → (d : ℕ) × (refs : ℕ) × (nums : ℕ) × (mid : Moment)
        × (next_in t before m ≡ Some (c.New d refs nums)) × ServesNeed t m d refs nums before mid
        × ServesAll t ms mid now }
{}

/// Each `meet` gets its reply if all mutators are at `meet` or have ended. One that is at another
/// command holds up all.
pub fn meets_are_replied()
    ensures waiting { map is_waiting (None ∷ Some c.Meet ∷ Some c.Gc ∷ Some (c.New 0 1 1)
        ∷ [])
        ≡ true ∷ true ∷ false ∷ false ∷ [] }
    ensures at_meet { map is_at_meet (None ∷ Some c.Meet ∷ Some c.Gc ∷ Some (c.New 0 1 1)
        ∷ [])
        ≡ false ∷ true ∷ false ∷ false ∷ [] }
    ensures held_up { (t : Setting) (m : ℕ) (before now : Moment) → IsMutator t.traces m
        → is_waiting (next_in t before m) ≡ false → Meets t before now → now ≡ before }
    ensures both { (rules : Rules) (now : Moment)
        → Meets (worked_setting rules ((c.Meet ∷ []) ∷ (c.Meet ∷ []) ∷ []))
        (worked_moment rules ((c.Meet ∷ []) ∷ (c.Meet ∷ []) ∷ [])) now
        → now.done ≡ entry 1 c.Meet r.Done ∷ entry 2 c.Meet r.Done ∷ [] }
    ensures ended { (rules : Rules) (now : Moment)
        → Meets (worked_setting rules ([] ∷ (c.Meet ∷ []) ∷ []))
        (worked_moment rules ([] ∷ (c.Meet ∷ []) ∷ [])) now
        → now.done ≡ entry 2 c.Meet r.Done ∷ [] }
{}

/// An epoch adds the entries of its part, then a reply to each `gc`, then one entry for each need,
/// then replies to `meet`s. Each mutator's entries are the first commands of its trace. For each
/// mutator it makes at most one nursery and one full collection, and one full one more. A session
/// keeps the number of blocks, and has no base before the first full collection. Where it is whole,
/// no mutator has a next command.
pub fn epochs_add_entries()
    ensures entries { (t : Setting) (before now : Moment) → IsEpoch t before now
        → (ends : ℕ → Cause) × (part : List Entry) × (needs : List Entry)
        × (meets : List Entry) × (now.done ≡ before.done ++ (part
        ++ all_done c.Gc (filter (λ m. is_at_gc (ends m)) (traced_mutators t)) ++ needs ++ meets))
        × AllByRecursion IsOfPart part
        × (map (λ e. e.mutator) needs ≡ filter (λ m. is_at_need (ends m)) (traced_mutators t))
        × AllByRecursion (λ e. is_meet e.command ≡ true) meets }
    ensures commands { (t : Setting) (before now : Moment) (m : ℕ) → IsEpoch t before now
        → IsMutator t.traces m
        → commands_of m now.done ≡ take (length (of_mutator m now.done)) (trace_of t.traces m) }
    ensures collections { (t : Setting) (before now : Moment) → IsEpoch t before now
        → (before.nursery ≤ now.nursery)
        × (now.nursery ≤ before.nursery + length t.traces) × (before.full ≤ now.full)
        × (now.full ≤ before.full + 1 + length t.traces) }
    ensures blocks { (t : Setting) (now : Moment) → InSession t now
        → now.heap.blocks ≡ t.blocks }
    ensures base { (t : Setting) (now : Moment) → InSession t now → now.full ≡ 0
        → now.heap.base ≡ 0 }
    ensures whole { (t : Setting) (last : Moment) (m : ℕ) → IsWhole t last
        → IsMutator t.traces m → next_in t last m ≡ None }
{}

/// In a sound moment each reference of a held object refers to a held one, and under a plan with
/// young objects an old object that is unlogged refers to old ones alone. Each object that the
/// ideal heap reaches is reached in the heap, and there are as many mutators as traces.
pub fn sound_moments_have_no_loose_references()
    ensures held { (t : Setting) (now : Moment) → IsSound t now → (a i : ℕ)
        → IsHeld now.heap a
        → i < refs_at now.heap a → 0 < ref_at now.heap a i
        → IsHeld now.heap (ref_at now.heap a i) }
    ensures old { (t : Setting) (now : Moment) → IsSound t now → t.rules.young ≡ true
        → (a i : ℕ) → IsHeld now.heap a → is_old now.heap a ≡ true
        → is_unlogged now.heap a ≡ true → i < refs_at now.heap a → 0 < ref_at now.heap a i
        → is_old now.heap (ref_at now.heap a i) ≡ true }
    ensures reached { (t : Setting) (now : Moment) → IsSound t now → (n : Name)
        → PathReaches (ideal_at now) n
        → (a : ℕ) × IsReachable now.heap (roots_of now.mutators) a
        × (name_at now.heap a ≡ n) }
    ensures mutators { (t : Setting) (now : Moment) → IsSound t now
        → length now.mutators ≡ length t.traces }
{}

/// A session begins with the empty heap. Its mutators are numbered from 1 in the order of the
/// traces, have nil registers, and are each at the first command of their trace.
pub fn sessions_begin_empty()
    ensures numbers { (rules : Rules)
        → traced_mutators (worked_setting rules ((c.Gc ∷ []) ∷ [] ∷ (c.Meet ∷ []) ∷ []))
        ≡ 1 ∷ 2 ∷ 3 ∷ [] }
    ensures mutators { (rules : Rules)
        → (worked_moment rules ((c.Gc ∷ []) ∷ [] ∷ (c.Meet ∷ []) ∷ [])).mutators
        ≡ new_mutator 1 ∷ new_mutator 2 ∷ new_mutator 3 ∷ [] }
    ensures commands { (rules : Rules)
        → map (next_in (worked_setting rules ((c.Gc ∷ []) ∷ [] ∷ (c.Meet ∷ []) ∷ []))
        (worked_moment rules ((c.Gc ∷ []) ∷ [] ∷ (c.Meet ∷ []) ∷ []))) (1 ∷ 2 ∷ 3
        ∷ [])
        ≡ Some c.Gc ∷ None ∷ Some c.Meet ∷ [] }
    ensures state { (t : Setting) → ((first_moment t).heap ≡ empty_heap t.blocks)
        × ((first_moment t).done ≡ []) × ((first_moment t).nursery ≡ 0)
        × ((first_moment t).full ≡ 0) }
{}

/// A session of one mutator whose trace is `gc` is whole after one epoch, with one full collection,
/// under each plan that reclaims.
pub fn a_gc_makes_one_full_collection()
    ensures { (p : Plan) → (rules_of p).collects ≡ true → (last : Moment)
        × IsWhole (worked_setting (rules_of p) ((c.Gc ∷ []) ∷ [])) last × (last.full ≡ 1)
        × (last.nursery ≡ 0) × (last.done ≡ entry 1 c.Gc r.Done ∷ []) }
{}
