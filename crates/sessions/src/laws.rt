//! Laws of holes, collections, needs and sessions.

ghost use Rattle.std.specs.Prelude.{length, ◌≡◌, ◌↔◌, ◌*◌, ℕ, ◌+◌, ◌<◌, ◌≤◌, false, true, List, ◌∷◌, ◌++◌, [], replicate, ◌/◌, ◌-◌, map};
ghost use Rattle.std.specs.List.{AllByRecursion};
ghost use Rattle.sessions.specs.Prelude.{Command, empty, IsRun, is_full, replies_of, alone, block_at, offset_at, Kind, Collect, Full, Nursery, HeapState, IsHeld, IsInExtent, empty_heap, size_of, size_at, is_pinned, is_old, is_logged, RemembersYoung, IsReachable, IsWellFormed, LineBitsAreExact, Plan, Rules, Reserve, NoGc, rules_of, Nothing, Copies, Headroom, BlockCounts, total_in, used_in, headroom_in, IsGrantable, IsRunGrantable, allowance_in, counts_with, allowances, Fits, HasHole, LiesInHole, MayGrant, allowance_of, headroom_of, IsCollection, Collects, Remembers, IsNurseryReachable, is_evacuated, is_old_under, is_logged_under, Setting, Moment, InSession, IsEpoch, IsWhole, IsSound, Places, ServesNeed, first_moment, refused_entry};

use heap_layout::{MAX_BLOCKS, MIN_BLOCKS};
use ideal_heap::MAX_MUTATORS;
use object_model::MAX_MEDIUM_WORDS;

/// A session begins with the empty heap and continues by epochs. Whatever it collects, its entries
/// are a run of the ideal heap. After each epoch the heap is lawful and represents the ideal heap
/// of the run. With `MIN_BLOCKS` to `MAX_BLOCKS` blocks and at most `MAX_MUTATORS` traces, this
/// holds before the first epoch too.
pub fn sessions()
    ensures first { (t : Setting) → InSession t (first_moment t) }
    ensures next { (t : Setting) (old new : Moment) → InSession t old → IsEpoch t old new
        → InSession t new }
    ensures run { (t : Setting) (now : Moment) → InSession t now → IsRun empty now.done }
    ensures sound { (t : Setting) (old new : Moment) → IsEpoch t old new → IsSound t new }
    ensures last { (t : Setting) (now : Moment) → MIN_BLOCKS ≤ t.blocks
        → t.blocks ≤ MAX_BLOCKS → length t.traces ≤ MAX_MUTATORS
        → InSession t now → IsSound t now }
{}

/// If no `new` was refused, the replies of a whole session of one trace are a function of the
/// trace. So they are the same under each plan, with any number of blocks and workers, and however
/// often the heap was collected.
pub fn sessions_of_one()
    ensures replies { (t : Setting) (trace : List Command) (last : Moment)
        → t.traces ≡ trace ∷ []
        → IsWhole t last → AllByRecursion (λ e. is_full e.reply ≡ false) last.done
        → replies_of 1 last.done ≡ alone empty 1 trace }
    ensures same { (t u : Setting) (trace : List Command) (last end : Moment)
        → t.traces ≡ trace ∷ [] → u.traces ≡ trace ∷ [] → IsWhole t last
        → IsWhole u end
        → AllByRecursion (λ e. is_full e.reply ≡ false) last.done
        → AllByRecursion (λ e. is_full e.reply ≡ false) end.done
        → replies_of 1 last.done ≡ replies_of 1 end.done }
{}

/// On the empty heap of at least `MIN_BLOCKS` blocks, each size of at most `MAX_MEDIUM_WORDS` fits,
/// under each plan: the reserve leaves a block. So a `new` of such a size is placed there without a
/// collection, and is not refused.
pub fn empty_heap_has_room()
    ensures fits { (p : Plan) (b size : ℕ) → MIN_BLOCKS ≤ b → size ≤ MAX_MEDIUM_WORDS
        → Fits (rules_of p) (empty_heap b) size }
    ensures served { (t : Setting) (p : Plan) (b m d refs nums : ℕ) (old new : Moment)
        → MIN_BLOCKS ≤ b → t.rules ≡ rules_of p → old.heap ≡ empty_heap b
        → size_of refs nums ≤ MAX_MEDIUM_WORDS
        → ServesNeed t m d refs nums old new → Places t m d refs nums old new }
{}

/// No word of a held object is among those that a new object takes in a hole, be it a tail, a free
/// cell or a run of clear lines. A new object at the start of a hole lies in the hole.
pub fn holes_are_clear()
    ensures clear { (fill : Kind) (s : HeapState) (k from size a i : ℕ) → IsWellFormed s
        → LineBitsAreExact s k → LiesInHole fill s k from size → IsHeld s a
        → IsInExtent s a i
        → block_at s.blocks i ≡ k → from ≤ offset_at s.blocks i
        → offset_at s.blocks i < from + size
        → ⊥ }
    ensures start { (fill : Kind) (s : HeapState) (k at size : ℕ) → HasHole fill s k at size
        → LiesInHole fill s k at size }
{}

/// Under each plan a collection increments the heap's collection number and keeps the layout. Under
/// `nogc` it is a full one and changes nothing else.
pub fn collections_count()
    ensures one { (r : Rules) (workers : ℕ) (c : Collect) (old new : HeapState)
        (roots after : List ℕ) → IsCollection r workers c old roots new after
        → (new.number ≡ old.number + 1) × (new.blocks ≡ old.blocks) }
    ensures nogc { (workers : ℕ) (c : Collect) (old new : HeapState) (roots after : List ℕ)
        → IsCollection (rules_of NoGc) workers c old roots new after
        → (c ≡ Full) × (new.words ≡ old.words) × (new.base ≡ old.base)
        × (after ≡ roots) }
{}

/// An empty heap with nil registers may be collected, under each plan that reclaims: a full
/// collection leaves it empty.
pub fn empty_heap_may_be_collected()
    ensures { (p : Plan) (b workers n : ℕ) → (rules_of p).collects ≡ true
        → IsCollection (rules_of p) workers Full (empty_heap b) (replicate n 0)
        (record (empty_heap b) { number = 1; base = 1 }) (replicate n 0) }
{}

/// Under a plan without young objects no object is old or logged, and a nursery collection would
/// preserve exactly the reachable objects. Under a plan with young objects it preserves the
/// reachable and all old objects.
pub fn plans_have_ages()
    ensures none_old { (r : Rules) (s : HeapState) (a : ℕ) → r.young ≡ false
        → is_old_under r s a ≡ false }
    ensures none_logged { (r : Rules) (s : HeapState) (a : ℕ) → r.young ≡ false
        → is_logged_under r s a ≡ false }
    ensures none_remembered { (r : Rules) (s : HeapState) → r.young ≡ false → Remembers r s }
    ensures old { (r : Rules) (s : HeapState) (a : ℕ) → r.young ≡ true
        → is_old_under r s a ≡ is_old s a }
    ensures logged { (r : Rules) (s : HeapState) (a : ℕ) → r.young ≡ true
        → is_logged_under r s a ≡ is_logged s a }
    ensures remembered { (r : Rules) (s : HeapState) → r.young ≡ true → Remembers r s
        → RemembersYoung s }
    ensures reached { (r : Rules) (s : HeapState) (roots : List ℕ) (a : ℕ)
        → IsReachable s roots a
        → IsNurseryReachable r s roots a }
    ensures kept { (r : Rules) (s : HeapState) (roots : List ℕ) (a : ℕ) → IsHeld s a
        → r.young ≡ true → is_old s a ≡ true → IsNurseryReachable r s roots a }
    ensures nothing_else { (r : Rules) (s : HeapState) (roots : List ℕ) (a : ℕ)
        → r.young ≡ false
        → IsNurseryReachable r s roots a → IsReachable s roots a }
{}

/// A preserved object stays in place if it is pinned or large, if its block is not evacuated, or if
/// the plan moves no objects.
pub fn objects_stay()
    ensures pinned { (r : Rules) (workers : ℕ) (c : Collect) (old new : HeapState)
        (roots after : List ℕ) → (k : Collects r workers c old roots new after) → (a : ℕ)
        → 0 < k.target a → is_pinned old a ≡ true → k.target a ≡ a }
    ensures large { (r : Rules) (workers : ℕ) (c : Collect) (old new : HeapState)
        (roots after : List ℕ) → (k : Collects r workers c old roots new after) → (a : ℕ)
        → 0 < k.target a → MAX_MEDIUM_WORDS < size_at old a → k.target a ≡ a }
    ensures elsewhere { (r : Rules) (workers : ℕ) (c : Collect) (old new : HeapState)
        (roots after : List ℕ) → (k : Collects r workers c old roots new after) → (a : ℕ)
        → 0 < k.target a → is_evacuated r c old (block_at old.blocks a) ≡ false
        → k.target a ≡ a }
    ensures unmoved { (r : Rules) (workers : ℕ) (c : Collect) (old new : HeapState)
        (roots after : List ℕ) → (k : Collects r workers c old roots new after) → (a : ℕ)
        → 0 < k.target a → r.moves ≡ false → k.target a ≡ a }
{}

/// If a `new` is refused at a stop, its size does not fit the heap that is left, and one full
/// collection was made for it.
pub fn refusals_follow_a_full_collection()
    ensures { (t : Setting) (m d refs nums : ℕ) (before now : Moment)
        → ServesNeed t m d refs nums before now
        → now.done ≡ before.done ++ refused_entry m d refs nums ∷ []
        → (Fits t.rules now.heap (size_of refs nums) → ⊥) × (now.full ≡ before.full + 1) }
{}

/// The heap's collection number is the number of collections of the session.
pub fn sessions_count()
    ensures { (t : Setting) (now : Moment) → InSession t now
        → now.heap.number ≡ now.nursery + now.full }
{}

/// A Free block may be granted if and only if mutators may take at least one in an epoch. A
/// headroom has at least one block for each 32 blocks of the heap.
pub fn grants_are_allowed()
    ensures grant { (reserve : Reserve) (s : HeapState)
        → MayGrant reserve s ↔ (1 ≤ allowance_of reserve s) }
    ensures headroom { (s : HeapState) → s.blocks ≤ 32 * headroom_of s }
{}

/// Under a plan that reclaims, a full collection sets the base to the new collection number, and a
/// nursery collection keeps the base.
pub fn collections_set_the_base()
    ensures full { (r : Rules) (workers : ℕ) (old new : HeapState) (roots after : List ℕ)
        → r.collects ≡ true → IsCollection r workers Full old roots new after
        → new.base ≡ new.number }
    ensures nursery { (r : Rules) (workers : ℕ) (old new : HeapState) (roots after : List ℕ)
        → r.collects ≡ true → IsCollection r workers Nursery old roots new after
        → new.base ≡ old.base }
{}

/// What plans hold back, by the counts of a heap's blocks. Where nothing is held back, every Free
/// block may be granted. Where copies are, twice the blocks in use are never more than all that
/// belong to no large object. Where a headroom is, it stays.
pub fn grants_by_counts()
    ensures nothing { (c : BlockCounts) → (IsGrantable Nothing c ↔ (1 ≤ c.free))
        × (allowance_in Nothing c ≡ c.free)
        × ((n : ℕ) → IsRunGrantable Nothing c n ↔ (n ≤ c.free)) }
    ensures copies { (c : BlockCounts) → c.free + c.large ≤ c.blocks
        → (IsGrantable Copies c ↔ ((used_in c + 1) * 2 ≤ total_in c))
        × (allowance_in Copies c ≡ total_in c / 2 - used_in c)
        × ((n : ℕ) → IsRunGrantable Copies c n ↔ (used_in c * 2 + n ≤ total_in c)) }
    ensures headroom { (c : BlockCounts) → (IsGrantable Headroom c ↔ (headroom_in c < c.free))
        × (allowance_in Headroom c ≡ c.free - headroom_in c)
        × ((n : ℕ) → IsRunGrantable Headroom c n ↔ (headroom_in c + n ≤ c.free)) }
    ensures sizes { map (λ b. headroom_in (counts_with b b 0)) (4 ∷ 5 ∷ 16 ∷ 1024 ∷ [])
        ≡ 1 ∷ 1 ∷ 1 ∷ 32 ∷ [] }
    ensures empty { allowances (counts_with 4 4 0 ∷ counts_with 5 5 0 ∷ counts_with 16 16 0
        ∷ counts_with 1024 1024 0 ∷ [])
        ≡ (4 ∷ 5 ∷ 16 ∷ 1024 ∷ []) ∷ (4 ∷ 5 ∷ 16 ∷ 1024 ∷ [])
        ∷ (2 ∷ 2 ∷ 8 ∷ 512 ∷ [])
        ∷ (2 ∷ 2 ∷ 8 ∷ 512 ∷ []) ∷ (3 ∷ 4 ∷ 15 ∷ 992 ∷ [])
        ∷ (3 ∷ 4 ∷ 15 ∷ 992 ∷ []) ∷ [] }
    ensures used { allowances (counts_with 4 1 1 ∷ counts_with 5 3 0 ∷ counts_with 16 9 3
        ∷ counts_with 1024 700 100 ∷ [])
        ≡ (1 ∷ 3 ∷ 9 ∷ 700 ∷ []) ∷ (1 ∷ 3 ∷ 9 ∷ 700 ∷ [])
        ∷ (0 ∷ 0 ∷ 2 ∷ 238 ∷ [])
        ∷ (0 ∷ 0 ∷ 2 ∷ 238 ∷ []) ∷ (0 ∷ 2 ∷ 8 ∷ 668 ∷ [])
        ∷ (0 ∷ 2 ∷ 8 ∷ 668 ∷ []) ∷ [] }
{}
